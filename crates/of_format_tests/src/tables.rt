//! Bytes in rows: with which type and code they are refused, what the message says that they are, and what is written of it.
use crate::actions::{actions_again, instructions_again};
use crate::checks::{Asked, are_answered, is_written};
use crate::requests::message_again;
use crate::{actions, channel, groups_and_ports, messages, requests};
use of_test_peers::rows::sides;
use std::alloc::Global;
use std::process::Abort;
use std::test::Fail;

const ANSWERED: &[(Asked, &str)] = &[
    (Asked::ActionsRefused, actions::rows::REFUSED_ACTIONS),
    (
        Asked::InstructionsRefused,
        actions::rows::REFUSED_INSTRUCTIONS,
    ),
    (Asked::MessageRefused, messages::rows::REFUSED),
    (Asked::MessageRefused, channel::rows::REFUSED),
    (Asked::SlaveRefused, channel::rows::REFUSED_SLAVE),
    (Asked::MessageRefused, groups_and_ports::rows::REFUSED),
    (Asked::Message, messages::rows::READ),
    (Asked::OfMaster, channel::rows::READ),
    (Asked::Message, groups_and_ports::rows::READ),
    (Asked::Version, channel::rows::HELLOS),
];

#[test]
fn answers(rt: HostRuntime) -> Result<(), Fail> {
    for (asked, rows) in ANSWERED {
        are_answered(&rt, rt.alloc(), *asked, rows)?;
    }
    Ok(())
}

/// What is read, and written again.
#[derive(Clone, Copy)]
enum Kind {
    Actions,
    Instructions,
    Message,
}

const REWRITTEN: &[(Kind, &str)] = &[
    (Kind::Actions, actions::rows::WRITTEN_ACTIONS),
    (Kind::Instructions, actions::rows::WRITTEN_INSTRUCTIONS),
    (Kind::Message, requests::rows::EACH_KIND),
];

fn is_rewritten(
    rt: &impl Abort,
    alloc: Global,
    kind: Kind,
    (bytes, wanted): (&str, &str),
) -> Result<(), Fail> {
    match kind {
        Kind::Actions => is_written(rt, alloc, &actions_again(alloc, bytes)?, wanted),
        Kind::Instructions => is_written(rt, alloc, &instructions_again(alloc, bytes)?, wanted),
        Kind::Message => is_written(rt, alloc, message_again(alloc, bytes)?.as_slice(), wanted),
    }
}

/// Asserts of each row what is written of what is read from its bytes.
fn are_rewritten(rt: &impl Abort, alloc: Global, kind: Kind, text: &str) -> Result<(), Fail> {
    for line in text.lines() {
        if let Some(row) = sides(line)? {
            is_rewritten(rt, alloc, kind, row)?;
        }
    }
    Ok(())
}

#[test]
fn written_again(rt: HostRuntime) -> Result<(), Fail> {
    for (kind, rows) in REWRITTEN {
        are_rewritten(&rt, rt.alloc(), *kind, rows)?;
    }
    Ok(())
}
