//! What the tests here assert of one row, and of the rows of a text.
use crate::numbers::numbers;
use of_actions::{read_actions, read_instructions};
use of_messages::{Role, agreed_version, read_message, read_message_as};
use of_test_peers::rows::{bytes_of, number_of, sides};
use of_wire::{Code, ReadError};
use std::alloc::Global;
use std::fmt::Debug;
use std::process::Abort;
use std::test::Fail;

/// What is asked of bytes, whose answer is numbers.
#[derive(Clone, Copy)]
pub(crate) enum Asked {
    /// The type and code with which actions of an entry are refused.
    ActionsRefused,
    /// Those of instructions of an entry of table 3.
    InstructionsRefused,
    MessageRefused,
    /// Those of a message from a slave.
    SlaveRefused,
    /// What a message says.
    Message,
    /// What a message from a master says.
    OfMaster,
    /// The version to which a HELLO agrees.
    Version,
}

/// The type and code of a refusal.
pub(crate) fn code_of<T: Drop>(read: Result<T, ReadError>) -> Option<Code> {
    match read {
        Err(ReadError::Refused(code)) => Some(code),
        _ => None,
    }
}

fn code_numbers(alloc: Global, code: Option<Code>) -> Result<Vec<u64>, Fail> {
    let Code { kind, code } = code.ok_or("a refusal")?;
    Ok(Vec::from_slice(alloc, &[u64::from(kind), u64::from(code)])?)
}

fn version_numbers(alloc: Global, bytes: &[u8]) -> Result<Vec<u64>, Fail> {
    if bytes.len() < 8 {
        return Err("a HELLO".into());
    }
    Ok(Vec::from_slice(alloc, &[u64::from(agreed_version(bytes))])?)
}

fn answer(alloc: Global, asked: Asked, bytes: &[u8]) -> Result<Vec<u64>, Fail> {
    match asked {
        Asked::ActionsRefused => code_numbers(alloc, code_of(read_actions(alloc, bytes, false))),
        Asked::InstructionsRefused => {
            code_numbers(alloc, code_of(read_instructions(alloc, bytes, 3)))
        }
        Asked::MessageRefused => code_numbers(alloc, code_of(read_message(alloc, bytes))),
        Asked::SlaveRefused => {
            code_numbers(alloc, code_of(read_message_as(alloc, Role::Slave, bytes)))
        }
        Asked::Message => Ok(numbers(alloc, &read_message(alloc, bytes)?)?),
        Asked::OfMaster => {
            let message = read_message_as(alloc, Role::Master, bytes)?;
            Ok(numbers(alloc, &message)?)
        }
        Asked::Version => version_numbers(alloc, bytes),
    }
}

/// The numbers that a row names.
fn wanted_numbers(alloc: Global, side: &str) -> Result<Vec<u64>, Fail> {
    let mut wanted = Vec::new(alloc);
    for word in side.split_whitespace() {
        wanted.push(number_of(word)? as u64)?;
    }
    Ok(wanted)
}

fn is_answered(
    rt: &impl Abort,
    alloc: Global,
    asked: Asked,
    line: &str,
    (bytes, wanted): (&str, &str),
) -> Result<(), Fail> {
    let found = answer(alloc, asked, &bytes_of(alloc, bytes)?)?;
    let wanted = wanted_numbers(alloc, wanted)?;
    same(rt, line, &found.as_slice(), &wanted.as_slice());
    Ok(())
}

/// Asserts of each row that the answer about its bytes is the numbers behind them.
pub(crate) fn are_answered(
    rt: &impl Abort,
    alloc: Global,
    asked: Asked,
    text: &str,
) -> Result<(), Fail> {
    for line in text.lines() {
        if let Some(row) = sides(line)? {
            is_answered(rt, alloc, asked, line, row)?;
        }
    }
    Ok(())
}

/// Asserts that the bytes which were written are those of a text.
pub(crate) fn is_written(
    rt: &impl Abort,
    alloc: Global,
    written: &[u8],
    words: &str,
) -> Result<(), Fail> {
    let wanted = bytes_of(alloc, words)?;
    same(rt, words, &written, &wanted.as_slice());
    Ok(())
}

pub(crate) fn same<T: PartialEq + Debug>(rt: &impl Abort, what: &str, found: &T, wanted: &T) {
    assert_eq!(rt; *found, *wanted, "{what}");
}
