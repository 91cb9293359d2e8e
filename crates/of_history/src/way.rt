//! The way of a frame: the steps of its run and what it emits.
ghost use Rattle.std.specs.Prelude.{◌≡◌, [], IfOk, Some, true, map};
ghost use Rattle.std.specs.Option.{option_copied, option_map};
ghost use Rattle.of_history.specs.Ways.{entry_said, found_step, way_words, winner_at as winner_at_step};

use of_classifier::Lookup;
use of_machine::{Item, Items, Step, ToController};
use of_oxm::Match;
use of_switch::Switch;
use of_table::Flow;
use of_text::is;
use of_wire::limits::TABLES;
use std::alloc::{AllocError, Global};

/// The priority and the match of an entry.
#[derive(Drop)]
pub struct Winner {
    pub priority: u16,
    pub fields: Match,
}

/// A step of a run, with the entry that it found, if it is a lookup that found one.
#[derive(Drop)]
pub struct FoundStep {
    pub step: Step,
    pub winner: Option<Winner>,
}

/// The steps of a run and what it emits, and their text.
#[derive(Drop)]
pub struct WaySight {
    pub text: Vec<u8>,
    pub steps: Vec<FoundStep>,
    pub items: Items,
    ghost said: { text.items ≡ way_words steps.items items.items },
}

/// The flow of the entry that a step found.
pub fn winner_at<L: Lookup>(switch: &Switch<L>, step: Step) -> Option<&Flow>
    ensures { option_map entry_said (option_copied result) ≡ winner_at_step switch.now.core.forwarding step }
{
    match step {
        Step::Entry { table, number } if table < TABLES => {
            let entry = switch.datapath().entry(table, number)?;
            Some(&entry.flow)
        }
        _ => None,
    }
}

fn copied(flow: Option<&Flow>) -> Result<Option<Winner>, AllocError>
    ensures { IfOk result (λ winner. winner ≡ option_map entry_said (option_copied flow.entry)) }
{
    let Some(flow) = flow else {
        return Ok(None);
    };
    Ok(Some(Winner {
        priority: flow.priority,
        fields: flow.fields.copy()?,
    }))
}

/// Steps with the entries that they found.
pub fn found_steps<L: Lookup>(
    alloc: Global,
    switch: &Switch<L>,
    steps: &[Step],
) -> Result<Vec<FoundStep>, AllocError>
    ensures { IfOk result (λ found. found.items ≡ map (found_step switch.now.core.forwarding) steps.now) }
{
    let mut found = Vec::new(alloc);
    for step in steps {
        let winner = copied(winner_at(switch, *step))?;
        found.push(FoundStep {
            step: *step,
            winner,
        })?;
    }
    Ok(found)
}

fn is_winner(winner: &Option<Winner>, flow: Option<&Flow>) -> bool
    ensures { result ≡ true → winner.now ≡ option_map entry_said (option_copied flow.entry) }
{
    match (winner, flow) {
        (None, None) => true,
        (Some(winner), Some(flow)) => {
            winner.priority == flow.priority && winner.fields.equals(&flow.fields)
        }
        _ => false,
    }
}

fn is_found<L: Lookup>(found: &FoundStep, switch: &Switch<L>, step: Step) -> bool
    ensures { result ≡ true → found.now ≡ found_step switch.now.core.forwarding step }
{
    found.step == step && is_winner(&found.winner, winner_at(switch, step))
}

/// Whether steps found these entries.
pub fn are_found<L: Lookup>(found: &[FoundStep], switch: &Switch<L>, steps: &[Step]) -> bool
    ensures { result ≡ true → found.now ≡ map (found_step switch.now.core.forwarding) steps.now }
{
    let mut left = found;
    let mut rest = steps;
    while let [one, others @ ..] = left {
        let [step, behind @ ..] = rest else {
            return false;
        };
        if !is_found(one, switch, *step) {
            return false;
        }
        left = others;
        rest = behind;
    }
    rest.is_empty()
}

fn is_same_packet(a: &ToController, b: &ToController) -> bool
    ensures { result ≡ true → a.now ≡ b.now }
{
    a.reason == b.reason
        && a.table == b.table
        && a.cookie == b.cookie
        && a.ingress == b.ingress
        && a.metadata == b.metadata
        && a.max_len == b.max_len
        && is(a.frame.as_slice(), b.frame.as_slice())
}

fn is_same_item(a: &Item, b: &Item) -> bool
    ensures { result ≡ true → a.now ≡ b.now }
{
    match (a, b) {
        (
            Item::Sent { port, frame },
            Item::Sent {
                port: by,
                frame: other,
            },
        ) => port == by && is(frame.as_slice(), other.as_slice()),
        (Item::PacketIn(packet), Item::PacketIn(other)) => is_same_packet(packet, other),
        _ => false,
    }
}

/// Whether the same is emitted in the same order.
pub fn are_same_items(a: &[Item], b: &[Item]) -> bool
    ensures { result ≡ true → a.now ≡ b.now }
{
    let mut left = a;
    let mut rest = b;
    while let [one, others @ ..] = left {
        let [other, behind @ ..] = rest else {
            return false;
        };
        if !is_same_item(one, other) {
            return false;
        }
        left = others;
        rest = behind;
    }
    rest.is_empty()
}
