//! The report on two switches.
ghost use Rattle.std.specs.Prelude.{◌≡◌, ◌<◌, ◌↔◌, ℕ, List, Option, [], IfOk, Ok, None, Some};
ghost use Rattle.of_datapath.specs.Datapath.{Forwarding, world_of};
ghost use Rattle.of_replay.specs.FileRuns.{Writes, ended_as};
ghost use Rattle.of_symbolic_run.specs.Received.{IsReceivedAt};
ghost use Rattle.of_diff.specs.{Differences.IsDifference, Differences.IsTreatedAlike, SameSwitches.AreSameSwitches, SameSwitches.IsNothing};
ghost use Rattle.of_alike.specs.declared.alike.Compared.{Compared as WhatIsCompared};
ghost use Rattle.of_diff_report.specs.DiffFiles.{AreFoundBetween, IsDiffReport, IsTextFound, IsVerdict, diff_verdict, verdict_on};
ghost use Rattle.of_diff_report.specs.DiffWords.{other_limits};

use crate::hits::DiffSide;
use crate::json::{differences_as_json, other_ports_as_json};
use crate::reserved::{Limits, Reserved, limits_between};
use crate::telling::{tell_all, tell_undecided};
use crate::words::{differences_in_words, is_same_with, other_ports_in_words};
use of_alike::Compared;
use of_classifier::Lookup;
use of_diff::{Differences, differences};
use of_replay::{Ended, Sink, write_all};
use of_switch::Switch;
use std::alloc::{AllocError, Global};

/// How the report on two switches is written.
#[derive(Clone, Copy, PartialEq, Eq)]
pub enum DiffForm {
    /// In words.
    Words,
    /// As a JSON document (docs/JSON.md).
    Json,
}

/// Whether two switches treat all frames alike.
#[derive(Clone, Copy, PartialEq, Eq)]
pub enum DiffVerdict {
    /// They do.
    Same,
    /// Some frame makes something else leave them.
    Differs,
    /// No difference is found, but it is not known of all frames, or a port is missing, or the miss_send_len differ.
    Undecided,
    /// Their ports differ.
    OtherPorts,
}

// What is found about two switches.
fn find_differences<L: Lookup>(
    alloc: Global,
    first: &Switch<L>,
    second: &Switch<L>,
    compared: Compared,
    steps: usize,
) -> Result<Option<Differences>, AllocError>
    ensures { IfOk result (λ found. AreFoundBetween compared steps first.now.core.forwarding second.now.core.forwarding found) }
{
    differences(alloc, first.datapath(), second.datapath(), compared, steps)
}

// The text of what is found.
fn text_in<L: Lookup>(
    alloc: Global,
    form: DiffForm,
    first: &DiffSide<'_, L>,
    second: &DiffSide<'_, L>,
    of: &Reserved<'_>,
    found: &Option<Differences>,
) -> Result<Vec<u8>, AllocError>
    ensures { IfOk result (λ text. IsTextFound form first.now.flows second.now.flows of.now.missing.now of.now.limits
        first.now.switch.now.core.forwarding second.now.switch.now.core.forwarding found.now text.items) }
{
    let Some(found) = found else {
        return match form {
            DiffForm::Words => other_ports_in_words(alloc, of.missing),
            DiffForm::Json => other_ports_as_json(alloc, of.missing),
        };
    };
    let told = tell_all(alloc, first, second, &found.found)?;
    let open = tell_undecided(alloc, &found.undecided)?;
    match form {
        DiffForm::Words => differences_in_words(alloc, first, second, of, &told, &open, found),
        DiffForm::Json => differences_as_json(alloc, first, second, of, &told, &open, found),
    }
}

fn verdict_among(of: &Reserved<'_>, found: &Differences) -> DiffVerdict
    ensures { result ≡ verdict_on of.now.missing.now of.now.limits found.now }
{
    if is_same_with(of, found) {
        DiffVerdict::Same
    } else if found.found.is_empty() {
        DiffVerdict::Undecided
    } else {
        DiffVerdict::Differs
    }
}

// Whether two switches treat all frames alike, of which this is found.
fn verdict_of(of: &Reserved<'_>, found: &Option<Differences>) -> DiffVerdict
    ensures is { result ≡ diff_verdict of.now.missing.now of.now.limits found.now }
    ensures means { (c : WhatIsCompared) (steps : ℕ) (f g : Forwarding) → AreFoundBetween c steps f g found.now → IsVerdict c f g result }
    ensures none_missing { result ≡ DiffVerdict.Same → of.now.missing.now ≡ [] }
    ensures same_limits { result ≡ DiffVerdict.Same → of.now.limits ≡ None }
    ensures nothing { IsNothing found.now → of.now.missing.now ≡ [] → of.now.limits ≡ None → result ≡ DiffVerdict.Same }
{
    match found {
        None => DiffVerdict::OtherPorts,
        Some(found) => verdict_among(of, found),
    }
}

fn limits_of<L: Lookup>(first: &Switch<L>, second: &Switch<L>, compared: Compared) -> Option<Limits>
    ensures { result ≡ other_limits compared first.now.core.control.config.miss_send_len second.now.core.control.config.miss_send_len }
{
    limits_between(compared, first.miss_send_len(), second.miss_send_len())
}

/// Writes which frames two switches treat differently (OpenFlow 1.3.5, 5.1), and which of their flow entries those hit. The runs of all frames take at
/// most so many steps together, and each search for a frame as many. Ports that groups or flows name, and that the switches do not have, are `missing`.
/// Ok says whether the switches treat all frames alike; they are not said to if a port is missing, or if the packets to the controller are compared
/// and the miss_send_len of the switches differ.
///
/// Err is `WriteFault`, where a write failed and a prefix of the text was written; or `NoMemory`, where nothing was.
pub fn write_differences<L: Lookup, W: Sink>(
    alloc: Global,
    first: &DiffSide<'_, L>,
    second: &DiffSide<'_, L>,
    missing: &[u32],
    compared: Compared,
    steps: usize,
    form: DiffForm,
    writer: &mut W,
) -> Result<DiffVerdict, Ended>
    requires { W.failures writer.old ≡ 0 }
    ensures output { Writes (IsDiffReport result form first.now.flows second.now.flows missing.now
        (other_limits compared first.now.switch.now.core.control.config.miss_send_len second.now.switch.now.core.control.config.miss_send_len)
        compared steps first.now.switch.now.core.forwarding second.now.switch.now.core.forwarding)
        (ended_as result) (W.taken writer.old) (W.taken writer.new) }
    ensures verdict { IfOk result (IsVerdict compared first.now.switch.now.core.forwarding second.now.switch.now.core.forwarding) }
    ensures same { result ≡ Ok DiffVerdict.Same → (frame : List ℕ) (port : ℕ) → IsReceivedAt (world_of first.now.switch.now.core.forwarding) frame port
        → IsTreatedAlike compared (world_of first.now.switch.now.core.forwarding) (world_of second.now.switch.now.core.forwarding) frame port }
    ensures none_missing { result ≡ Ok DiffVerdict.Same → missing.now ≡ [] }
    ensures same_limits { result ≡ Ok DiffVerdict.Same →
        other_limits compared first.now.switch.now.core.control.config.miss_send_len second.now.switch.now.core.control.config.miss_send_len ≡ None }
    ensures same_switches { AreSameSwitches first.now.switch.now.core.forwarding second.now.switch.now.core.forwarding → missing.now ≡ [] →
        other_limits compared first.now.switch.now.core.control.config.miss_send_len second.now.switch.now.core.control.config.miss_send_len ≡ None →
        IfOk result (λ verdict. verdict ≡ DiffVerdict.Same) }
    ensures write_fault { (ended_as result ≡ Ended.WriteFault) ↔ (0 < W.failures writer.new) }
{
    let of = Reserved {
        missing,
        limits: limits_of(first.switch, second.switch, compared),
    };
    let Ok(found) = find_differences(alloc, first.switch, second.switch, compared, steps) else {
        return Err(Ended::NoMemory);
    };
    let Ok(text) = text_in(alloc, form, first, second, &of, &found) else {
        return Err(Ended::NoMemory);
    };
    if write_all(writer, &text) {
        Ok(verdict_of(&of, &found))
    } else {
        Err(Ended::WriteFault)
    }
}
