//! The verdicts on all entries of a switch.
ghost use Rattle.std.specs.Prelude.{◌≡◌, ◌<◌, suc, IfOk, OnOk};
ghost use Rattle.std.specs.List.{list_any};
ghost use Rattle.of_check.specs.{Findings.AreFindings, Findings.Checks, Findings.entries_below, Verdicts.is_never as is_never_in};

use crate::Remark;
use crate::finding::Finding;
use crate::outline::outlines_of;
use crate::search::check_among;
use crate::verdict::Verdict;
use of_classifier::Lookup;
use of_switch::Switch;
use of_wire::limits::TABLES;
use std::alloc::{AllocError, Global};

// Appends the verdicts on the entries of a table.
fn check_table<L: Lookup>(
    alloc: Global,
    switch: &Switch<L>,
    table: u8,
    steps: usize,
    findings: &mut Vec<Finding>,
) -> Result<(), AllocError>
    requires { table < 16 }
    ensures { OnOk result (AreFindings (entries_below table switch.now.core.forwarding.tables) switch.now.core.forwarding.tables steps findings.old.items →
        AreFindings (entries_below (suc table) switch.now.core.forwarding.tables) switch.now.core.forwarding.tables steps findings.new.items) }
{
    let outlines = outlines_of(alloc, switch, table)?;
    for place in 0..outlines.len() {
        let verdict = check_among(alloc, switch, table, place, steps, &outlines)?;
        findings.push(Finding {
            table,
            place,
            verdict,
        })?;
    }
    Ok(())
}

/// The verdicts on all entries of the tables of a switch, by table, then by age, each as `check_entry` gives it (OpenFlow 1.3.5, 5.3).
pub fn check<L: Lookup>(
    alloc: Global,
    switch: &Switch<L>,
    steps: usize,
) -> Result<Vec<Finding>, AllocError>
    ensures { IfOk result (λ findings. Checks switch.now.core.forwarding.tables steps findings.items) }
{
    let mut findings = Vec::new(alloc);
    for table in 0..TABLES {
        check_table(alloc, switch, table, steps, &mut findings)?;
    }
    Ok(findings)
}

/// Whether an entry never wins, or not at a port that a switch has.
pub fn is_never(verdict: &Verdict) -> bool
    ensures { result ≡ is_never_in verdict.now }
{
    match verdict {
        Verdict::Never { .. } | Verdict::Unreceived => true,
        Verdict::Wins { .. } | Verdict::Open => false,
    }
}
