//! The report on the flow tables of a switch.
ghost use Rattle.std.specs.Prelude.{◌≡◌, ◌<◌, ◌↔◌, IfOk, filter};
ghost use Rattle.of_replay.specs.FileRuns.{Writes, ended_as};
ghost use Rattle.of_values.specs.Origins.{view_origins};
ghost use Rattle.of_report.specs.Files.{IsCheckReport, check_report_text, holds_of_whole as holds_whatever_is_added, report_remarks};

use crate::counting::is_found;
use crate::json::json_of;
use crate::report::words_of;
use of_check::{Finding, Remark, check, remarks_on};
use of_classifier::Lookup;
use of_replay::{Ended, Sink, write_all};
use of_switch::Switch;
use of_text::Config;
use of_values::Origin;
use std::alloc::{AllocError, Global};

/// How a report is written.
#[derive(Clone, Copy, PartialEq, Eq)]
pub enum Form {
    /// In words: what is found, and a summary.
    Findings,
    /// In words, and after these the entries that win, each with a packet. All remarks are findings.
    All,
    /// The same, with packets as words that `trace` takes, if there are such.
    AllInWords,
    /// As a JSON document (docs/JSON.md).
    Json,
}

// The text of a report.
fn text_of(
    alloc: Global,
    form: Form,
    config: &Config,
    origins: &[Vec<Origin>],
    findings: &[Finding],
    remarks: &[Remark],
    further: &[u8],
) -> Result<Vec<u8>, AllocError>
    ensures { IfOk result (λ text. text.items ≡ check_report_text form (view_origins origins.now) config.now.tables findings.now remarks.now further.now) }
{
    let mut text = match form {
        Form::Findings => words_of(alloc, false, false, config, origins, findings, remarks)?,
        Form::All => words_of(alloc, true, false, config, origins, findings, remarks)?,
        Form::AllInWords => words_of(alloc, true, true, config, origins, findings, remarks)?,
        Form::Json => return json_of(alloc, config, origins, findings, remarks, further),
    };
    text.extend_from_slice(further)?;
    Ok(text)
}

// Whether a remark on a part of a table also holds for the whole.
fn holds_of_whole(remark: &Remark) -> bool
    ensures { result ≡ holds_whatever_is_added remark.now }
{
    matches!(
        remark,
        Remark::IngressOutput { .. } | Remark::NoBuckets { .. }
    )
}

// The remarks that also hold for the whole.
fn holding_of_whole(remarks: Vec<Remark>) -> Vec<Remark>
    ensures { result.items ≡ filter holds_whatever_is_added remarks.items }
{
    let mut holding = remarks;
    holding.retain(|remark| holds_of_whole(remark));
    holding
}

// The remarks on a configuration, or on one that is a part of a table.
fn remarks_of(alloc: Global, config: &Config, part: bool) -> Result<Vec<Remark>, AllocError>
    ensures { IfOk result (λ remarks. remarks.items ≡ report_remarks part config.now) }
{
    let remarks = remarks_on(alloc, config)?;
    if part {
        Ok(holding_of_whole(remarks))
    } else {
        Ok(remarks)
    }
}

/// Writes the report on the entries of a switch, each after at most so many steps, and on its configuration, whose entries come from these lines,
/// by table, then by age. If it is a `part` of a table, remarks that another line may refute are left out. `further` is a text that follows in words, or
/// further members of the JSON object. Ok says whether something was found.
///
/// Err is `WriteFault`, where a write failed and a prefix of the text was written; or `NoMemory`, where nothing was.
pub fn write_report<L: Lookup, W: Sink>(
    alloc: Global,
    switch: &Switch<L>,
    config: &Config,
    origins: &[Vec<Origin>],
    steps: usize,
    form: Form,
    part: bool,
    further: &[u8],
    writer: &mut W,
) -> Result<bool, Ended>
    requires { W.failures writer.old ≡ 0 }
    ensures output { Writes (IsCheckReport result steps form part further.now (view_origins origins.now) switch.now.core.forwarding.tables config.now)
        (ended_as result) (W.taken writer.old) (W.taken writer.new) }
    ensures write_fault { (ended_as result ≡ Ended.WriteFault) ↔ (0 < W.failures writer.new) }
{
    let Ok(findings) = check(alloc, switch, steps) else {
        return Err(Ended::NoMemory);
    };
    let Ok(remarks) = remarks_of(alloc, config, part) else {
        return Err(Ended::NoMemory);
    };
    let Ok(text) = text_of(alloc, form, config, origins, &findings, &remarks, further) else {
        return Err(Ended::NoMemory);
    };
    if write_all(writer, &text) {
        Ok(is_found(&findings, &remarks))
    } else {
        Err(Ended::WriteFault)
    }
}
