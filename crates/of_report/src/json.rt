//! The report as JSON.
ghost use Rattle.std.specs.Prelude.{◌≡◌, ◌++◌, ◌∷◌, option_map, IfOk, OnOk};
ghost use Rattle.of_report.specs.Json.{finding_object, flows_member, report_head_members, never_members, packet_members, remarks_member, report_json, shadows_member, summary_member, summary_members, verdict_members, words_member};
ghost use Rattle.of_report.specs.Report.{packet_as_words};
ghost use Rattle.of_values.specs.Origins.{view_origins};

use crate::counting::{count_open, count_shadowed, count_wins, is_found};
use crate::json_entries::{push_entry_members, push_entry_object};
use crate::json_remarks::push_remark_object;
use crate::packets::packet_words;
use of_check::{Finding, Remark, Verdict};
use of_json::{
    push_array_member, push_bytes_member, push_document_head, push_hex_member, push_key,
    push_number_member, push_text_member, push_truth_member,
};
use of_text::Config;
use of_values::{Origin, push_decimal};
use std::alloc::{AllocError, Global};

fn push_words_member(out: &mut Vec<u8>, words: Option<Vec<u8>>) -> Result<(), AllocError>
    ensures { OnOk result (out.new.items ≡ out.old.items ++ words_member (option_map (λ w. w.items) words)) }
{
    match words {
        None => Ok(()),
        Some(words) => push_text_member(out, b"words", &words),
    }
}

// Appends the packet as words, if there are such.
fn push_words(
    alloc: Global,
    out: &mut Vec<u8>,
    frame: &[u8],
    in_port: u32,
    metadata: u64,
) -> Result<(), AllocError>
    ensures { OnOk result (out.new.items ≡ out.old.items ++ words_member (packet_as_words frame.now in_port metadata)) }
{
    let words = packet_words(alloc, frame, in_port, metadata)?;
    push_words_member(out, words)
}

// Appends the packet with which an entry wins.
#[tactic(auto, unfolding(crate::specs::Json::packet_members))]
fn push_packet(
    alloc: Global,
    out: &mut Vec<u8>,
    frame: &[u8],
    in_port: u32,
    metadata: u64,
) -> Result<(), AllocError>
    ensures { OnOk result (out.new.items ≡ out.old.items ++ packet_members frame.now in_port metadata) }
{
    push_text_member(out, b"verdict", b"wins")?;
    push_number_member(out, b"in_port", u128::from(in_port))?;
    push_hex_member(out, b"metadata", u128::from(metadata))?;
    push_bytes_member(alloc, out, b"frame", frame)?;
    push_words(alloc, out, frame, in_port, metadata)
}

// Appends the entries that shadow another one.
#[tactic(auto, unfolding(crate::specs::Json::shadows_member))]
fn push_shadows(
    out: &mut Vec<u8>,
    config: &Config,
    origins: &[Vec<Origin>],
    table: u8,
    by: &[usize],
) -> Result<(), AllocError>
    ensures { OnOk result (out.new.items ≡ out.old.items ++ shadows_member (view_origins origins.now) config.now.tables table by.now) }
{
    push_array_member(out, b"shadowed_by", by, |out, place| {
        push_entry_object(out, config, origins, table, *place)
    })
}

#[tactic(auto, unfolding(crate::specs::Json::never_members))]
fn push_never(
    out: &mut Vec<u8>,
    config: &Config,
    origins: &[Vec<Origin>],
    table: u8,
    by: &[usize],
    tie: bool,
) -> Result<(), AllocError>
    ensures { OnOk result (out.new.items ≡ out.old.items ++ never_members (view_origins origins.now) config.now.tables table by.now tie) }
{
    push_text_member(out, b"verdict", b"never wins")?;
    push_truth_member(out, b"tie", tie)?;
    push_shadows(out, config, origins, table, by)
}

#[tactic(auto, unfolding(crate::specs::Json::verdict_members))]
fn push_verdict(
    alloc: Global,
    out: &mut Vec<u8>,
    config: &Config,
    origins: &[Vec<Origin>],
    table: u8,
    verdict: &Verdict,
) -> Result<(), AllocError>
    ensures { OnOk result (out.new.items ≡ out.old.items ++ verdict_members (view_origins origins.now) config.now.tables table verdict.now) }
{
    match verdict {
        Verdict::Wins {
            frame,
            in_port,
            metadata,
        } => push_packet(alloc, out, frame, *in_port, *metadata),
        Verdict::Never { by, tie } => push_never(out, config, origins, table, by, *tie),
        Verdict::Unreceived => push_text_member(
            out,
            b"verdict",
            b"never wins at a port that a switch has",
        ),
        Verdict::Open => push_text_member(out, b"verdict", b"undecided"),
    }
}

#[tactic(auto, unfolding(crate::specs::Json::finding_object))]
fn push_finding(
    alloc: Global,
    out: &mut Vec<u8>,
    config: &Config,
    origins: &[Vec<Origin>],
    finding: &Finding,
) -> Result<(), AllocError>
    ensures { OnOk result (out.new.items ≡ out.old.items ++ finding_object (view_origins origins.now) config.now.tables finding.now) }
{
    out.push(b'{')?;
    push_entry_members(out, config, origins, finding.table, finding.place)?;
    push_verdict(alloc, out, config, origins, finding.table, &finding.verdict)?;
    out.push(b'}')?;
    Ok(())
}

// Appends how many entries there are of each kind.
#[tactic(auto, unfolding(crate::specs::Json::summary_members))]
fn push_summary(out: &mut Vec<u8>, findings: &[Finding]) -> Result<(), AllocError>
    ensures { OnOk result (out.new.items ≡ out.old.items ++ summary_members findings.now) }
{
    push_key(out, b"flows")?;
    push_decimal(out, findings.len() as u128)?;
    push_number_member(out, b"win", count_wins(findings) as u128)?;
    push_number_member(out, b"never_win", count_shadowed(findings) as u128)?;
    push_number_member(out, b"undecided", count_open(findings) as u128)
}

#[tactic(auto, unfolding(crate::specs::Json::summary_member))]
fn push_summary_member(out: &mut Vec<u8>, findings: &[Finding]) -> Result<(), AllocError>
    ensures { OnOk result (out.new.items ≡ out.old.items ++ summary_member findings.now) }
{
    out.push(b',')?;
    push_key(out, b"summary")?;
    out.push(b'{')?;
    push_summary(out, findings)?;
    out.push(b'}')?;
    Ok(())
}

// Appends the members of a report that do not name entries.
#[tactic(auto, unfolding(crate::specs::Json::report_head_members))]
fn push_head(out: &mut Vec<u8>, findings: &[Finding], remarks: &[Remark]) -> Result<(), AllocError>
    ensures { OnOk result (out.new.items ≡ out.old.items ++ report_head_members findings.now remarks.now) }
{
    push_document_head(out, b"check")?;
    push_truth_member(out, b"found", is_found(findings, remarks))?;
    push_summary_member(out, findings)
}

#[tactic(auto, unfolding(crate::specs::Json::flows_member))]
fn push_flows_member(
    alloc: Global,
    out: &mut Vec<u8>,
    config: &Config,
    origins: &[Vec<Origin>],
    findings: &[Finding],
) -> Result<(), AllocError>
    ensures { OnOk result (out.new.items ≡ out.old.items ++ flows_member (view_origins origins.now) config.now.tables findings.now) }
{
    push_array_member(out, b"flows", findings, |out, finding| {
        push_finding(alloc, out, config, origins, finding)
    })
}

#[tactic(auto, unfolding(crate::specs::Json::remarks_member))]
fn push_remarks_member(
    out: &mut Vec<u8>,
    config: &Config,
    origins: &[Vec<Origin>],
    remarks: &[Remark],
) -> Result<(), AllocError>
    ensures { OnOk result (out.new.items ≡ out.old.items ++ remarks_member (view_origins origins.now) config.now.tables remarks.now) }
{
    push_array_member(out, b"remarks", remarks, |out, remark| {
        push_remark_object(out, config, origins, remark)
    })
}

/// The report on findings and remarks as JSON, for a configuration whose entries come from these lines, with further members.
#[tactic(auto, unfolding(crate::specs::Json::report_json))]
pub fn json_of(
    alloc: Global,
    config: &Config,
    origins: &[Vec<Origin>],
    findings: &[Finding],
    remarks: &[Remark],
    further: &[u8],
) -> Result<Vec<u8>, AllocError>
    ensures { IfOk result (λ text. text.items ≡ report_json (view_origins origins.now) config.now.tables findings.now remarks.now further.now) }
{
    let mut out = Vec::new(alloc);
    out.push(b'{')?;
    push_head(&mut out, findings, remarks)?;
    push_flows_member(alloc, &mut out, config, origins, findings)?;
    push_remarks_member(&mut out, config, origins, remarks)?;
    out.extend_from_slice(further)?;
    out.extend_from_slice(b"}\n")?;
    Ok(out)
}
