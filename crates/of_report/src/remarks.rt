//! Remarks in words.
ghost use Rattle.std.specs.{Prelude.◌≡◌, Prelude.◌++◌, Prelude.OnOk, Prelude.decimal, List.flat_map, List.list_any};
ghost use Rattle.of_values.specs.{Numbers.port_in_words, Origins.view_origins};
ghost use Rattle.of_report.specs.Report.{report_group_words, is_finding as is_finding_among, reported_remark_line, reported_remark_words, says_unreachable as is_saying_unreachable, report_table_words};

use crate::entries::push_entry;
use of_check::Remark;
use of_text::Config;
use of_values::{Origin, push_decimal, push_each, push_port};
use std::alloc::AllocError;

// Whether a remark says that no packet comes to a table.
fn says_unreachable(remark: &Remark, table: u8) -> bool
    ensures { result ≡ is_saying_unreachable table remark.now }
{
    match remark {
        Remark::Unreachable { table: other } => *other == table,
        _ => false,
    }
}

fn some_unreachable(remarks: &[Remark], table: u8) -> bool
    ensures { result ≡ list_any (is_saying_unreachable table) remarks.now }
{
    remarks.iter().any(|other| says_unreachable(other, table))
}

/// Whether a remark, one of these, is a finding.
pub fn is_finding(remarks: &[Remark], remark: &Remark) -> bool
    ensures { result ≡ is_finding_among remarks.now remark.now }
{
    match remark {
        Remark::NoTableMiss { table } => *table != 0 && !some_unreachable(remarks, *table),
        _ => true,
    }
}

fn push_table(out: &mut Vec<u8>, table: u8) -> Result<(), AllocError>
    ensures { OnOk result (out.new.items ≡ out.old.items ++ report_table_words table) }
{
    out.extend_from_slice(b"table ")?;
    push_decimal(out, u128::from(table))
}

fn push_group(out: &mut Vec<u8>, id: u32) -> Result<(), AllocError>
    ensures { OnOk result (out.new.items ≡ out.old.items ++ report_group_words id) }
{
    out.extend_from_slice(b"group ")?;
    push_decimal(out, u128::from(id))
}

fn push_of_table(out: &mut Vec<u8>, table: u8, words: &[u8]) -> Result<(), AllocError>
    ensures { OnOk result (out.new.items ≡ out.old.items ++ (report_table_words table ++ words.now)) }
{
    push_table(out, table)?;
    out.extend_from_slice(words)?;
    Ok(())
}

fn push_of_group(out: &mut Vec<u8>, id: u32, words: &[u8]) -> Result<(), AllocError>
    ensures { OnOk result (out.new.items ≡ out.old.items ++ (report_group_words id ++ words.now)) }
{
    push_group(out, id)?;
    out.extend_from_slice(words)?;
    Ok(())
}

// Appends words, a number, and words.
fn push_around(
    out: &mut Vec<u8>,
    before: &[u8],
    number: u128,
    after: &[u8],
) -> Result<(), AllocError>
    ensures { OnOk result (out.new.items ≡ out.old.items ++ (before.now ++ decimal number ++ after.now)) }
{
    out.extend_from_slice(before)?;
    push_decimal(out, number)?;
    out.extend_from_slice(after)?;
    Ok(())
}

// Appends words, a port, and words.
fn push_around_port(
    out: &mut Vec<u8>,
    before: &[u8],
    number: u128,
    after: &[u8],
) -> Result<(), AllocError>
    ensures { OnOk result (out.new.items ≡ out.old.items ++ (before.now ++ port_in_words number ++ after.now)) }
{
    out.extend_from_slice(before)?;
    push_port(out, number)?;
    out.extend_from_slice(after)?;
    Ok(())
}

// Appends a remark.
#[tactic(auto, unfolding(crate::specs::Report::reported_remark_words))]
fn push_remark(
    out: &mut Vec<u8>,
    config: &Config,
    origins: &[Vec<Origin>],
    remark: &Remark,
) -> Result<(), AllocError>
    ensures { OnOk result (out.new.items ≡ out.old.items ++ reported_remark_words (view_origins origins.now) config.now.tables remark.now) }
{
    match *remark {
        Remark::Unreachable { table } => {
            push_of_table(
                out,
                table,
                b" is unreachable: no goto leads to it from table 0",
            )
        }
        Remark::NoTableMiss { table } => push_of_table(
            out,
            table,
            b" has no table-miss entry: packets that match none of its entries are dropped",
        ),
        Remark::EmptyGoto { table, place, to } => {
            push_entry(out, config, origins, table, place)?;
            push_around(
                out,
                b" goes to table ",
                u128::from(to),
                b", which has no entries: its packets are dropped",
            )
        }
        Remark::IngressOutput { table, place, port } => {
            push_entry(out, config, origins, table, place)?;
            push_around_port(
                out,
                b" sends to port ",
                u128::from(port),
                b", the ingress port that its match requires: nothing leaves",
            )
        }
        Remark::UnseenActions {
            table,
            place,
            count,
        } => {
            push_entry(out, config, origins, table, place)?;
            push_around(
                out,
                b" has at the end of its apply ",
                count as u128,
                b" actions that nothing sees",
            )
        }
        Remark::UnusedGroup { id } => {
            push_of_group(out, id, b" is unused: no entry and no group names it")
        }
        Remark::NoBuckets { id } => {
            push_of_group(out, id, b" has no buckets: packets end there")
        }
    }
}

// Appends the line of a remark, if it is a finding or all are asked for.
#[tactic(auto, unfolding(crate::specs::Report::reported_remark_line))]
fn push_line(
    out: &mut Vec<u8>,
    config: &Config,
    origins: &[Vec<Origin>],
    all: bool,
    remarks: &[Remark],
    remark: &Remark,
) -> Result<(), AllocError>
    ensures { OnOk result (out.new.items ≡ out.old.items ++ reported_remark_line all remarks.now (view_origins origins.now) config.now.tables remark.now) }
{
    if all || is_finding(remarks, remark) {
        push_remark(out, config, origins, remark)?;
        out.push(b'\n')?;
    }
    Ok(())
}

/// Appends the remarks that are findings, or all.
pub fn push_remarks(
    out: &mut Vec<u8>,
    config: &Config,
    origins: &[Vec<Origin>],
    all: bool,
    remarks: &[Remark],
) -> Result<(), AllocError>
    ensures { OnOk result (out.new.items ≡
        out.old.items ++ flat_map (reported_remark_line all remarks.now (view_origins origins.now) config.now.tables) remarks.now) }
{
    push_each(out, remarks, |out, remark| {
        push_line(out, config, origins, all, remarks, remark)
    })
}
