//! Remarks as JSON.
ghost use Rattle.std.specs.Prelude.{◌≡◌, ◌++◌, OnOk, decimal};
ghost use Rattle.of_json.specs.Parts.{key, number_member};
ghost use Rattle.of_report.specs.Json.{remark_member, remark_members, remark_object};
ghost use Rattle.of_values.specs.Origins.{view_origins};

use crate::json_entries::push_entry_members;
use of_check::Remark;
use of_json::{push_key, push_number_member, push_text_member};
use of_text::Config;
use of_values::{Origin, push_decimal};
use std::alloc::AllocError;

// Appends a number with its name, and what is remarked of it.
fn push_named(out: &mut Vec<u8>, name: &[u8], number: u128, remark: &[u8]) -> Result<(), AllocError>
    ensures { OnOk result (out.new.items ≡ out.old.items ++ (key name.now ++ decimal number ++ remark_member remark.now)) }
{
    push_key(out, name)?;
    push_decimal(out, number)?;
    push_text_member(out, b"remark", remark)
}

// Appends what is remarked of an entry, whose members are there already, and a number.
fn push_further(
    out: &mut Vec<u8>,
    remark: &[u8],
    name: &[u8],
    number: u128,
) -> Result<(), AllocError>
    ensures { OnOk result (out.new.items ≡ out.old.items ++ (remark_member remark.now ++ number_member name.now number)) }
{
    push_text_member(out, b"remark", remark)?;
    push_number_member(out, name, number)
}

#[tactic(auto, unfolding(crate::specs::Json::remark_members, crate::specs::Json::entry_remark))]
fn push_remark(
    out: &mut Vec<u8>,
    config: &Config,
    origins: &[Vec<Origin>],
    remark: &Remark,
) -> Result<(), AllocError>
    ensures { OnOk result (out.new.items ≡ out.old.items ++ remark_members (view_origins origins.now) config.now.tables remark.now) }
{
    match *remark {
        Remark::Unreachable { table } => {
            push_named(out, b"table", u128::from(table), b"unreachable")
        }
        Remark::NoTableMiss { table } => {
            push_named(out, b"table", u128::from(table), b"no table-miss entry")
        }
        Remark::EmptyGoto { table, place, to } => {
            push_entry_members(out, config, origins, table, place)?;
            push_further(
                out,
                b"goto to a table without entries",
                b"to",
                u128::from(to),
            )
        }
        Remark::IngressOutput { table, place, port } => {
            push_entry_members(out, config, origins, table, place)?;
            push_further(
                out,
                b"output to the ingress port",
                b"port",
                u128::from(port),
            )
        }
        Remark::UnseenActions {
            table,
            place,
            count,
        } => {
            push_entry_members(out, config, origins, table, place)?;
            push_further(out, b"last actions unseen", b"count", count as u128)
        }
        Remark::UnusedGroup { id } => push_named(out, b"group", u128::from(id), b"unused"),
        Remark::NoBuckets { id } => push_named(out, b"group", u128::from(id), b"no buckets"),
    }
}

/// Appends a remark, as an object.
#[tactic(auto, unfolding(crate::specs::Json::remark_object))]
pub fn push_remark_object(
    out: &mut Vec<u8>,
    config: &Config,
    origins: &[Vec<Origin>],
    remark: &Remark,
) -> Result<(), AllocError>
    ensures { OnOk result (out.new.items ≡ out.old.items ++ remark_object (view_origins origins.now) config.now.tables remark.now) }
{
    out.push(b'{')?;
    push_remark(out, config, origins, remark)?;
    out.push(b'}')?;
    Ok(())
}
