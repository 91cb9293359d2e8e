//! Lines of texts as constants, with marks in the places of their parts.
ghost use Rattle.std.specs.Prelude.{◌≡◌, ◌++◌, OnOk, map};
ghost use Rattle.of_values.specs.Filled.{filled, part_text};

use crate::digits::{push_decimal, push_hexadecimal};
use crate::ports::push_port;
use std::alloc::AllocError;

/// What stands in the place of a mark.
#[derive(Clone, Copy, PartialEq, Eq)]
pub enum Part<'a> {
    /// A number in decimal.
    Number(u128),
    /// A number in hexadecimal after 0x, without zeros before it.
    Hex(u128),
    /// The number of a port, or the name of a reserved one.
    Port(u32),
    Text(&'a [u8]),
}

fn put_part(out: &mut Vec<u8>, part: &Part<'_>) -> Result<(), AllocError>
    ensures { OnOk result (out.new.items ≡ out.old.items ++ part_text part.now) }
{
    match part {
        Part::Number(number) => push_decimal(out, *number),
        Part::Hex(number) => push_hexadecimal(out, 1, *number),
        Part::Port(port) => push_port(out, u128::from(*port)),
        Part::Text(text) => out.extend_from_slice(text),
    }
}

/// Appends a line, with these parts in the places of its marks (`%`).
#[tactic(auto, unfolding(crate::specs::Filled::filled))]
pub fn put(out: &mut Vec<u8>, line: &[u8], parts: &[Part<'_>]) -> Result<(), AllocError>
    ensures { OnOk result (out.new.items ≡ out.old.items ++ filled line.now (map part_text parts.now)) }
{
    match (line, parts) {
        ([], _) => Ok(()),
        ([b'%', rest @ ..], [part, others @ ..]) => {
            put_part(out, part)?;
            put(out, rest, others)
        }
        ([byte, rest @ ..], _) => {
            out.push(*byte)?;
            put(out, rest, parts)
        }
    }
}
