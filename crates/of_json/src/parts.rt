//! Strings, numbers and members.
ghost use Rattle.std.specs.Prelude.{◌≡◌, ◌++◌, OnOk};
ghost use Rattle.hex.specs.Hex.{encode_lower};
ghost use Rattle.of_values.specs.Numbers.{hexadecimal};
ghost use Rattle.of_json.specs.Parts.{document_head, key, number_member, quoted, text_member, truth as truth_of, truth_member};

use of_build::push_hex;
use of_values::{push_decimal, push_hexadecimal};
use std::alloc::{AllocError, Global};

/// Appends a string.
pub fn push_quoted(out: &mut Vec<u8>, text: &[u8]) -> Result<(), AllocError>
    ensures { OnOk result (out.new.items ≡ out.old.items ++ quoted text.now) }
{
    out.push(b'"')?;
    out.extend_from_slice(text)?;
    out.push(b'"')?;
    Ok(())
}

/// Appends the name of a member.
pub fn push_key(out: &mut Vec<u8>, name: &[u8]) -> Result<(), AllocError>
    ensures { OnOk result (out.new.items ≡ out.old.items ++ key name.now) }
{
    push_quoted(out, name)?;
    out.push(b':')?;
    Ok(())
}

/// Appends the first members of a document: the version of its form, and the command that printed it.
#[tactic(auto, unfolding(crate::specs::Parts::document_head))]
pub fn push_document_head(out: &mut Vec<u8>, command: &[u8]) -> Result<(), AllocError>
    ensures { OnOk result (out.new.items ≡ out.old.items ++ document_head command.now) }
{
    push_key(out, b"version")?;
    out.extend_from_slice(b"1,")?;
    push_key(out, b"command")?;
    push_quoted(out, command)
}

/// Appends true or false.
pub fn push_truth(out: &mut Vec<u8>, truth: bool) -> Result<(), AllocError>
    ensures { OnOk result (out.new.items ≡ out.old.items ++ truth_of truth) }
{
    if truth {
        out.extend_from_slice(b"true")
    } else {
        out.extend_from_slice(b"false")
    }
}

/// Appends a further member: a number.
#[tactic(auto, unfolding(crate::specs::Parts::number_member))]
pub fn push_number_member(out: &mut Vec<u8>, name: &[u8], number: u128) -> Result<(), AllocError>
    ensures { OnOk result (out.new.items ≡ out.old.items ++ number_member name.now number) }
{
    out.push(b',')?;
    push_key(out, name)?;
    push_decimal(out, number)
}

/// Appends a further member: a string.
#[tactic(auto, unfolding(crate::specs::Parts::text_member))]
pub fn push_text_member(out: &mut Vec<u8>, name: &[u8], text: &[u8]) -> Result<(), AllocError>
    ensures { OnOk result (out.new.items ≡ out.old.items ++ text_member name.now text.now) }
{
    out.push(b',')?;
    push_key(out, name)?;
    push_quoted(out, text)
}

/// Appends a further member: true or false.
#[tactic(auto, unfolding(crate::specs::Parts::truth_member))]
pub fn push_truth_member(out: &mut Vec<u8>, name: &[u8], truth: bool) -> Result<(), AllocError>
    ensures { OnOk result (out.new.items ≡ out.old.items ++ truth_member name.now truth) }
{
    out.push(b',')?;
    push_key(out, name)?;
    push_truth(out, truth)
}

/// Appends a further member: a number in a string, in hexadecimal.
#[tactic(auto, unfolding(crate::specs::Parts::text_member))]
pub fn push_hex_member(out: &mut Vec<u8>, name: &[u8], number: u128) -> Result<(), AllocError>
    ensures { OnOk result (out.new.items ≡ out.old.items ++ text_member name.now (hexadecimal 1 number)) }
{
    out.push(b',')?;
    push_key(out, name)?;
    out.push(b'"')?;
    push_hexadecimal(out, 1, number)?;
    out.push(b'"')?;
    Ok(())
}

/// Appends a further member: the digits of bytes, in a string.
#[tactic(auto, unfolding(crate::specs::Parts::text_member))]
pub fn push_bytes_member(
    alloc: Global,
    out: &mut Vec<u8>,
    name: &[u8],
    bytes: &[u8],
) -> Result<(), AllocError>
    ensures { OnOk result (out.new.items ≡ out.old.items ++ text_member name.now (encode_lower bytes.now)) }
{
    out.push(b',')?;
    push_key(out, name)?;
    out.push(b'"')?;
    push_hex(alloc, out, bytes)?;
    out.push(b'"')?;
    Ok(())
}
