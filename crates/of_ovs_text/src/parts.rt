//! Numbers behind their names.
ghost use Rattle.std.specs.Prelude.{◌≡◌, ◌++◌, OnOk, decimal};
ghost use Rattle.of_ovs_text.specs.Parts.{number_part, unless_default};

use of_values::push_decimal;
use std::alloc::AllocError;

/// Appends a name and a number in decimal.
pub fn push_named(out: &mut Vec<u8>, name: &[u8], number: u128) -> Result<(), AllocError>
    ensures { OnOk result (out.new.items ≡ out.old.items ++ (name.now ++ decimal number)) }
{
    out.extend_from_slice(name)?;
    push_decimal(out, number)
}

/// Appends the same, and a comma.
pub fn push_part(out: &mut Vec<u8>, name: &[u8], number: u128) -> Result<(), AllocError>
    ensures { OnOk result (out.new.items ≡ out.old.items ++ number_part name.now number) }
{
    push_named(out, name, number)?;
    out.extend_from_slice(b",")
}

/// Appends the same, unless it is the number that is meant if none is written.
pub fn push_unless(
    out: &mut Vec<u8>,
    name: &[u8],
    default: u32,
    number: u32,
) -> Result<(), AllocError>
    ensures { OnOk result (out.new.items ≡ out.old.items ++ unless_default name.now default number) }
{
    if number == default {
        Ok(())
    } else {
        push_part(out, name, u128::from(number))
    }
}
