//! How many sets of frames are undecided, in words.
ghost use Rattle.std.specs.Prelude.{◌≡◌, ◌++◌, OnOk};
ghost use Rattle.of_json.specs.UndecidedWords.{set_words, undecided_count, undecided_sets};

use of_values::push_decimal;
use std::alloc::AllocError;

fn name_of_sets(count: usize) -> &'static [u8]
    ensures { result.now ≡ set_words count }
{
    if count == 1 {
        b" set of frames: "
    } else {
        b" sets of frames: "
    }
}

/// Appends how many sets of frames are undecided, before the reason.
#[tactic(auto, unfolding(crate::specs::UndecidedWords::undecided_sets))]
pub fn push_undecided_sets(out: &mut Vec<u8>, count: usize) -> Result<(), AllocError>
    ensures { OnOk result (out.new.items ≡ out.old.items ++ undecided_sets count) }
{
    out.extend_from_slice(b"undecided: ")?;
    push_decimal(out, count as u128)?;
    out.extend_from_slice(name_of_sets(count))
}

/// Appends how many sets of frames are undecided, behind another number, if there are such.
pub fn push_undecided_count(out: &mut Vec<u8>, count: usize) -> Result<(), AllocError>
    ensures { OnOk result (out.new.items ≡ out.old.items ++ undecided_count count) }
{
    if count == 0 {
        return Ok(());
    }
    out.extend_from_slice(b", ")?;
    push_decimal(out, count as u128)?;
    out.extend_from_slice(b" undecided")
}
