//! Differences of one kind are brought together.
ghost use Rattle.std.specs.Prelude.{◌≡◌, IfSome, OnOk, Some, map, slice_get, true};
ghost use Rattle.of_diff.specs.Pairs.{PutsDifference, place_of_difference};

use crate::difference::Difference;
use of_alike::is_same_emission;
use of_symbolic_run::Emission;
use std::alloc::AllocError;

// Whether two runs emitted the same in the same order, by the actions on the frame that came in. It ends at the first emission that is another one.
fn are_same_emissions(a: &[Emission], b: &[Emission]) -> bool {
    let mut others = b.iter();
    for emission in a {
        match others.next() {
            Some(other) if is_same_emission(emission, other) => {}
            _ => return false,
        }
    }
    others.next().is_none()
}

// Whether something else leaves at the same place, and the runs of both switches emitted the same.
fn are_of_one_kind(a: &Difference, b: &Difference) -> bool
    ensures { result ≡ true → a.now.at ≡ b.now.at }
{
    a.at == b.at
        && are_same_emissions(&a.emitted.first, &b.emitted.first)
        && are_same_emissions(&a.emitted.second, &b.emitted.second)
}

// Which of those found is the first of the same kind.
fn one_of_kind(found: &[Difference], difference: &Difference) -> Option<usize>
    ensures { IfSome result (λ i. slice_get (map place_of_difference found.now) i ≡ Some (place_of_difference difference.now)) }
{
    for index in 0..found.len() {
        if are_of_one_kind(&found[index], difference) {
            return Some(index);
        }
    }
    None
}

/// Puts a difference to those found: its sets to those of one of the same kind, whose frame stays, or itself behind all others.
///
/// It takes at most one comparison for each of the others.
pub fn put_difference(difference: Difference, found: &mut Vec<Difference>) -> Result<(), AllocError>
    ensures { OnOk result (PutsDifference difference found.old.items found.new.items) }
{
    match one_of_kind(found, &difference) {
        None => {
            found.push(difference)?;
            Ok(())
        }
        Some(index) => {
            let mut sets = difference.sets;
            found[index].sets.append(&mut sets)?;
            Ok(())
        }
    }
}
