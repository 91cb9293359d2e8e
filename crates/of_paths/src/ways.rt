//! Whether steps differ only in which entries are hit.
ghost use Rattle.std.specs.Prelude.{◌≡◌, ◌↔◌, IfNone, IfSome, IsTrue, Some, map, slice_get};
ghost use Rattle.std.specs.List.{Contains};
ghost use Rattle.of_paths.specs.Ways.{class_way, line_but_entry, way_of};

use crate::path::PathClass;
use of_machine::Step;

// Whether the steps are the same, or both hit an entry of the same table.
fn is_same_line(a: &Step, b: &Step) -> bool
    ensures { IsTrue result ↔ (line_but_entry a.now ≡ line_but_entry b.now) }
{
    match (a, b) {
        (Step::Entry { table, .. }, Step::Entry { table: other, .. }) => table == other,
        _ => a == b,
    }
}

/// Whether the steps of two paths differ at most in which entries of a table are hit.
pub fn is_same_way(a: &[Step], b: &[Step]) -> bool
    ensures { IsTrue result ↔ (way_of a.now ≡ way_of b.now) }
{
    let mut others = b.iter();
    for step in a {
        match others.next() {
            Some(other) if is_same_line(step, other) => {}
            _ => return false,
        }
    }
    others.next().is_none()
}

// Whether the paths of a class have this way.
fn has_way(class: &PathClass, steps: &[Step]) -> bool
    ensures { IsTrue result ↔ (class_way class.now ≡ way_of steps.now) }
{
    match class.paths.as_slice() {
        [] => steps.is_empty(),
        [path, ..] => is_same_way(&path.steps, steps),
    }
}

/// The place of the first class whose paths have this way.
pub fn place_of_way(classes: &[PathClass], steps: &[Step]) -> Option<usize>
    ensures some { IfSome result (λ i. slice_get (map class_way classes.now) i ≡ Some (way_of steps.now)) }
    ensures none { IfNone result (Contains (map class_way classes.now) (way_of steps.now) → ⊥) }
{
    for index in 0..classes.len() {
        if has_way(&classes[index], steps) {
            return Some(index);
        }
    }
    None
}
