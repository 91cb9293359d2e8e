//! The entries that steps hit.
ghost use Rattle.std.specs.{Prelude.◌≡◌, Prelude.◌++◌, Prelude.IfOk, Prelude.OnOk, List.flat_map};
ghost use Rattle.of_json.specs.Hits.{hits_at};

use of_machine::Step;
use std::alloc::{AllocError, Global};

/// An entry that a frame hits: its table, and its number there by age, from 0.
#[derive(Clone, Copy, PartialEq, Eq)]
pub struct Hit {
    pub table: u8,
    pub number: usize,
}

// Adds the entry of a lookup that found one.
fn add_hit(hits: &mut Vec<Hit>, step: Step) -> Result<(), AllocError>
    ensures { OnOk result (hits.new.items ≡ hits.old.items ++ hits_at step) }
{
    if let Step::Entry { table, number } = step {
        hits.push(Hit { table, number })?;
    }
    Ok(())
}

/// The entries that steps hit, in turn.
pub fn hits_among(alloc: Global, steps: &[Step]) -> Result<Vec<Hit>, AllocError>
    ensures { IfOk result (λ hits. hits.items ≡ flat_map hits_at steps.now) }
{
    let mut hits = Vec::new(alloc);
    for step in steps {
        add_hit(&mut hits, *step)?;
    }
    Ok(hits)
}
