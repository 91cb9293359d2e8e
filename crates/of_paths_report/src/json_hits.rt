//! Which entries the paths of a class hit, as JSON.
ghost use Rattle.std.specs.Prelude.{◌≡◌, ◌++◌, OnOk};
ghost use Rattle.of_paths_report.specs.PathsJson.{hit_object, hits_array, hits_member};

use of_json::{Hit, hits_among, push_array_member, push_listed};
use of_paths::Path;
use of_values::Part::Number;
use of_values::put;
use std::alloc::{AllocError, Global};

pub const HIT: [u8; 21] = *br#"{"table":%,"entry":%}"#;

fn push_hit_object(out: &mut Vec<u8>, hit: &Hit) -> Result<(), AllocError>
    ensures { OnOk result (out.new.items ≡ out.old.items ++ hit_object hit.now) }
{
    put(
        out,
        &HIT,
        &[Number(u128::from(hit.table)), Number(hit.number as u128)],
    )
}

// Appends an array of the entries that a path hits.
#[tactic(auto, unfolding(crate::specs::PathsJson::hits_array))]
fn push_hits_array(alloc: Global, out: &mut Vec<u8>, path: &Path) -> Result<(), AllocError>
    ensures { OnOk result (out.new.items ≡ out.old.items ++ hits_array path.now) }
{
    let hits = hits_among(alloc, &path.steps)?;
    out.push(b'[')?;
    push_listed(out, &hits, push_hit_object)?;
    out.push(b']')?;
    Ok(())
}

/// Appends a further member: an array of arrays, with the entries that each path hits.
#[tactic(auto, unfolding(crate::specs::PathsJson::hits_member))]
pub fn push_hits_member(alloc: Global, out: &mut Vec<u8>, paths: &[Path]) -> Result<(), AllocError>
    ensures { OnOk result (out.new.items ≡ out.old.items ++ hits_member paths.now) }
{
    push_array_member(
        out,
        b"hits",
        paths,
        |out, path| push_hits_array(alloc, out, path),
    )
}
