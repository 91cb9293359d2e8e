//! Which entries the paths of a class hit, in words.
ghost use Rattle.std.specs.Prelude.{◌≡◌, ◌++◌, OnOk, take};
ghost use Rattle.of_paths_report.specs.PathsWords.{further_paths, further_words, path_hits};

use of_json::push_listed;
use of_machine::Step;
use of_paths::Path;
use of_values::Part::Number;
use of_values::put;
use std::alloc::AllocError;

pub const HIT: [u8; 4] = *b" %:%";

pub const FURTHER_SET: [u8; 47] = *b"    and % more set of frames, by other entries:";

pub const FURTHER_SETS: [u8; 48] = *b"    and % more sets of frames, by other entries:";

pub const LEFT_OUT: [u8; 5] = *b", ..\n";

pub const END: [u8; 1] = *b"\n";

/// How many further paths of a class are named by their entries.
pub const NAMED: usize = 8;

// Appends the entries that a path hits: their tables and numbers.
fn push_path_hits(out: &mut Vec<u8>, path: &Path) -> Result<(), AllocError>
    ensures { OnOk result (out.new.items ≡ out.old.items ++ path_hits path.now) }
{
    for step in &path.steps {
        if let Step::Entry { table, number } = step {
            put(
                out,
                &HIT,
                &[Number(u128::from(*table)), Number(*number as u128)],
            )?;
        }
    }
    Ok(())
}

fn named_paths(paths: &[Path]) -> &[Path]
    ensures { result.now ≡ take NAMED paths.now }
{
    if paths.len() > NAMED {
        &paths[..NAMED]
    } else {
        paths
    }
}

// Appends a line about further paths.
#[tactic(auto, unfolding(crate::specs::PathsWords::further_paths))]
fn push_further_paths(out: &mut Vec<u8>, paths: &[Path]) -> Result<(), AllocError>
    ensures { OnOk result (out.new.items ≡ out.old.items ++ further_paths paths.now) }
{
    let count = paths.len();
    let line: &[u8] = if count == 1 {
        &FURTHER_SET
    } else {
        &FURTHER_SETS
    };
    put(out, line, &[Number(count as u128)])?;
    push_listed(out, named_paths(paths), push_path_hits)?;
    let end: &[u8] = if count > NAMED { &LEFT_OUT } else { &END };
    out.extend_from_slice(end)
}

/// Appends a line about the paths of a class behind the first one, if there are such: how many, and which entries they hit.
pub fn push_further(out: &mut Vec<u8>, paths: &[Path]) -> Result<(), AllocError>
    ensures { OnOk result (out.new.items ≡ out.old.items ++ further_words paths.now) }
{
    match paths {
        [] | [_] => Ok(()),
        [_, others @ ..] => push_further_paths(out, others),
    }
}
