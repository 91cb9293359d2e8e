//! Frames of which it is not known which steps they take, and the summary, in words.
ghost use Rattle.std.specs.Prelude.{◌≡◌, ◌++◌, OnOk};
ghost use Rattle.of_paths_report.specs.PathsWords.{count_frames, path_summary, undecided_frames_words, why_line, why_said};

use crate::destination::count_leading;
use of_json::{push_undecided_count, push_undecided_sets};
use of_paths::{Destination, Paths, UndecidedFrames, WhyUndecided};
use of_values::Part::Number;
use of_values::put;
use std::alloc::AllocError;

pub const UNKNOWN_TAG: [u8; 46] = *b"a lookup asks what is not known of a VLAN tag\n";

pub const STEPS: [u8; 50] = *b"the runs took as many steps as they may (--steps)\n";

pub const SEARCH: [u8; 93] =
    *b"the search for a frame took as many steps as it may, or found none with a port of the switch\n";

pub const OF: [u8; 5] = *b"% of ";

pub const PATH: [u8; 6] = *b"% path";

pub const PATHS: [u8; 7] = *b"% paths";

// How many sets of frames are undecided for a reason.
fn count_sets(undecided: &[UndecidedFrames], why: WhyUndecided) -> usize
    ensures { result ≡ count_frames why undecided.now }
{
    undecided.iter().filter(|set| why == set.why).count()
}

fn why_in_words(why: WhyUndecided) -> &'static [u8]
    ensures { result.now ≡ why_said why }
{
    match why {
        WhyUndecided::UnknownTag => &UNKNOWN_TAG,
        WhyUndecided::Steps => &STEPS,
        WhyUndecided::Search => &SEARCH,
    }
}

// Appends how many sets of frames are undecided for a reason, if there are such.
#[tactic(auto, unfolding(crate::specs::PathsWords::why_line))]
fn push_why_line(
    out: &mut Vec<u8>,
    undecided: &[UndecidedFrames],
    why: WhyUndecided,
) -> Result<(), AllocError>
    ensures { OnOk result (out.new.items ≡ out.old.items ++ why_line undecided.now why) }
{
    let count = count_sets(undecided, why);
    if count == 0 {
        return Ok(());
    }
    push_undecided_sets(out, count)?;
    out.extend_from_slice(why_in_words(why))
}

/// Appends a line for each reason for which sets of frames are undecided.
pub fn push_undecided_frames(
    out: &mut Vec<u8>,
    undecided: &[UndecidedFrames],
) -> Result<(), AllocError>
    ensures { OnOk result (out.new.items ≡ out.old.items ++ undecided_frames_words undecided.now) }
{
    push_why_line(out, undecided, WhyUndecided::UnknownTag)?;
    push_why_line(out, undecided, WhyUndecided::Steps)?;
    push_why_line(out, undecided, WhyUndecided::Search)
}

/// Appends how many classes lead to the place that is asked for, and how many classes and undecided sets of frames there are.
#[tactic(auto, unfolding(crate::specs::PathsWords::path_summary))]
pub fn push_path_summary(
    out: &mut Vec<u8>,
    to: Option<Destination>,
    found: &Paths,
) -> Result<(), AllocError>
    ensures { OnOk result (out.new.items ≡ out.old.items ++ path_summary to found.now) }
{
    if let Some(to) = to {
        put(
            out,
            &OF,
            &[Number(count_leading(&found.classes, to) as u128)],
        )?;
    }
    let count = found.classes.len();
    let line: &[u8] = if count == 1 { &PATH } else { &PATHS };
    put(out, line, &[Number(count as u128)])?;
    push_undecided_count(out, found.undecided.len())?;
    out.push(b'\n')?;
    Ok(())
}
