//! The states of both runs for some frames, and their steps.
ghost use Rattle.std.specs.Prelude.{◌≡◌, ◌<◌, ◌∷◌, ℕ, [], IfOk, length};
ghost use Rattle.of_datapath.specs.{Datapath.world_of, Numbers.forwarding_of};
ghost use Rattle.of_alike.specs.declared.alike.Compared.{Compared};
ghost use Rattle.of_diff.specs.{Pairs.AreByFirst, Pairs.AreBySecond, SoFar.NextIs};
ghost use Rattle.of_machine.specs.TheWorld.{TheWorld};

use crate::difference::{Difference, Undecided, Why};
use crate::ending::not_decided;
use of_classifier::Lookup;
use of_datapath::Datapath;
use of_symbolic_run::{Case, FrameSet, Side, SymbolicState, step_side};
use std::alloc::{AllocError, Global};

/// The states of the runs of two switches, for all frames of a set.
#[derive(Drop)]
pub struct Pair<'a> {
    pub frames: FrameSet,
    pub first: SymbolicState<'a>,
    pub second: SymbolicState<'a>,
}

/// What comes of a pair of states.
#[derive(Drop)]
pub enum Next<'a> {
    /// These pairs, each for some of the frames.
    Pairs(Vec<Pair<'a>>),
    /// All frames are treated alike.
    Alike,
    Differs(Difference),
    Undecided(Undecided),
}

/// The cases of the first run, each with the state of the second.
pub fn pairs_by_first<'a>(
    alloc: Global,
    cases: Vec<Case<'a>>,
    second: &SymbolicState<'a>,
) -> Result<Vec<Pair<'a>>, AllocError>
    ensures { IfOk result (λ pairs. AreByFirst cases.entry.items second.now pairs.items) }
{
    let mut pairs = Vec::new(alloc);
    for case in cases {
        pairs.push(Pair {
            frames: case.frames,
            first: case.state,
            second: second.copy(alloc)?,
        })?;
    }
    Ok(pairs)
}

// The cases of the second run.
fn pairs_by_second<'a>(
    alloc: Global,
    first: &SymbolicState<'a>,
    cases: Vec<Case<'a>>,
) -> Result<Vec<Pair<'a>>, AllocError>
    ensures { IfOk result (λ pairs. AreBySecond first.now cases.entry.items pairs.items) }
{
    let mut pairs = Vec::new(alloc);
    for case in cases {
        pairs.push(Pair {
            frames: case.frames,
            first: first.copy(alloc)?,
            second: case.state,
        })?;
    }
    Ok(pairs)
}

fn one_pair<'a>(alloc: Global, pair: Pair<'a>) -> Result<Vec<Pair<'a>>, AllocError>
    ensures { IfOk result (λ pairs. pairs.items ≡ pair.entry ∷ []) }
{
    let mut pairs = Vec::new(alloc);
    pairs.push(pair)?;
    Ok(pairs)
}

/// A step of the first run.
pub fn step_first<'a, L: Lookup>(
    alloc: Global,
    datapath: &'a Datapath<L>,
    pair: Pair<'a>,
) -> Result<Next<'a>, AllocError>
    requires { 0 < length pair.first.tasks.items }
    ensures { IfOk result (λ next. (c : Compared) (v : TheWorld) (steps : ℕ) → NextIs c (world_of (forwarding_of datapath.now)) v steps pair.entry next) }
{
    let Pair {
        frames,
        mut first,
        second,
    } = pair;
    match step_side(alloc, datapath, &mut first, &frames)? {
        Side::Advanced => Ok(Next::Pairs(one_pair(
            alloc,
            Pair {
                frames,
                first,
                second,
            },
        )?)),
        Side::Divided(cases) => Ok(Next::Pairs(pairs_by_first(alloc, cases, &second)?)),
        Side::Unknown => Ok(not_decided(frames, Why::UnknownTag)),
    }
}

/// A step of the second run.
pub fn step_second<'a, L: Lookup>(
    alloc: Global,
    datapath: &'a Datapath<L>,
    pair: Pair<'a>,
) -> Result<Next<'a>, AllocError>
    requires { 0 < length pair.second.tasks.items }
    ensures { IfOk result (λ next. (c : Compared) (w : TheWorld) (steps : ℕ) → NextIs c w (world_of (forwarding_of datapath.now)) steps pair.entry next) }
{
    let Pair {
        frames,
        first,
        mut second,
    } = pair;
    match step_side(alloc, datapath, &mut second, &frames)? {
        Side::Advanced => Ok(Next::Pairs(one_pair(
            alloc,
            Pair {
                frames,
                first,
                second,
            },
        )?)),
        Side::Divided(cases) => Ok(Next::Pairs(pairs_by_second(alloc, &first, cases)?)),
        Side::Unknown => Ok(not_decided(frames, Why::UnknownTag)),
    }
}
