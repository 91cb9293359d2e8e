//! Sets of frames, and fewer frames of them.
ghost use Rattle.std.specs.Prelude.{◌≡◌, ℕ, List, IfOk};
ghost use Rattle.of_rewrite.specs.Frames.{IsFrame};
ghost use Rattle.of_regions.specs.Conditions.{AreConditions};
ghost use Rattle.of_symbolic_run.specs.FrameSets.{AreFramesMatching, AreFramesWithout, InFrames};

use crate::frame_set::FrameSet;
use of_oxm::MatchField;
use of_symbolic::Part;
use std::alloc::{AllocError, Global};

impl FrameSet {
    /// All frames, by any port, described with their inner tags or without.
    pub fn whole(alloc: Global, inner: bool) -> Result<FrameSet, AllocError>
        ensures all { IfOk result (λ s. (frame : List ℕ) (port : ℕ) → IsFrame frame → InFrames s frame port) }
        ensures inner { IfOk result (λ s. s.inner ≡ inner) }
    {
        let part = Part::whole(alloc, inner)?;
        Ok(FrameSet {
            part,
            inner,
            ttl_from: 0,
            ttl_to: 255,
        })
    }

    /// Those whose descriptions conditions do not match.
    pub fn without(self, alloc: Global, fields: &Vec<MatchField>) -> Result<FrameSet, AllocError>
        requires { AreConditions fields.now.items }
        ensures { IfOk result (AreFramesWithout fields.now.items self) }
    {
        let FrameSet {
            part,
            inner,
            ttl_from,
            ttl_to,
            ..
        } = self;
        let part = part.unmatched(alloc, fields)?;
        Ok(FrameSet {
            part,
            inner,
            ttl_from,
            ttl_to,
        })
    }

    /// Those whose descriptions conditions match.
    pub fn matching(&self, alloc: Global, fields: &[MatchField]) -> Result<FrameSet, AllocError>
        requires { AreConditions fields.now }
        ensures { IfOk result (AreFramesMatching fields.now self.now) }
    {
        let part = self.part.matched(alloc, fields)?;
        Ok(FrameSet {
            part,
            inner: self.inner,
            ttl_from: self.ttl_from,
            ttl_to: self.ttl_to,
        })
    }
}
