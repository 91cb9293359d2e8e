//! Sets of frames.
ghost use Rattle.std.specs.Prelude.{◌≤◌};
ghost use Rattle.of_symbolic.specs.Parts.{AreDescriptions, AreListsOfConditions};
ghost use Rattle.of_symbolic_run.specs.FrameParts.{conditions_prop};

use of_symbolic::Part;

/// Frames that come in: those whose descriptions are in a part, with a TTL in a range, if they have one (OpenFlow 1.3.5, 5.1).
#[derive(Drop)]
pub struct FrameSet {
    pub part: Part,
    /// Whether descriptions tell inner tags, by METADATA; else METADATA is 0.
    pub inner: bool,
    /// The least TTL.
    pub ttl_from: u8,
    /// The greatest TTL.
    pub ttl_to: u8,
    ghost conditions: { AreListsOfConditions part.lacks.items } by { conditions_prop part.lacks.items },
    ghost told: { AreDescriptions inner part },
    ghost range: { ttl_from ≤ ttl_to },
}
