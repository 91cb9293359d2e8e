//! What is required of a switch.
ghost use Rattle.of_regions.specs.Conditions.{AreConditions};
ghost use Rattle.of_require.specs.OneProof.{are_conditions_prop};

use of_oxm::{Match, MatchField};
use of_paths::Destination;

/// How many of the frames a requirement is about.
#[derive(Clone, Copy, PartialEq, Eq)]
pub enum Quantifier {
    /// No frame does it.
    No,
    /// Each frame does it.
    Each,
    /// At least one frame does it.
    AtLeastOne,
}

/// What a frame does.
#[derive(Drop)]
pub enum Demand {
    /// Something leaves by one of these places; nothing leaves, if `Nothing` is among them.
    LeavesBy(Vec<Destination>),
    /// All that leaves goes to these places.
    LeavesOnlyBy(Vec<Destination>),
    /// A lookup of it is in this table.
    PassesTable(u8),
    /// What leaves by one of these places has these fields: all of it, if each frame is to do so, else some of it. A requirement that demands this is
    /// about the frames of which something leaves by one of these places.
    Has {
        places: Vec<Destination>,
        fields: Match,
    },
}

/// What frames do that a switch receives (OpenFlow 1.3.5, 5.1).
#[derive(Drop)]
pub struct Requirement {
    pub quantifier: Quantifier,
    /// The frames that it is about, as they come in: all that these conditions match.
    pub within: Vec<MatchField>,
    /// Whether frames with a TTL that expires are left out (OpenFlow 1.3.5, 5.12).
    pub except_expired: bool,
    pub demand: Demand,
    ghost conditions: { AreConditions within.items } by { are_conditions_prop within.items },
}
