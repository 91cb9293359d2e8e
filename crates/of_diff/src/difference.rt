//! What is found about two switches.

use of_alike::Where;
use of_machine::Items;
use of_symbolic_run::{Emission, FrameSet};

/// What both runs emitted for some frames, by the actions on the frame that came in.
#[derive(Drop)]
pub struct EmittedByBoth {
    pub first: Vec<Emission>,
    pub second: Vec<Emission>,
}

/// Frames that two switches treat differently, or may: one of them was run on both.
#[derive(Drop)]
pub struct Difference {
    /// Sets of frames, never none: the first has the frame that was run. In each set something else leaves at the same place for some frame, and the runs of
    /// all sets emitted the same until they were done or went on alike. Other frames of a set may be treated alike.
    pub sets: Vec<FrameSet>,
    /// What the runs of these sets emitted. No clause says so: it only decides which sets become one difference.
    pub emitted: EmittedByBoth,
    /// The frame that was run, and the port at which it is received.
    pub frame: Vec<u8>,
    pub in_port: u32,
    /// Where something else leaves.
    pub at: Where,
    /// What leaves the first switch.
    pub first: Items,
    /// What leaves the second switch.
    pub second: Items,
}

/// Why it is not known whether frames are treated alike.
#[derive(Clone, Copy, PartialEq, Eq)]
pub enum Why {
    /// A lookup asks what is not known of a VLAN tag: of one below the outermost tag, or of a PCP that PUSH_VLAN copied.
    UnknownTag,
    /// The runs took as many steps as they may.
    Steps,
    /// The search for a frame among them took as many steps as it may, or found none with a port of the switches.
    Search,
    /// The actions on the frames differ, but what they made of each frame that was run is the same.
    OtherActions,
}

/// Frames of which it is not known whether two switches treat them alike.
#[derive(Drop)]
pub struct Undecided {
    pub frames: FrameSet,
    pub why: Why,
}

/// What is found about two switches.
#[derive(Drop)]
pub struct Differences {
    pub found: Vec<Difference>,
    pub undecided: Vec<Undecided>,
}
