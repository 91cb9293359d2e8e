//! What is found about the frames that a switch receives.

use of_machine::{Items, Step};
use of_symbolic_run::{Emission, FrameSet};

/// Frames that take the same steps, the hits of the same entries among them (OpenFlow 1.3.5, 5.1).
#[derive(Drop)]
pub struct Path {
    pub frames: FrameSet,
    pub steps: Vec<Step>,
    /// What they emit, in order.
    pub emitted: Vec<Emission>,
}

/// Paths whose steps differ only in which entries are hit. One of their frames was run.
#[derive(Drop)]
pub struct PathClass {
    pub paths: Vec<Path>,
    /// The frame that was run, and the port at which it is received.
    pub frame: Vec<u8>,
    pub in_port: u32,
    /// What its run emits.
    pub items: Items,
}

/// Which sets of frames are put into one class.
#[derive(Clone, Copy, PartialEq, Eq)]
pub enum Merging {
    /// All sets whose steps differ only in which entries are hit. A frame of the first one is searched.
    SameWay,
    /// No two: a frame of each set is searched.
    Each,
}

/// Why it is not known which steps frames take.
#[derive(Clone, Copy, PartialEq, Eq)]
pub enum WhyUndecided {
    /// A lookup asks what is not known of a VLAN tag: of one below the outermost tag, or of a PCP that PUSH_VLAN copied.
    UnknownTag,
    /// The runs took as many steps as they may.
    Steps,
    /// The search for a frame among them took as many steps as it may, or found none with a port of the switch.
    Search,
}

/// Frames of which it is not known which steps they take.
#[derive(Drop)]
pub struct UndecidedFrames {
    pub frames: FrameSet,
    pub why: WhyUndecided,
}

/// What is found about the frames that a switch receives.
#[derive(Drop)]
pub struct Paths {
    pub classes: Vec<PathClass>,
    pub undecided: Vec<UndecidedFrames>,
}
