//! Where a field is in a frame.

/// Where a field is in a frame: its first bit, counted from the frame's start, and how many bits it has.
#[derive(Clone, Copy, PartialEq, Eq)]
pub struct Place {
    pub first: usize,
    pub bits: usize,
}
