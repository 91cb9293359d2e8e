//! Reading the headers of a frame.

ghost use Rattle.std.specs.Prelude.{◌≡◌, ◌≤◌, ◌<◌, ◌*◌, ◌^◌, ℕ, List, length, IfOk};
ghost use Rattle.std.specs.Result.{result_err};
ghost use Rattle.of_layers.specs.{Layers.cells, Looking.locate, Reading.layers_of};
ghost use Rattle.of_headers.specs.{FieldMap.value, FieldMap.field_map, Places.layout_of, Faults.frame_fault, Faults.inside_fault};

use crate::key::FieldKey;
use crate::layout::{Layout, layout_in};
use crate::reading::key_in;
use of_layers::{Field, Place};
use thiserror::Error;

/// Why the switch does not accept bytes as a frame.
#[derive(Clone, Copy, Debug, PartialEq, Eq, Error)]
pub enum FrameFault {
    /// Fewer than the 14 bytes of two addresses and a type.
    #[error("a frame has 14 bytes at least")]
    Short,
    /// More than 9,216 bytes.
    #[error("a frame has 9,216 bytes at most")]
    Long,
}

/// What was read of one frame: where its layers begin, and its fields.
#[derive(Clone, Copy)]
pub struct Headers {
    pub layout: Layout,
    pub key: FieldKey,
}

impl Headers {
    /// The fields of the frame, as a lookup takes them.
    pub fn key(&self) -> FieldKey
        ensures { result ≡ self.now.key }
    {
        self.key
    }

    /// Where a field is in the frame, as [`Layout::place`] says.
    pub fn place(&self, field: Field) -> Option<Place>
        ensures { (s : List ℕ) → 14 ≤ length s → 8 * length s < 2 ^ 64 → self.now.layout ≡ layout_of (layers_of s) →
            result ≡ locate field (cells (layers_of s)) }
    {
        self.layout.place(field)
    }
}

/// Reads a frame that may have grown inside the switch, by tags that were pushed.
///
/// It is refused as `Short` below 14 bytes, and never as `Long`.
pub fn read_inside(frame: &[u8], in_port: u32, metadata: u64) -> Result<Headers, FrameFault>
    ensures fault { result_err result ≡ inside_fault frame.now }
    ensures layout { IfOk result (λ h. h.layout ≡ layout_of (layers_of frame.now)) }
    ensures key { IfOk result (λ h. value h.key ≡ field_map (layers_of frame.now) in_port metadata) }
{
    if frame.len() < 14 {
        return Err(FrameFault::Short);
    }
    let layout = layout_in(frame);
    let key = key_in(frame, layout, in_port, metadata);
    Ok(Headers { layout, key })
}

/// Refuses bytes that are no frame by their length alone.
///
/// They are refused as `Short` below 14 bytes, and as `Long` above 9,216.
pub fn check_length(frame: &[u8]) -> Result<(), FrameFault>
    ensures { result_err result ≡ frame_fault frame.now }
{
    if frame.len() > 9216 {
        return Err(FrameFault::Long);
    }
    if frame.len() < 14 {
        return Err(FrameFault::Short);
    }
    Ok(())
}

/// Reads a frame that was received at a port, with the metadata that a lookup sees.
///
/// It is refused as `Short` below 14 bytes, and as `Long` above 9,216.
pub fn read(frame: &[u8], in_port: u32, metadata: u64) -> Result<Headers, FrameFault>
    ensures fault { result_err result ≡ frame_fault frame.now }
    ensures layout { IfOk result (λ h. h.layout ≡ layout_of (layers_of frame.now)) }
    ensures key { IfOk result (λ h. value h.key ≡ field_map (layers_of frame.now) in_port metadata) }
{
    check_length(frame)?;
    read_inside(frame, in_port, metadata)
}
