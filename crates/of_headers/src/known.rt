//! What is known of the headers of a frame.

ghost use Rattle.std.specs.Prelude.{◌≡◌, ◌≤◌, ◌<◌, ◌+◌, ◌^◌, ℕ, List, length};
ghost use Rattle.of_layers.specs.Reading.{layers_of};
ghost use Rattle.of_headers.specs.{FieldMap.value, FieldMap.field_map, Places.layout_of, Tags.pushed, Tags.popped, Known.HasFields, Known.HasPlaces, Known.IsKnownOf};

use crate::headers::Headers;
use crate::key::FieldKey;
use crate::layout::{Layout, layout_in};
use crate::reading::key_in;

/// What is known of the headers of one frame.
#[derive(Clone, Copy)]
pub enum Known {
    /// Nothing: they are to be read.
    Nothing,
    /// Where its layers begin.
    Places(Layout),
    /// That, and its fields, as of a frame at port 0 without metadata.
    Fields(Headers),
}

impl Known {
    /// Where the layers of the frame begin. If that is not known, it is read.
    pub fn layout(&self, frame: &[u8]) -> Layout
        requires long { 14 ≤ length frame.now }
        requires known { IsKnownOf self.now frame.now }
        ensures { result ≡ layout_of (layers_of frame.now) }
    {
        match self {
            Known::Nothing => layout_in(frame),
            Known::Places(layout) => *layout,
            Known::Fields(headers) => headers.layout,
        }
    }

    /// The fields of the frame, as a lookup takes them. What is not known is read.
    pub fn key(&self, frame: &[u8], in_port: u32, metadata: u64) -> FieldKey
        requires long { 14 ≤ length frame.now }
        requires known { IsKnownOf self.now frame.now }
        ensures { value result ≡ field_map (layers_of frame.now) in_port metadata }
    {
        match self {
            Known::Fields(headers) => headers.key.received(in_port, metadata),
            _ => key_in(frame, self.layout(frame), in_port, metadata),
        }
    }

    /// Reads what is not known of the frame: then all of it is.
    pub fn read(&mut self, frame: &[u8])
        requires long { 14 ≤ length frame.now }
        requires known { IsKnownOf self.old frame.now }
        ensures known { IsKnownOf self.new frame.now }
        ensures fields { HasFields self.new }
    {
        if let Known::Fields(_) = self {
            return;
        }
        let layout = self.layout(frame);
        let key = key_in(frame, layout, 0, 0);
        *self = Known::Fields(Headers { layout, key });
    }

    /// What is known once a VLAN tag was pushed: where the layers begin, if that was known.
    pub fn pushed(self) -> Known
        ensures places { HasPlaces self → HasPlaces result }
        ensures known { (kind : ℕ) (s t : List ℕ) → length (layers_of s).tags + 1 < 2 ^ 64 → IsKnownOf self s → layers_of t ≡ pushed kind (layers_of s) →
            IsKnownOf result t }
    {
        match self {
            Known::Nothing => Known::Nothing,
            Known::Places(layout) => Known::Places(layout.pushed()),
            Known::Fields(headers) => Known::Places(headers.layout.pushed()),
        }
    }

    /// What is known once the outermost VLAN tag was popped: where the layers begin, if that was known.
    pub fn popped(self) -> Known
        ensures places { HasPlaces self → HasPlaces result }
        ensures known { (s t : List ℕ) → IsKnownOf self s → layers_of t ≡ popped (layers_of s) → IsKnownOf result t }
    {
        match self {
            Known::Nothing => Known::Nothing,
            Known::Places(layout) => Known::Places(layout.popped()),
            Known::Fields(headers) => Known::Places(headers.layout.popped()),
        }
    }
}
