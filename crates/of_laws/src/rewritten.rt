//! The fields of rewritten frames.
ghost use Rattle.std.specs.Prelude.{◌≡◌, ◌∷◌, IsTrue, List, ℕ};
ghost use Rattle.of_layers.specs.{declared.field.Field.Field, Fields.is_settable, Reading.is_tag_type, Reading.layers_of};
ghost use Rattle.of_headers.specs.{FieldMap.field_map, Tags.inner_tags, Tags.tag_before};
ghost use Rattle.of_rewrite.specs.Frames.{IsFrame, frame_popped, frame_pushed, frame_set, frame_ttl, frame_ttl_decremented};
ghost use Rattle.of_laws.specs.Rewritten.{fields_set, fields_tagged};

/// After SET_FIELD the frame has the new value of the field, if it had the field, and the old value of every other field.
pub fn fields_after_set()
    ensures { (f : Field) (v : ℕ) (frame : List ℕ) (port metadata : ℕ) (g : Field) → IsFrame frame → IsTrue (is_settable f) →
        field_map (layers_of (frame_set f v frame)) port metadata g ≡ fields_set f v (field_map (layers_of frame) port metadata) g }
{}

/// A TTL that is set changes no field: the TTL and the hop limit are no match fields.
pub fn fields_after_ttl()
    ensures { (v : ℕ) (frame : List ℕ) (port metadata : ℕ) (g : Field) → IsFrame frame →
        field_map (layers_of (frame_ttl v frame)) port metadata g ≡ field_map (layers_of frame) port metadata g }
{}

/// Nor does DEC_NW_TTL.
pub fn fields_after_ttl_decremented()
    ensures { (frame : List ℕ) (port metadata : ℕ) (g : Field) → IsFrame frame →
        field_map (layers_of (frame_ttl_decremented frame)) port metadata g ≡ field_map (layers_of frame) port metadata g }
{}

/// After PUSH_VLAN the frame has one tag more, with the VID and PCP of the one that was the outermost, and no other field has changed.
pub fn fields_after_push()
    ensures tags { (type : ℕ) (frame : List ℕ) → IsFrame frame → IsTrue (is_tag_type type) →
        (layers_of (frame_pushed type frame)).tags ≡ tag_before type (layers_of frame).tags ∷ (layers_of frame).tags }
    ensures fields { (type : ℕ) (frame : List ℕ) (port metadata : ℕ) (g : Field) → IsFrame frame → IsTrue (is_tag_type type) →
        field_map (layers_of (frame_pushed type frame)) port metadata g ≡
        fields_tagged (layers_of (frame_pushed type frame)).tags (field_map (layers_of frame) port metadata) g }
{}

/// After POP_VLAN the frame has its inner tags, and no other field has changed.
pub fn fields_after_pop()
    ensures tags { (frame : List ℕ) → IsFrame frame → (layers_of (frame_popped frame)).tags ≡ inner_tags (layers_of frame).tags }
    ensures fields { (frame : List ℕ) (port metadata : ℕ) (g : Field) → IsFrame frame →
        field_map (layers_of (frame_popped frame)) port metadata g ≡
        fields_tagged (layers_of (frame_popped frame)).tags (field_map (layers_of frame) port metadata) g }
{}
