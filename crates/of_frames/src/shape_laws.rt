//! What the fields of every frame obey.
ghost use Rattle.std.specs.Prelude.{◌≤◌, List, ℕ, length};
ghost use Rattle.of_layers.specs.{Reading.layers_of, WellFormed.AreBytes};
ghost use Rattle.of_headers.specs.FieldMap.{field_map};
ghost use Rattle.of_frames.specs.Rules.{HasShape, IsTagging, shape_of, tagging_of};

/// Each frame has a shape. By it a frame has a field exactly if it has the header that the field's prerequisite names; and where a header follows,
/// the type and the protocol are those that name it (OpenFlow 1.3.5, 7.2.3.7 and 7.2.3.8).
pub fn frames_have_shapes()
    ensures { (frame : List ℕ) (in_port metadata : ℕ) → AreBytes frame → 14 ≤ length frame →
        HasShape (shape_of (layers_of frame).body) (field_map (layers_of frame) in_port metadata) }
{}

/// VLAN_VID is 0 and VLAN_PCP is absent if a frame has no tag; else VLAN_VID has the bit OFPVID_PRESENT, and VLAN_PCP is there (OpenFlow 1.3.5,
/// 7.2.3.7).
pub fn tags_are_seen()
    ensures { (frame : List ℕ) (in_port metadata : ℕ) → AreBytes frame → 14 ≤ length frame →
        IsTagging (tagging_of (layers_of frame).tags) (field_map (layers_of frame) in_port metadata) }
{}
