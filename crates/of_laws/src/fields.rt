//! Laws of the fields of frames: which every frame has, and how large their values are.
ghost use Rattle.std.specs.Prelude.{◌≡◌, ◌≤◌, ◌<◌, ◌^◌, ℕ, List, length, IsSome, Some};
ghost use Rattle.std.specs.List.{All};
ghost use Rattle.of_layers.specs.{declared.field.Field.Field, Fields.ones_of, Reading.layers_of, WellFormed.AreBytes};
ghost use Rattle.of_headers.specs.FieldMap.{field_map};
ghost use Rattle.of_laws.specs.Always.{always};

/// Whatever a frame's bytes are, its ingress port, the metadata, both addresses, the type and VLAN_VID are present (OpenFlow 1.3.5,
/// 7.2.3.7).
pub fn fields_of_every_frame()
    ensures { (frame : List ℕ) (in_port metadata : ℕ) → All (λ f. IsSome (field_map (layers_of frame) in_port metadata f)) always }
{}

/// The value of a field of a frame has no bit beyond those of the field (OpenFlow 1.3.5, 7.2.3.7), where the ingress port has 32
/// bits and the metadata 64.
pub fn values_within_their_bits()
    ensures { (frame : List ℕ) (in_port metadata : ℕ) → AreBytes frame → 14 ≤ length frame → in_port < 2 ^ 32 → metadata < 2 ^ 64 → (f : Field) (v : ℕ) →
        field_map (layers_of frame) in_port metadata f ≡ Some v → v ≤ ones_of f }
{}
