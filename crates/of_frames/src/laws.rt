//! What the frames with given fields are, and that packets of which something is known have frames.
ghost use Rattle.std.specs.Prelude.{◌≡◌, ℕ, true, Option, Some, is_some, IsTrue, length};
ghost use Rattle.of_layers.specs.{declared.field.Field.Field, declared.field.Field.TheVariants.InPort, declared.field.Field.TheVariants.Metadata, Reading.layers_of};
ghost use Rattle.of_headers.specs.FieldMap.{field_map};
ghost use Rattle.of_rewrite.specs.{Frames.IsFrame, Right.carried_is_right, Right.header_is_right};
ghost use Rattle.of_frames.specs.{Rules.is_ipv4_shape, Rules.protocol_of, declared.shape.Shape.Shape, declared.shape.Tagging.Tagging, Beside.numbers_beside, Given.fields_given, Given.or_zero};
ghost use Rattle.of_frames.specs.{Knowing.IsAmong, Knowing.IsKnown, Packets.frame_given, Packets.frame_size, Packets.layers_given};

/// The frame with given fields is a frame, and when it is read it has these fields: each field of its shape and of its tag with the number that was
/// given, and no other field (OpenFlow 1.3.5, 7.2.3.7).
pub fn frames_have_their_fields()
    ensures frame { (s : Shape) (t : Tagging) (v : Field → ℕ) → IsFrame (frame_given s t v) }
    ensures size { (s : Shape) (t : Tagging) (v : Field → ℕ) → length (frame_given s t v) ≡ frame_size s t }
    ensures layers { (s : Shape) (t : Tagging) (v : Field → ℕ) → layers_of (frame_given s t v) ≡ layers_given s t v }
    ensures fields { (s : Shape) (t : Tagging) (v : Field → ℕ) (port metadata : ℕ) →
        field_map (layers_of (frame_given s t v)) port metadata ≡ fields_given s t v port metadata }
{}

/// The checksums of the frame are right: that of the IPv4 header (RFC 791, 3.1), and that of TCP, UDP or ICMP (RFC 9293, 3.1; RFC 768; RFC 792; RFC 4443,
/// 2.3).
pub fn checksums_are_right()
    ensures header { (s : Shape) (t : Tagging) (v : Field → ℕ) → is_ipv4_shape s ≡ true → IsTrue (header_is_right (layers_of (frame_given s t v)).body) }
    ensures carried { (s : Shape) (t : Tagging) (v : Field → ℕ) → is_some (protocol_of s) ≡ true →
        IsTrue (carried_is_right (numbers_beside s) (layers_of (frame_given s t v)).body) }
{}

/// If what is known of packets has a shape and a tagging, then there is such a packet: the frame with the bits that are known, and zeros for those that
/// are not, at the port and with the metadata of that kind.
pub fn known_packets_have_frames()
    ensures { (s : Shape) (t : Tagging) (mask known : Field → Option ℕ) (port metadata : ℕ) → IsKnown s t mask known →
        known InPort ≡ Some port → known Metadata ≡ Some metadata →
        IsAmong mask known (field_map (layers_of (frame_given s t (or_zero known))) port metadata) }
{}
