//! What the layers of a frame are: the only ones that encode it.

ghost use Rattle.std.specs.Prelude.{◌≡◌, ◌≤◌, List, ℕ, Some, length};
ghost use Rattle.of_layers.specs.{declared.field.Field.Field, Fields.number_of, Fields.field_at, Layers.Layers, Layers.EncodesLayers, Reading.layers_of, WellFormed.AreBytes, WellFormed.IsLayers};

/// A frame is the encoding of the layers that are read from it, and of no others.
///
/// `encodes`: they encode it. `layered`: they are well formed. `only`: no other well-formed layers encode it.
pub fn encoded_by_one()
    ensures encodes { (frame : List ℕ) → AreBytes frame → 14 ≤ length frame → EncodesLayers (layers_of frame) frame }
    ensures layered { (frame : List ℕ) → AreBytes frame → 14 ≤ length frame → IsLayers (layers_of frame) }
    ensures only { (l : Layers) (frame : List ℕ) → IsLayers l → AreBytes frame → EncodesLayers l frame → l ≡ layers_of frame }
{}

/// The number of a field names that field, and no number names two (OpenFlow 1.3.5, 7.2.3.7).
///
/// `named`: so `Field::ALL`, in which a number is looked for, has each field. `only`: a number names only the field whose number it is.
pub fn number_names_field()
    ensures named { (f : Field) → field_at (number_of f) ≡ Some f }
    ensures only { (number : ℕ) (f : Field) → field_at number ≡ Some f → number_of f ≡ number }
{}
