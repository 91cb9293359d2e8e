//! Laws of structs: what is written is read, and what is read fits; and of the table of messages.
ghost use Rattle.std.specs.Prelude.{◌≡◌, ◌≤◌, ◌+◌, ◌++◌, ℕ, List, length, map};
ghost use Rattle.of_formats.specs.Structs.{Struct, FitsStruct, cleared, numbers, size, texts, written_with};
ghost use Rattle.of_formats.specs.{declared.messages.TheConstants.MESSAGES, Messages.size_in_bytes, Messages.fixed_parts};

/// Of each struct of the standard: the numbers and bytes that are written are read again, whatever follows them, and have the
/// struct's size; numbers that are read fit; and bytes with the same numbers are the same, but for padding (OpenFlow 1.3.5, 7).
pub fn structs_are_read_and_written(a: &[u8], b: &[u8])
    ensures numbers { (s : Struct) (ns : List ℕ) (xs : List (List ℕ)) (rest : List ℕ) → FitsStruct s ns xs → numbers s 0 (written_with s ns xs ++ rest) ≡ ns }
    ensures texts { (s : Struct) (ns : List ℕ) (xs : List (List ℕ)) (rest : List ℕ) → FitsStruct s ns xs → texts s 0 (written_with s ns xs ++ rest) ≡ xs }
    ensures size { (s : Struct) (ns : List ℕ) (xs : List (List ℕ)) → FitsStruct s ns xs → length (written_with s ns xs) ≡ size s }
    ensures fit { (s : Struct) (at : ℕ) → FitsStruct s (numbers s at a.now) (texts s at a.now) }
    ensures same { (s : Struct) → size s ≤ length a.now → size s ≤ length b.now → numbers s 0 a.now ≡ numbers s 0 b.now → texts s 0 a.now ≡ texts s 0 b.now →
        cleared s a.now ≡ cleared s b.now }
{}

/// The sizes in the table of messages are those of the header and of the structs, with the smallest match if one follows (OpenFlow 1.3.5, 7).
pub fn messages_have_their_sizes()
    ensures { map (λ row. size_in_bytes row.size) MESSAGES ≡ map (λ fixed. 8 + size fixed) fixed_parts }
{}
