//! Laws of the header.
ghost use Rattle.std.specs.Prelude.{◌≡◌, ◌<◌, ◌^◌, ◌++◌, ℕ, List, Some};
ghost use Rattle.of_live.specs.Header.{BeginsWithHeader, Encapsulated, carried, sent_header};

/// A header as it is written, before any frame, is read as its network and that frame.
pub fn written_headers_are_read()
    ensures { (vni : ℕ) (frame : List ℕ) → vni < 2 ^ 24 → carried (sent_header vni ++ frame) ≡ Some (record { vni = vni; frame = frame }) }
{}

/// What is read of bytes is what they begin with, and what they begin with is read.
pub fn carried_frames_have_headers()
    ensures begins { (bytes : List ℕ) (d : Encapsulated) → carried bytes ≡ Some d → BeginsWithHeader bytes d.vni d.frame }
    ensures read { (bytes : List ℕ) (vni : ℕ) (frame : List ℕ) → BeginsWithHeader bytes vni frame → carried bytes ≡ Some (record { vni = vni; frame = frame }) }
{}
