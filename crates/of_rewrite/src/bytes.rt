//! Words of 16 bits in bytes, big-endian.

ghost use Rattle.std.specs.Prelude.{◌≡◌, ◌+◌, ◌*◌, ◌/◌, ◌%◌, ◌^◌, ◌-◌, ◌≤◌, ◌<◌, length};
ghost use Rattle.of_rewrite.specs.Spans.{with_word};
ghost use Rattle.of_layers.specs.WellFormed.{AreBytes};

/// Writes a word over two bytes.
pub fn put_word(bytes: &mut [u8], at: usize, word: u16)
    requires { at + 2 ≤ length bytes.old }
    ensures { bytes.new ≡ with_word at word bytes.old }
{
    bytes[at] = (word / 256) as u8;
    bytes[at + 1] = (word % 256) as u8;
}

/// Bytes are below 256, which a proof that speaks of them after a write takes from here.
pub fn all_bytes(s: &[u8])
    ensures { AreBytes s.now }
{}
