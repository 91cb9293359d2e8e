//! Big-endian numbers of several bytes.

ghost use Rattle.std.specs.Prelude.{◌≡◌, ◌+◌, ◌≤◌, length, drop};
ghost use Rattle.of_layers.specs.Reading.{word, double, six, sixteen};

/// The two bytes from a place on.
pub fn word_at(s: &[u8], at: usize) -> u16
    requires { at + 2 ≤ length s.now }
    ensures { result ≡ word s.now at }
{
    u16::from_be_bytes([s[at], s[at + 1]])
}

/// The four bytes from a place on.
pub fn double_at(s: &[u8], at: usize) -> u32
    requires { at + 4 ≤ length s.now }
    ensures { result ≡ double s.now at }
{
    u32::from_be_bytes([s[at], s[at + 1], s[at + 2], s[at + 3]])
}

/// The six bytes from a place on.
pub fn six_at(s: &[u8], at: usize) -> u64
    requires { at + 6 ≤ length s.now }
    ensures { result ≡ six s.now at }
{
    u64::from_be_bytes([
        0,
        0,
        s[at],
        s[at + 1],
        s[at + 2],
        s[at + 3],
        s[at + 4],
        s[at + 5],
    ])
}

/// The sixteen bytes from a place on.
pub fn sixteen_at(s: &[u8], at: usize) -> u128
    requires { at + 16 ≤ length s.now }
    ensures { result ≡ sixteen s.now at }
{
    u128::from_be_bytes([
        s[at],
        s[at + 1],
        s[at + 2],
        s[at + 3],
        s[at + 4],
        s[at + 5],
        s[at + 6],
        s[at + 7],
        s[at + 8],
        s[at + 9],
        s[at + 10],
        s[at + 11],
        s[at + 12],
        s[at + 13],
        s[at + 14],
        s[at + 15],
    ])
}

/// The bytes from a place on.
pub fn rest_from(s: &[u8], at: usize) -> &[u8]
    requires { at ≤ length s.now }
    ensures { result.now ≡ drop at s.now }
{
    &s[at..]
}
