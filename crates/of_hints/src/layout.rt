//! What is wrong with a line before its words are checked.
ghost use Rattle.of_hints.specs.Layout.{IsLayoutFault};
ghost use Rattle.std.specs.Prelude.{◌≡◌, ◌∷◌, [], nat_eq, IfSome};
ghost use Rattle.std.specs.List.{starts_with};

use thiserror::Error;

/// How many bytes a line has at most.
const LONGEST: usize = 1_048_576;

/// What is wrong with the bytes of a line.
#[derive(Clone, Copy, Debug, Error)]
pub enum LayoutFault {
    #[error("a line has at most 1,048,576 bytes")]
    TooLong,
    #[error("the file begins with a byte order mark: save it as UTF-8 without one")]
    ByteOrderMark,
    #[error("this is not UTF-8 text")]
    NotText,
    #[error("the line has a CR, as Windows line ends do: convert them (dos2unix)")]
    CarriageReturn,
    #[error("the line has a tab: words are separated by one space")]
    Tab,
    #[error("an extra space: words are separated by one space, and a line does not begin or end with a space")]
    Space,
}

/// The byte order mark in UTF-8, with which some editors begin a file.
const MARK: [u8; 3] = [0xef, 0xbb, 0xbf];

// Whether a text begins with a byte order mark.
fn has_mark(text: &[u8]) -> bool
    ensures { result ≡ starts_with nat_eq text.now (239 ∷ 187 ∷ 191 ∷ []) }
{
    text.starts_with(&MARK)
}

// Whether a space is at an end, or after another one.
fn has_space_too_many(line: &[u8]) -> bool {
    line.split(|byte| *byte == b' ').any(|word| word.is_empty())
}

/// What is wrong with the bytes of a whole text that is read in any layout.
pub fn text_fault(text: &[u8]) -> Option<LayoutFault>
    ensures { IfSome result (λ fault. IsLayoutFault fault text.now) }
{
    if has_mark(text) {
        return Some(LayoutFault::ByteOrderMark);
    }
    if std::str::from_utf8(text).is_err() {
        return Some(LayoutFault::NotText);
    }
    None
}

/// What is wrong with the bytes of a line, and with the spaces between its words.
pub fn layout_fault(line: &[u8]) -> Option<LayoutFault>
    ensures { IfSome result (λ fault. IsLayoutFault fault line.now) }
{
    if line.len() > LONGEST {
        return Some(LayoutFault::TooLong);
    }
    if has_mark(line) {
        return Some(LayoutFault::ByteOrderMark);
    }
    if std::str::from_utf8(line).is_err() {
        return Some(LayoutFault::NotText);
    }
    if line.contains(&b'\r') {
        return Some(LayoutFault::CarriageReturn);
    }
    if line.contains(&b'\t') {
        return Some(LayoutFault::Tab);
    }
    if has_space_too_many(line) {
        return Some(LayoutFault::Space);
    }
    None
}
