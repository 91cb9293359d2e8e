//! VLAN tags pushed and popped (IEEE 802.1Q, 9.3).

ghost use Rattle.std.specs.Prelude.{◌≡◌, ◌≤◌, ◌+◌, ◌*◌, ◌/◌, ◌%◌, ◌∷◌, [], ◌++◌, ◌&&◌, nat_le, length, take, drop, OnOk, OnErr, if◌then◌else◌, IsTrue};
ghost use Rattle.of_rewrite.specs.Tagging.{has_tag, control_in};

use of_headers::{is_tag, word_at};
use std::alloc::AllocError;

/// Where the outermost tag begins, after two addresses of six bytes.
const TAG_AT: usize = 12;

/// Whether a frame has a tag: two bytes after its own four hold what comes next.
pub fn is_tagged(frame: &[u8]) -> bool
    ensures { result ≡ has_tag frame.now }
{
    frame.len() >= TAG_AT + 6 && is_tag(word_at(frame, TAG_AT))
}

/// PCP and VID of the outermost tag in their places, with a DEI of 0; 0 without a tag.
pub fn control_of(frame: &[u8]) -> u16
    ensures { result ≡ control_in frame.now }
{
    if !is_tagged(frame) {
        return 0;
    }
    let control = word_at(frame, TAG_AT + 2);
    control / 0x2000 * 0x2000 + control % 0x1000
}

/// The bytes of a tag.
pub fn tag_bytes(tpid: u16, control: u16) -> [u8; 4]
    ensures { result ≡ (tpid / 256) ∷ (tpid % 256) ∷ (control / 256) ∷ (control % 256) ∷ [] }
{
    [
        (tpid / 256) as u8,
        (tpid % 256) as u8,
        (control / 256) as u8,
        (control % 256) as u8,
    ]
}

/// Inserts four bytes after the addresses. Without memory for them nothing changes.
pub fn insert_tag(bytes: &mut Vec<u8>, tag: &[u8; 4]) -> Result<(), AllocError>
    requires { 12 ≤ length bytes.old.items }
    ensures ok { OnOk result (bytes.new.items ≡ take 12 bytes.old.items ++ (tag.now ++ drop 12 bytes.old.items)) }
    ensures err { OnErr result (bytes.new.items ≡ bytes.old.items) }
{
    bytes.extend_from_slice(tag)?;
    bytes.slice_mut(TAG_AT..).rotate_right(4);
    Ok(())
}

/// Removes the four bytes after the addresses.
pub fn remove_tag(bytes: &mut Vec<u8>)
    requires { 16 ≤ length bytes.old.items }
    ensures { bytes.new.items ≡ take 12 bytes.old.items ++ drop 16 bytes.old.items }
{
    bytes.slice_mut(TAG_AT..).rotate_left(4);
    bytes.truncate(bytes.len() - 4);
}
