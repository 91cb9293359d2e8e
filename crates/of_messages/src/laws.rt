//! Laws of messages.
ghost use Rattle.std.specs.Prelude.{◌≤◌, length};
ghost use Rattle.of_messages.specs.{Hellos.AreElements, Hellos.elements_of, Written.IsMessage, Written.message};

/// What is written is one message, whose header says its length, as long as at most 65,527 bytes follow the header
/// (OpenFlow 1.3.5, 7.1). Each `write_` gives such a `message`.
pub fn header_tells_length(kind: u8, xid: u32, body: &[u8])
    requires { length body.now ≤ 65527 }
    ensures { IsMessage (message kind xid body.now) }
{}

/// The elements that the version of a HELLO is looked for in are all that its body begins with, up to where none begins
/// (OpenFlow 1.3.5, 7.5.1).
#[tactic(auto, using(crate::proofs::HelloLemmas::are_elements))]
pub fn elements_are_whole(body: &[u8])
    ensures { AreElements body.now (elements_of body.now) }
{}
