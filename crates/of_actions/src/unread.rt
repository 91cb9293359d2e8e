//! Instructions whose headers are read.
ghost use Rattle.std.specs.Prelude.{◌≡◌};
ghost use Rattle.of_actions.specs.Headers.{kind_of};

use std::marker::Model;

/// An instruction whose actions are not read yet.
///
/// The default means nothing: it fills unused places of lists.
#[derive(Default, Drop)]
pub(crate) enum Header<'a> {
    Goto(u8),
    Metadata { value: u64, mask: u64 },
    /// The bytes of its actions.
    Write(&'a [u8]),
    /// The bytes of its actions.
    Apply(&'a [u8]),
    #[default]
    Clear,
}

/// The same, as contracts see it.
#[derive(Default, Drop)]
pub(crate) struct UnreadInstruction<'a> {
    pub(crate) header: Header<'a>,
}

impl<'a> Model for UnreadInstruction<'a> {
    ghost use Rattle.of_actions.specs.{Headers.Header, Unread.header_of};

    ghost Value = { Header };

    ghost view = { λ unread. header_of unread.header };
}

impl<'a> UnreadInstruction<'a> {
    /// Its type on the wire (OpenFlow 1.3.5, 7.2.4).
    pub(crate) fn kind(&self) -> u16
        ensures { result ≡ kind_of self.now }
    {
        match self.header {
            Header::Goto(_) => 1,
            Header::Metadata { .. } => 2,
            Header::Write(_) => 3,
            Header::Apply(_) => 4,
            Header::Clear => 5,
        }
    }
}
