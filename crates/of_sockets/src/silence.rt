//! Connections of which little is heard.
ghost use Rattle.std.specs.Prelude.{◌≡◌};
ghost use Rattle.of_sockets.specs.Silence.{begins_whole as whole_at_first, given_up, gives_way as has_to_give_way, is_doubted as doubted};

use crate::Ending;

/// How many nanoseconds a connection may take for its first message, which is a HELLO.
pub const GREETING_WAIT: u64 = 10_000_000_000;

/// After how many nanoseconds of silence a connection gives way to the next one that connects.
pub const PATIENCE: u64 = 15_000_000_000;

/// After how many nanoseconds of silence the switch calls its controller again, beside the connection.
pub const DOUBT: u64 = 60_000_000_000;

/// Whether bytes begin with a whole message: its header, and as many bytes as that says (OpenFlow 1.3.5, 7.1).
pub fn begins_whole(bytes: &[u8]) -> bool
    ensures { result ≡ whole_at_first bytes.now }
{
    match bytes {
        [_, _, high, low, rest @ ..] => {
            rest.len() >= 4 && rest.len() + 4 >= usize::from(*high) * 256 + usize::from(*low)
        }
        _ => false,
    }
}

/// When a connection was heard. Times are nanoseconds of one clock.
#[derive(Clone, Copy, PartialEq, Eq)]
pub struct Heard {
    /// When it began.
    pub begun: u64,
    /// When something was heard of it last; at first when it began.
    pub last: u64,
    /// Whether its first message was whole.
    pub is_met: bool,
}

impl Heard {
    /// Why the connection is given up now, if it is: `idle` is how long it may be silent, if that is limited.
    pub fn ending(&self, now: u64, idle: Option<u64>) -> Option<Ending>
        ensures { result ≡ given_up self.now now idle }
    {
        if !self.is_met && now.saturating_sub(self.begun) >= GREETING_WAIT {
            return Some(Ending::NoHello);
        }
        match idle {
            Some(most) if now.saturating_sub(self.last) >= most => Some(Ending::Idle),
            _ => None,
        }
    }

    /// Whether it gives way to another one that connects now.
    pub fn gives_way(&self, now: u64) -> bool
        ensures { result ≡ has_to_give_way self.now now }
    {
        now.saturating_sub(self.last) >= PATIENCE
    }

    /// Whether the switch calls its controller again, since nobody may be there any more.
    pub fn is_doubted(&self, now: u64) -> bool
        ensures { result ≡ doubted self.now now }
    {
        now.saturating_sub(self.last) >= DOUBT
    }
}
