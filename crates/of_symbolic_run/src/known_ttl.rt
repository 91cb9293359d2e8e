//! What is known of the TTL of a packet that actions rewrote.
ghost use Rattle.std.specs.Prelude.{◌≡◌};
ghost use Rattle.of_symbolic_run.specs.TimesToLive.{IsBelowMost, known_ttl, ttl_limit_of, ttl_by, ttl_decremented};

use of_actions::Action;

/// What is known of the TTL of a packet that actions rewrote, in terms of that of the frame that came in (OpenFlow 1.3.5, 5.12).
#[derive(Clone, Copy, PartialEq, Eq)]
pub enum KnownTtl {
    /// That of the frame that came in, less so much, but not below 1. A TTL of 0 stays 0.
    Less(usize),
    /// This number.
    Fixed(u8),
}

impl KnownTtl {
    // DEC_NW_TTL.
    fn decremented(self) -> KnownTtl
        requires { IsBelowMost self }
        ensures { result ≡ ttl_decremented self }
    {
        match self {
            KnownTtl::Less(count) => KnownTtl::Less(count + 1),
            KnownTtl::Fixed(ttl) if ttl <= 1 => self,
            KnownTtl::Fixed(ttl) => KnownTtl::Fixed(ttl - 1),
        }
    }

    // After one more action.
    fn after(self, action: &Action) -> KnownTtl
        requires { IsBelowMost self }
        ensures { result ≡ ttl_by action.now self }
    {
        match action {
            Action::SetNwTtl(ttl) => KnownTtl::Fixed(*ttl),
            Action::DecNwTtl => self.decremented(),
            _ => self,
        }
    }

    /// The greatest TTL of a frame that came in for which DEC_NW_TTL expires. None: it expires for no frame.
    pub fn limit(self) -> Option<u8>
        ensures { result ≡ ttl_limit_of self }
    {
        match self {
            KnownTtl::Less(count) if count < 255 => Some(count as u8 + 1),
            KnownTtl::Less(_) => Some(255),
            KnownTtl::Fixed(ttl) if ttl <= 1 => Some(255),
            KnownTtl::Fixed(_) => None,
        }
    }
}

/// After actions, the first one first.
pub fn ttl_after_all(actions: &[Action]) -> KnownTtl
    ensures { result ≡ known_ttl actions.now }
{
    let mut known = KnownTtl::Less(0);
    for action in actions {
        known = known.after(action);
    }
    known
}
