//! What is watched of a switch.
ghost use Rattle.std.specs.Prelude.{◌≡◌, ℕ, List, IfNone, IfOk, IfSome};
ghost use Rattle.of_datapath.specs.Datapath.{Forwarding};
ghost use Rattle.of_history.specs.Sights.{sight_text};

use crate::sight::Sight;
use of_classifier::Lookup;
use of_switch::Switch;
use std::alloc::{AllocError, Global};

/// What is watched of a switch: a text of lines about its flow tables, groups and ports.
pub trait View<L: Lookup> {
    /// The text.
    ghost seen: { Self → Forwarding → List ℕ };

    /// Lines about the flow entries of it whose timeouts are over at a moment, in nanoseconds.
    ghost expiring: { Self → ℕ → Forwarding → List ℕ };

    /// What it shows of a switch. None if it is known to be what it showed last. Nothing changes.
    fn look(
        &self,
        alloc: Global,
        switch: &Switch<L>,
        last: &Sight,
    ) -> Result<Option<Sight>, AllocError>
        ensures other { IfOk result (λ sight. IfSome sight (λ s. sight_text s ≡ seen self.now switch.now.core.forwarding)) }
        ensures same { IfOk result (λ sight. IfNone sight (sight_text last.now ≡ seen self.now switch.now.core.forwarding)) };

    /// What expires at a moment, in nanoseconds. Nothing changes.
    fn look_ahead(
        &self,
        alloc: Global,
        switch: &Switch<L>,
        moment: u64,
    ) -> Result<Vec<u8>, AllocError>
        ensures { IfOk result (λ lines. lines.items ≡ expiring self.now moment switch.now.core.forwarding) };
}
