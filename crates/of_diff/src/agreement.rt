//! From which table on two switches do the same.
ghost use Rattle.std.specs.Prelude.{◌≡◌, ◌↔◌, ◌≤◌, IfOk, IfSome, IsTrue, Some};
ghost use Rattle.of_datapath.specs.{Datapath.world_of, Numbers.forwarding_of};
ghost use Rattle.of_alike.specs.{Agreeing.AgreeFrom, SamePorts.SamePorts};
ghost use Rattle.of_diff.specs.{Changing.IsAgreement, SameSwitches.AgreeInAll, SameSwitches.AreSameSwitches};

use of_alike::{Changed, changed_entries, have_same_entries, have_same_groups};
use of_classifier::Lookup;
use of_datapath::Datapath;
use of_wire::limits::TABLES;
use std::alloc::{AllocError, Global};

// The least table from which on two switches with the same ports do the same, 16 if their last tables differ. None if their groups differ.
fn agreeing_from<L: Lookup>(first: &Datapath<L>, second: &Datapath<L>) -> Option<u8>
    requires { SamePorts first.now.ports second.now.ports }
    ensures agree { IfSome result (λ n. AgreeFrom n (world_of (forwarding_of first.now)) (world_of (forwarding_of second.now))) }
    ensures last { IfSome result (λ n. n ≤ 16) }
    ensures all { AreSameSwitches (forwarding_of first.now) (forwarding_of second.now) → result ≡ Some 0 }
{
    if !have_same_groups(first.group_list(), second.group_list()) {
        return None;
    }
    first.tables.known();
    second.tables.known();
    let mut from = TABLES;
    while from > 0 && have_same_entries(first.entries(from - 1), second.entries(from - 1)) {
        from -= 1;
    }
    Some(from)
}

/// What two switches have in common.
#[derive(Drop)]
pub struct Agreement {
    /// The tables from this one on do the same; 16 if the last tables differ.
    pub from: u8,
    /// Which entries of the table before it changed.
    pub changed: Changed,
}

/// What two switches with the same ports have in common. None if their groups differ.
pub fn agreement_of<L: Lookup>(
    alloc: Global,
    first: &Datapath<L>,
    second: &Datapath<L>,
) -> Result<Option<Agreement>, AllocError>
    requires { SamePorts first.now.ports second.now.ports }
    ensures agreement { IfOk result (λ found. IfSome found (IsAgreement (forwarding_of first.now) (forwarding_of second.now))) }
    ensures all { IfOk result (λ found. AreSameSwitches (forwarding_of first.now) (forwarding_of second.now) → AgreeInAll found) }
{
    let Some(from) = agreeing_from(first, second) else {
        return Ok(None);
    };
    let changed = if from == 0 {
        Changed::none(alloc)
    } else {
        changed_entries(alloc, first.entries(from - 1), second.entries(from - 1))?
    };
    Ok(Some(Agreement { from, changed }))
}

/// Whether all tables of the two do the same, and so do the groups.
pub fn agree_in_all(agreement: &Option<Agreement>) -> bool
    ensures { IsTrue result ↔ AgreeInAll agreement.now }
{
    match agreement {
        Some(agreement) => agreement.from == 0,
        None => false,
    }
}
