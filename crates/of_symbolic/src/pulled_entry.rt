//! The entries of a flow table as conditions on the frame that came in.
ghost use Rattle.std.specs.Prelude.{◌≡◌, true, IfNone, IfOk, IfSome};
ghost use Rattle.of_table.specs.Entries.{entry_of};
ghost use Rattle.of_symbolic.specs.{Branches.AsksUnknown, Branches.flows_listed, Branching.ArePulledEntries, Branching.IsPulledEntry, Pulling.is_unknown_in};

use crate::overlay::Overlay;
use crate::pulling::{Pulled, pull};
use of_oxm::MatchField;
use of_table::Entry;
use std::alloc::{AllocError, Global};

/// An entry of a flow table, in terms of the description of the frame that came in.
#[derive(Drop)]
pub struct PulledEntry {
    pub priority: u16,
    /// It matches if all these conditions agree with that description. None: it never matches.
    pub fields: Option<Vec<MatchField>>,
}

// None if it is not known which frames the entry matches.
fn pulled_entry(
    alloc: Global,
    overlay: &Overlay,
    metadata: u64,
    entry: &Entry,
) -> Result<Option<PulledEntry>, AllocError>
    ensures some { IfOk result (λ found. IfSome found (IsPulledEntry overlay.now metadata (entry_of entry.now))) }
    ensures none { IfOk result (λ found. IfNone found (is_unknown_in overlay.now entry.now.flow.fields ≡ true)) }
{
    let priority = entry.flow.priority;
    match pull(alloc, overlay, metadata, &entry.flow.fields)? {
        Pulled::Unknown => Ok(None),
        Pulled::Never => Ok(Some(PulledEntry {
            priority,
            fields: None,
        })),
        Pulled::When(fields) => Ok(Some(PulledEntry {
            priority,
            fields: Some(fields),
        })),
    }
}

/// None if it is not known which frames one of them matches.
pub fn pulled_entries(
    alloc: Global,
    entries: &[&Entry],
    overlay: &Overlay,
    metadata: u64,
) -> Result<Option<Vec<PulledEntry>>, AllocError>
    ensures some { IfOk result (λ found. IfSome found (λ pulled. ArePulledEntries overlay.now metadata (flows_listed entries.now) pulled.items)) }
    ensures none { IfOk result (λ found. IfNone found (AsksUnknown overlay.now (flows_listed entries.now))) }
{
    let mut pulled = Vec::new(alloc);
    for entry in entries {
        match pulled_entry(alloc, overlay, metadata, entry)? {
            None => return Ok(None),
            Some(one) => pulled.push(one)?,
        }
    }
    Ok(Some(pulled))
}
