//! Where frames go.
ghost use Rattle.std.specs.{Prelude.◌≡◌, List.list_any};
ghost use Rattle.of_paths.specs.Places.{lead_to, leaves_to};

use of_machine::Item;

// Whether one of these items goes there.
fn goes_there(items: &[Item], to: Destination) -> bool
    ensures { result ≡ list_any (leaves_to to) items.now }
{
    items.iter().any(|item| to.takes(item))
}

/// Where frames go, and so the paths that they take.
#[derive(Clone, Copy, PartialEq, Eq)]
pub enum Destination {
    /// Out of a port (OpenFlow 1.3.5, 5.12).
    Port(u32),
    /// To the controller: by an OUTPUT, or since a TTL expired.
    Controller,
    /// Nothing leaves.
    Nothing,
}

impl Destination {
    /// Whether an item goes there.
    pub fn takes(self, item: &Item) -> bool
        ensures { result ≡ leaves_to self item.now }
    {
        match (item, self) {
            (Item::Sent { port, .. }, Destination::Port(number)) => *port == number,
            (Item::PacketIn(_), Destination::Controller) => true,
            _ => false,
        }
    }

    /// Whether one of these items goes there, or whether there is none, if nothing is to leave.
    pub fn is_reached_by(self, items: &[Item]) -> bool
        ensures { result ≡ lead_to self items.now }
    {
        match self {
            Destination::Nothing => items.is_empty(),
            Destination::Port(_) | Destination::Controller => goes_there(items, self),
        }
    }
}
