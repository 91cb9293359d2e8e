//! The buckets of a group that run.
ghost use Rattle.std.specs.Prelude.{◌≡◌, ◌<◌, ◌≤◌, ◌∷◌, ◌++◌, [], length};

use arrayvec::ArrayVec;
use std::marker::Model;

/// The places of the buckets of a group that run, in their order, at most 16 (OpenFlow 1.3.5, 5.6.1).
#[derive(Drop)]
pub struct Chosen {
    places: ArrayVec<u8, 16>,
}

impl Model for Chosen {
    ghost use Rattle.std.specs.Prelude.{List, ℕ};

    ghost Value = { List ℕ };

    ghost view = { λ c. c.places.items };
}

impl Chosen {
    pub fn new() -> Chosen
        ensures { result ≡ [] }
    {
        Chosen {
            places: ArrayVec::new(),
        }
    }

    /// One more place.
    pub fn push(&mut self, place: u8)
        requires { length self.old < 16 }
        ensures { self.new ≡ self.old ++ place ∷ [] }
    {
        self.places.push(place);
    }

    pub fn as_slice(&self) -> &[u8]
        ensures places { result.now ≡ self.now }
        ensures few { length self.now ≤ 16 }
    {
        self.places.as_slice()
    }
}
