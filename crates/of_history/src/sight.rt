//! What a view shows.
ghost use Rattle.std.specs.Prelude.{◌≡◌, true, map};
ghost use Rattle.of_history.specs.{Sights.sight_text, Ways.found_step, Ways.way_words};

use crate::way::{WaySight, are_found, are_same_items};
use of_classifier::Lookup;
use of_machine::{Item, Step};
use of_switch::Switch;

/// What a view shows: its text, and what that of a frame is made of, so that the same need not be said again.
#[derive(Drop)]
pub enum Sight {
    Plain(Vec<u8>),
    OfWay(WaySight),
}

impl Sight {
    pub fn text(&self) -> &[u8]
        ensures { result.now ≡ sight_text self.now }
    {
        match self {
            Sight::Plain(text) => text,
            Sight::OfWay(way) => &way.text,
        }
    }
}

/// Whether these steps and items are known to be those of a sight.
pub fn is_of_way<L: Lookup>(
    sight: &Sight,
    switch: &Switch<L>,
    steps: &[Step],
    items: &[Item],
) -> bool
    ensures { result ≡ true → sight_text sight.now ≡ way_words (map (found_step switch.now.core.forwarding) steps.now) items.now }
{
    match sight {
        Sight::Plain(_) => false,
        Sight::OfWay(way) => {
            are_found(&way.steps, switch, steps) && are_same_items(&way.items, items)
        }
    }
}
