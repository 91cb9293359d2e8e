//! Rows of an event file that are still to come.
ghost use Rattle.std.specs.Prelude.{◌≡◌, ◌<◌, ◌≤◌, ◌∷◌, [], length, drop, slice_get};
ghost use Rattle.std.specs.Option.{option_map};

use of_switch::Event;
use std::marker::Model;

/// Events that are still to come, in order.
#[derive(Drop)]
pub struct Rows {
    events: Vec<Event>,
    // how many of them came
    at: usize,
    ghost within: { at ≤ length events.items },
}

impl Model for Rows {
    ghost use Rattle.std.specs.Prelude.{List, drop};
    ghost use Rattle.of_switch.specs.declared.event.Event.{Event};

    ghost Value = { List Event };

    ghost view = { λ r. drop r.at r.events.items };
}

impl Rows {
    pub fn new(events: Vec<Event>) -> Self
        ensures { result ≡ events.items }
    {
        Rows { events, at: 0 }
    }

    /// The first of them.
    pub fn first(&self) -> Option<&Event>
        ensures { option_map (λ e. e.now) result ≡ slice_get self.now 0 }
    {
        self.events.get(self.at)
    }

    /// The first of them came.
    pub fn pass(&mut self)
        requires { 0 < length self.old }
        ensures { self.new ≡ drop 1 self.old }
    {
        self.at += 1;
    }
}
