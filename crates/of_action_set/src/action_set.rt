//! Action sets.
ghost use Rattle.std.specs.Prelude.{◌≡◌, ◌≤◌, ◌<◌, ◌==◌, [], ◌∷◌, true, false, not, length, filter, slice_get, slice_set, IsTrue};
ghost use Rattle.std.specs.{Option.option_map_or, List.list_all};
ghost use Rattle.of_actions.specs.{Supported.is_supported, Rising.is_ascending};
ghost use Rattle.of_action_set.specs.Sets.{rank as rank_of, is_output as is_an_output, with_action, with_actions, in_order as run_order};
ghost use Rattle.of_action_set.specs.Storage.{items_in};

use crate::rank::{has_group, is_output, place_of, rank};
use arrayvec::ArrayVec;
use of_actions::Action;
use std::marker::Model;

/// How many kinds there are: six without set-field, and 24 fields that may be set.
const KINDS: usize = 30;

/// How many actions most sets have at most.
const FEW: usize = 4;

/// Where a set has its actions. Filling unused places takes time, so most sets have few.
#[derive(Drop)]
enum Stored {
    Few(ArrayVec<Action, FEW>),
    All(ArrayVec<Action, KINDS>),
}

/// The actions that a packet gathers on its way, at most one of a kind (OpenFlow 1.3.5, 5.10).
///
/// It is of fixed size and needs no allocation.
#[derive(Drop)]
pub struct ActionSet {
    // none until the first is written: most packets write none
    actions: Option<Stored>,
}

impl Model for ActionSet {
    ghost use Rattle.std.specs.{Prelude.List, Prelude.IsTrue, Prelude.false, List.list_all};
    ghost use Rattle.of_actions.specs.{declared.action.Action.Action, Supported.is_supported, Rising.is_ascending};
    ghost use Rattle.of_action_set.specs.{Sets.rank, Storage.stored};

    ghost Value = { List Action };

    ghost view = { λ set. stored set.actions };

    ghost invariant = { λ set. IsTrue (is_ascending rank (stored set.actions)) × IsTrue (list_all (is_supported false) (stored set.actions)) };
}

impl ActionSet {
    /// Without actions.
    pub fn new() -> ActionSet
        ensures { result ≡ [] }
    {
        ActionSet { actions: None }
    }

    /// Writes actions in their order: each takes the place of the one of its kind, where there is one (OpenFlow 1.3.5, 5.9 and 5.10).
    pub fn write(&mut self, actions: &[Action])
        requires { IsTrue (list_all (is_supported false) actions.now) }
        ensures { self.new ≡ with_actions self.old actions.now }
    {
        for action in actions {
            self.put(*action);
        }
    }

    fn put(&mut self, action: Action)
        requires { IsTrue (is_supported false action) }
        ensures { self.new ≡ with_action self.old action }
    {
        match &mut self.actions {
            Some(stored) => stored.put(action),
            None => self.actions = Some(Stored::first(action)),
        }
    }

    /// Empties it (OpenFlow 1.3.5, 5.9).
    pub fn clear(&mut self)
        ensures { self.new ≡ [] }
    {
        self.actions = None;
    }

    /// Takes the actions, and leaves none (OpenFlow 1.3.5, 5.10).
    pub fn take(&mut self) -> ActionSet
        ensures taken { result ≡ self.old }
        ensures left { self.new ≡ [] }
    {
        ActionSet {
            actions: self.actions.take(),
        }
    }

    /// The actions in the order of execution: OUTPUT is left out beside GROUP (OpenFlow 1.3.5, 5.10).
    pub fn in_order(&self) -> &[Action]
        ensures actions { result.now ≡ run_order self.now }
        ensures served { IsTrue (list_all (is_supported false) result.now) }
        ensures few { length result.now ≤ 30 }
    {
        self.known();
        let actions = self.as_slice();
        if has_group(actions) {
            without_output(actions)
        } else {
            actions
        }
    }

    fn as_slice(&self) -> &[Action]
        ensures { result.now ≡ self.now }
    {
        match &self.actions {
            Some(Stored::Few(few)) => few.as_slice(),
            Some(Stored::All(all)) => all.as_slice(),
            None => &[],
        }
    }

    /// The invariant of each set: its actions are in ascending order of rank, and some bytes encode each.
    pub fn known(&self)
        ensures rising { IsTrue (is_ascending rank_of self.now) }
        ensures served { IsTrue (list_all (is_supported false) self.now) }
        ensures few { length self.now ≤ 30 }
    {
        let _ = &self.actions;
    }
}

impl Stored {
    // One action.
    fn first(action: Action) -> Stored
        ensures { items_in result ≡ action ∷ [] }
    {
        let mut few = ArrayVec::new();
        few.push(action);
        Stored::Few(few)
    }

    // Replaces the action of its kind. Where there is no place for one more, all places are filled.
    fn put(&mut self, action: Action)
        requires rising { IsTrue (is_ascending rank_of (items_in self.old)) }
        requires served { IsTrue (list_all (is_supported false) (items_in self.old)) }
        requires one { IsTrue (is_supported false action) }
        ensures { items_in self.new ≡ with_action (items_in self.old) action }
    {
        if let Stored::Few(few) = self {
            if few.len() < FEW {
                put_in(few, action);
                return;
            }
        }
        self.put_in_all(action);
    }

    // The same, with a place for each kind from now on. It is apart, so that what fills these places costs other sets nothing.
    #[cold]
    #[inline(never)]
    fn put_in_all(&mut self, action: Action)
        requires rising { IsTrue (is_ascending rank_of (items_in self.old)) }
        requires served { IsTrue (list_all (is_supported false) (items_in self.old)) }
        requires one { IsTrue (is_supported false action) }
        ensures { items_in self.new ≡ with_action (items_in self.old) action }
    {
        match self {
            Stored::All(all) => put_in(all, action),
            Stored::Few(few) => {
                let mut all = all_of(few);
                put_in(&mut all, action);
                *self = Stored::All(all);
            }
        }
    }
}

// The same actions, with a place for each kind.
fn all_of(few: &ArrayVec<Action, FEW>) -> ArrayVec<Action, KINDS>
    ensures { result.items ≡ few.now.items }
{
    let mut all = ArrayVec::new();
    match all.try_extend_from_slice(few.as_slice()) {
        Ok(()) => {}
        Err(_) => unreachable!(),
    }
    all
}

// Replaces the action of its kind.
fn put_in<const PLACES: usize>(actions: &mut ArrayVec<Action, PLACES>, action: Action)
    requires rising { IsTrue (is_ascending rank_of actions.old.items) }
    requires room { length (filter (λ a. not (rank_of a == rank_of action)) actions.old.items) < PLACES }
    ensures { actions.new.items ≡ with_action actions.old.items action }
{
    let kind = rank(action);
    let place = place_of(actions, kind);
    if is_at(actions, place, kind) {
        put_at(actions.as_mut_slice(), place, action);
    } else {
        actions.insert(place, action);
    }
}

// Whether the action at that place is of that kind.
fn is_at(actions: &[Action], place: usize, kind: u8) -> bool
    ensures { result ≡ option_map_or (λ a. rank_of a == kind) (slice_get actions.now place) false }
{
    match actions.get(place) {
        Some(action) => rank(*action) == kind,
        None => false,
    }
}

fn put_at(actions: &mut [Action], place: usize, action: Action)
    requires { place < length actions.old }
    ensures { actions.new ≡ slice_set actions.old place action }
{
    actions[place] = action;
}

// OUTPUT ranks highest, so it is the last.
fn without_output(actions: &[Action]) -> &[Action]
    requires { IsTrue (is_ascending rank_of actions.now) }
    ensures { result.now ≡ filter (λ a. not (is_an_output a)) actions.now }
{
    let Some((last, before)) = actions.split_last() else {
        return actions;
    };
    if is_output(*last) { before } else { actions }
}
