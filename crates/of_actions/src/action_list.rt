//! Lists of actions.
ghost use Rattle.std.specs.Prelude.{◌≡◌, ◌↔◌, [], false, true, length, IsTrue, IfOk, IfSome, IfNone};
ghost use Rattle.std.specs.List.{list_all};
ghost use Rattle.of_actions.specs.Supported.{is_supported as is_served_action, are_supported as are_served_actions};

use crate::action::Action;
use std::alloc::AllocError;
use std::marker::Model;

/// At most 64 actions, in the order in which they are executed (OpenFlow 1.3.5, 5.11).
#[derive(Drop)]
pub struct ActionList {
    pub(crate) actions: Vec<Action>,
}

impl Model for ActionList {
    ghost use Rattle.std.specs.Prelude.{List, IsTrue, true};
    ghost use Rattle.of_actions.specs.{declared.action.Action.Action, Supported.are_supported};

    ghost Value = { List Action };

    ghost view = { λ list. list.actions.items };

    ghost invariant = { λ list. IsTrue (are_supported true list.actions.items) };
}

impl ActionList {
    /// The list of these actions. None where there are more than 64 of them, or one is not supported.
    pub fn new(actions: Vec<Action>) -> Option<ActionList>
        ensures list { IfSome result (λ list. list ≡ actions.items) }
        ensures served { IfSome result (λ list. IsTrue (are_served_actions true list)) }
        ensures none { IfNone result (are_served_actions true actions.items ≡ false) }
    {
        if are_supported(&actions, true) {
            Some(ActionList { actions })
        } else {
            None
        }
    }

    pub fn as_slice(&self) -> &[Action]
        ensures actions { result.now ≡ self.now }
        ensures served { IsTrue (are_served_actions true self.now) }
    {
        self.actions.as_slice()
    }

    pub fn len(&self) -> usize
        ensures { result ≡ length self.now }
    {
        self.actions.len()
    }

    pub fn is_empty(&self) -> bool
        ensures { IsTrue result ↔ (self.now ≡ []) }
    {
        self.actions.is_empty()
    }

    pub fn copy(&self) -> Result<ActionList, AllocError>
        ensures { IfOk result (λ list. list ≡ self.now) }
    {
        Ok(ActionList {
            actions: self.actions.clone()?,
        })
    }
}

fn all_served(actions: &[Action], packet_out: bool) -> bool
    ensures { result ≡ list_all (is_served_action packet_out) actions.now }
{
    actions.iter().all(|action| action.is_supported(packet_out))
}

/// Whether some bytes encode these actions: of a PACKET_OUT, or of an instruction.
pub(crate) fn are_supported(actions: &[Action], packet_out: bool) -> bool
    ensures { result ≡ are_served_actions packet_out actions.now }
{
    actions.len() <= 64 && all_served(actions, packet_out)
}
