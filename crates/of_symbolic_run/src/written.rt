//! Supported actions that were written into an action set.
ghost use Rattle.std.specs.Prelude.{◌≡◌, ◌++◌, [], false, IsTrue, IfOk, OnOk, OnErr};
ghost use Rattle.std.specs.List.{list_all};
ghost use Rattle.of_actions.specs.Supported.{is_supported};

use of_actions::Action;
use std::alloc::{AllocError, Global};
use std::marker::Model;

/// The actions that WRITE_ACTIONS wrote since the action set was empty, in order (OpenFlow 1.3.5, 5.9 and 5.10). Each is supported.
#[derive(Drop)]
pub struct Written {
    actions: Vec<Action>,
}

impl Model for Written {
    ghost use Rattle.std.specs.{Prelude.List, Prelude.IsTrue, Prelude.false, List.list_all};
    ghost use Rattle.of_actions.specs.{declared.action.Action.Action, Supported.is_supported};

    ghost Value = { List Action };

    ghost view = { λ w. w.actions.items };

    ghost invariant = { λ w. IsTrue (list_all (is_supported false) w.actions.items) };
}

impl Written {
    /// No actions. It takes no memory.
    pub fn none(alloc: Global) -> Written
        ensures { result ≡ [] }
    {
        Written {
            actions: Vec::new(alloc),
        }
    }

    pub fn as_slice(&self) -> &[Action]
        ensures actions { result.now ≡ self.now }
        ensures served { IsTrue (list_all (is_supported false) result.now) }
    {
        self.actions.as_slice()
    }

    /// Appends actions. If memory runs out, it is as before.
    pub fn write(&mut self, actions: &[Action]) -> Result<(), AllocError>
        requires { IsTrue (list_all (is_supported false) actions.now) }
        ensures ok { OnOk result (self.new ≡ self.old ++ actions.now) }
        ensures err { OnErr result (self.new ≡ self.old) }
    {
        self.actions.extend_from_slice(actions)
    }

    /// Leaves none.
    pub fn clear(&mut self)
        ensures { self.new ≡ [] }
    {
        self.actions.clear();
    }

    pub fn copy(&self) -> Result<Written, AllocError>
        ensures { IfOk result (λ copy. copy ≡ self.now) }
    {
        Ok(Written {
            actions: self.actions.clone()?,
        })
    }
}
