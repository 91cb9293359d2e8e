//! Rewriting actions that were applied to a frame.
ghost use Rattle.std.specs.Prelude.{◌≡◌, ◌++◌, ◌∷◌, [], IsTrue, IfOk, OnOk, OnErr};
ghost use Rattle.of_symbolic.specs.{Actions.AreRewriting, Overlays.IsOverlay};
ghost use Rattle.of_symbolic_run.specs.Rewriting.{rewrites_frames};

use crate::served::ServedAction;
use of_actions::Action;
use of_symbolic::Overlay;
use std::alloc::{AllocError, Global};
use std::marker::Model;

/// The rewriting actions that were applied to a frame, the first one first (OpenFlow 1.3.5, 5.12).
#[derive(Drop)]
pub struct Rewrites {
    actions: Vec<Action>,
}

impl Model for Rewrites {
    ghost use Rattle.std.specs.Prelude.{List};
    ghost use Rattle.of_actions.specs.declared.action.Action.{Action};
    ghost use Rattle.of_symbolic.specs.Actions.{AreRewriting};

    ghost Value = { List Action };

    ghost view = { λ r. r.actions.items };

    ghost invariant = { λ r. AreRewriting r.actions.items };
}

impl Rewrites {
    /// No actions. It takes no memory.
    pub fn none(alloc: Global) -> Rewrites
        ensures { result ≡ [] }
    {
        Rewrites {
            actions: Vec::new(alloc),
        }
    }

    pub fn as_slice(&self) -> &[Action]
        ensures actions { result.now ≡ self.now }
        ensures rewriting { AreRewriting self.now }
    {
        self.actions.as_slice()
    }

    /// One more. If memory runs out, they are as before.
    pub fn push(&mut self, action: ServedAction) -> Result<(), AllocError>
        requires { IsTrue (rewrites_frames action) }
        ensures ok { OnOk result (self.new ≡ self.old ++ action ∷ []) }
        ensures err { OnErr result (self.new ≡ self.old) }
    {
        let action = action.get();
        self.actions.push(action)?;
        Ok(())
    }

    pub fn copy(&self) -> Result<Rewrites, AllocError>
        ensures { IfOk result (λ copy. copy ≡ self.now) }
    {
        Ok(Rewrites {
            actions: self.actions.clone()?,
        })
    }

    /// The invariant.
    pub fn known(&self)
        ensures { AreRewriting self.now }
    {
        let _ = &self.actions;
    }

    /// What is known of the packet after them, in terms of the frame that came in, with its inner tag or without.
    pub fn overlay(&self, alloc: Global, inner: bool) -> Result<Overlay, AllocError>
        ensures is { IfOk result (λ overlay. IsOverlay overlay self.now) }
        ensures inner { IfOk result (λ overlay. overlay.inner ≡ inner) }
    {
        overlay_after(alloc, self.as_slice(), inner)
    }
}

fn overlay_after(alloc: Global, actions: &[Action], inner: bool) -> Result<Overlay, AllocError>
    ensures is { IfOk result (λ overlay. IsOverlay overlay actions.now) }
    ensures inner { IfOk result (λ overlay. overlay.inner ≡ inner) }
{
    let mut overlay = Overlay::new(alloc, inner);
    for action in actions {
        overlay.after(action)?;
    }
    Ok(overlay)
}
