//! Actions as bytes.
ghost use Rattle.std.specs.Prelude.{◌≡◌, ◌≤◌, ◌++◌, Bool, true, [], length, IsTrue, None, OnOk, IfOk};
ghost use Rattle.std.specs.List.{list_all};
ghost use Rattle.of_actions.specs.{Actions.AreActions, Supported.is_supported, Supported.are_supported, CanonicalActions.canonical_actions};

use crate::action::{Action, put_action};
use crate::action_list::ActionList;
use std::alloc::{AllocError, Global};

/// Appends the one encoding of actions that is written.
pub(crate) fn put_actions(out: &mut Vec<u8>, actions: &[Action]) -> Result<(), AllocError>
    requires { list_all (is_supported true) actions.now ≡ true }
    ensures { OnOk result (out.new.items ≡ out.old.items ++ canonical_actions actions.now) }
{
    for action in actions {
        put_action(out, *action)?;
    }
    Ok(())
}

/// The one encoding of a list of actions that is written (OpenFlow 1.3.5, 7.2.5): at most 1,536 bytes.
pub fn write_actions(alloc: Global, actions: &ActionList) -> Result<Vec<u8>, AllocError>
    ensures canonical { IfOk result (λ v. v.items ≡ canonical_actions actions.now) }
    ensures short { IfOk result (λ v. length v.items ≤ 1536) }
    // A PACKET_OUT may have each list of actions, and an instruction each that is supported there.
    ensures encoded { IfOk result (λ v. AreActions true [] v.items actions.now None) }
    ensures encoded_where_served { IfOk result (λ v. (packet_out : Bool) → IsTrue (are_supported packet_out actions.now) →
        AreActions packet_out [] v.items actions.now None) }
{
    let mut out = Vec::new(alloc);
    put_actions(&mut out, actions.as_slice())?;
    Ok(out)
}
