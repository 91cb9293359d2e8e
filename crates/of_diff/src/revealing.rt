//! Conditions on frames for which a rewriting action makes a difference.
ghost use Rattle.std.specs.Prelude.{◌∷◌, [], IfOk, OnOk};
ghost use Rattle.of_regions.specs.Conditions.{AreConditions};

use crate::pair::Pair;
use of_actions::Action;
use of_alike::rewrites;
use of_layers::Field;
use of_oxm::MatchField;
use of_symbolic_run::{Emission, ingress_condition};
use std::alloc::{AllocError, Global};

/// The bit OFPVID_PRESENT of VLAN_VID: there is a tag (OpenFlow 1.3.5, 7.2.3.7).
const PRESENT: u128 = 0x1000;

// That a field is there and has these of its bits as they are wanted.
fn with_bits(field: Field, bits: u128, wanted: u128) -> MatchField
    ensures { AreConditions (result ∷ []) }
{
    let mask = bits & field.row().ones;
    MatchField {
        field,
        value: wanted & mask,
        mask: Some(mask),
    }
}

// That the frame has the field that is set, with another value.
fn with_other_value(field: Field, value: u128) -> MatchField
    ensures { AreConditions (result ∷ []) }
{
    match field {
        Field::VlanVid => with_bits(field, PRESENT | 1, PRESENT | (!value & 1)),
        _ => with_bits(field, 1, !value),
    }
}

fn push_condition(conditions: &mut Vec<MatchField>, condition: MatchField) -> Result<(), AllocError>
    requires { AreConditions (condition ∷ []) }
    ensures { OnOk result (AreConditions conditions.old.items → AreConditions conditions.new.items) }
{
    conditions.push(condition)?;
    Ok(())
}

// Appends conditions on frames that the action changes (OpenFlow 1.3.5, 5.12): the field that is set is there and has another value; the frame is one of
// IPv4, or of IPv6, and so has a TTL; it has a VLAN tag, or none.
fn push_action(conditions: &mut Vec<MatchField>, action: &Action) -> Result<(), AllocError>
    ensures { OnOk result (AreConditions conditions.old.items → AreConditions conditions.new.items) }
{
    match action {
        Action::SetField { field, value } => {
            push_condition(conditions, with_other_value(*field, *value))
        }
        Action::PushVlan(_) | Action::PopVlan => {
            push_condition(conditions, with_bits(Field::VlanVid, PRESENT, PRESENT))?;
            push_condition(conditions, with_bits(Field::VlanVid, PRESENT, 0))
        }
        Action::Output { .. } | Action::Group(_) => Ok(()),
        _ => {
            push_condition(conditions, with_bits(Field::Ipv4Dst, 0, 0))?;
            push_condition(conditions, with_bits(Field::Ipv6Dst, 0, 0))
        }
    }
}

fn push_actions(conditions: &mut Vec<MatchField>, actions: &[Action]) -> Result<(), AllocError>
    ensures { OnOk result (AreConditions conditions.old.items → AreConditions conditions.new.items) }
{
    for action in actions {
        push_action(conditions, action)?;
    }
    Ok(())
}

// Appends those of the actions that a run took before it emitted something.
fn push_emitted(conditions: &mut Vec<MatchField>, emitted: &[Emission]) -> Result<(), AllocError>
    ensures { OnOk result (AreConditions conditions.old.items → AreConditions conditions.new.items) }
{
    for emission in emitted {
        push_actions(conditions, rewrites(emission))?;
    }
    Ok(())
}

/// Conditions, each on frames for which something else may leave: they came in by the ingress port, or an action changes them that the first or the
/// second run took.
pub fn revealing(
    alloc: Global,
    pair: &Pair<'_>,
    ingress: u32,
) -> Result<Vec<MatchField>, AllocError>
    ensures { IfOk result (λ conditions. AreConditions conditions.items) }
{
    let mut conditions = Vec::new(alloc);
    push_condition(&mut conditions, ingress_condition(ingress))?;
    push_emitted(&mut conditions, &pair.first.emitted)?;
    push_emitted(&mut conditions, &pair.second.emitted)?;
    Ok(conditions)
}
