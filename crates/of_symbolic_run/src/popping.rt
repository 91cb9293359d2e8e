//! Whether a switch pops VLAN tags.
ghost use Rattle.std.specs.Prelude.{◌<◌};

use of_actions::{Action, Instruction};
use of_classifier::Lookup;
use of_datapath::Datapath;
use of_wire::limits::TABLES;

fn any_pops(actions: &[Action]) -> bool {
    actions
        .iter()
        .any(|action| matches!(action, Action::PopVlan))
}

fn instruction_pops(instruction: &Instruction) -> bool {
    match instruction {
        Instruction::Apply(actions) | Instruction::Write(actions) => any_pops(actions.as_slice()),
        _ => false,
    }
}

fn table_pops<L: Lookup>(datapath: &Datapath<L>, table: u8) -> bool
    requires { table < 16 }
{
    datapath.entries(table).any(|entry| entry
        .flow
        .instructions
        .as_slice()
        .iter()
        .any(instruction_pops))
}

fn groups_pop<L: Lookup>(datapath: &Datapath<L>) -> bool {
    datapath.group_list().iter().any(|group| group
        .buckets
        .as_slice()
        .iter()
        .any(|bucket| any_pops(bucket.actions.as_slice())))
}

/// Whether a flow entry or a group of the switch has a POP_VLAN, after which a lookup may see an inner tag. Runs of all frames then describe frames with
/// their inner tags. An answer does not rest on it: without them more frames are undecided, and with them a search takes more steps.
pub fn pops_tags<L: Lookup>(datapath: &Datapath<L>) -> bool {
    for table in 0..TABLES {
        if table_pops(datapath, table) {
            return true;
        }
    }
    groups_pop(datapath)
}
