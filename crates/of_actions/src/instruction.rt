//! Instructions.
ghost use Rattle.std.specs.Prelude.{◌≡◌};
ghost use Rattle.of_actions.specs.InstructionLists.{type_of_instruction, run_place as place_of, is_served_body as is_body_served};

use crate::action_list::{ActionList, are_supported};

/// What an entry does with a packet (OpenFlow 1.3.5, 5.9 and 7.2.4).
#[derive(Drop)]
pub enum Instruction {
    /// OFPIT_APPLY_ACTIONS: executes the actions at once, in their order.
    Apply(ActionList),
    /// OFPIT_CLEAR_ACTIONS: empties the action set.
    Clear,
    /// OFPIT_WRITE_ACTIONS: writes the actions into the action set.
    Write(ActionList),
    /// OFPIT_WRITE_METADATA: replaces the bits of the metadata that the mask has.
    Metadata { value: u64, mask: u64 },
    /// OFPIT_GOTO_TABLE: goes on at this table.
    Goto(u8),
}

impl Instruction {
    /// Its type on the wire (OpenFlow 1.3.5, 7.2.4).
    pub fn kind(&self) -> u16
        ensures { result ≡ type_of_instruction self.now }
    {
        match self {
            Instruction::Goto(_) => 1,
            Instruction::Metadata { .. } => 2,
            Instruction::Write(_) => 3,
            Instruction::Apply(_) => 4,
            Instruction::Clear => 5,
        }
    }

    /// Its place in the order of execution (OpenFlow 1.3.5, 5.9).
    pub(crate) fn run_place(&self) -> u8
        ensures { result ≡ place_of self.now }
    {
        match self {
            Instruction::Apply(_) => 0,
            Instruction::Clear => 1,
            Instruction::Write(_) => 2,
            Instruction::Metadata { .. } => 3,
            Instruction::Goto(_) => 4,
        }
    }

    /// Whether some bytes encode it.
    pub(crate) fn is_served_body(&self) -> bool
        ensures { result ≡ is_body_served self.now }
    {
        match self {
            Instruction::Apply(actions) | Instruction::Write(actions) => {
                are_supported(actions.as_slice(), false)
            }
            Instruction::Clear => true,
            Instruction::Metadata { value, mask } => *value <= u64::MAX && *mask <= u64::MAX,
            Instruction::Goto(table) => *table < 16,
        }
    }
}
