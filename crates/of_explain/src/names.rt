//! The names that the standard gives to numbers.
ghost use Rattle.std.specs.{Prelude.◌≡◌, Prelude.◌++◌, Prelude.decimal, Prelude.OnOk, Option.option_map};
ghost use Rattle.of_wire.specs.Parts.{nth_part};
ghost use Rattle.of_explain.specs.Names.{name_for, name_in, name_or_number};

use itoa::Buffer;
use of_formats::message_name;
use of_wire::part_at;
use std::alloc::AllocError;

/// What is named.
#[derive(Clone, Copy, PartialEq, Eq)]
pub enum Names {
    /// The types of messages (OpenFlow 1.3.5, 7.1).
    Types,
    /// The types of errors (7.4.4).
    ErrorTypes,
    /// Why a packet is sent to the controller (7.4.1).
    PacketInReasons,
    /// Why an entry was removed (7.4.2).
    FlowRemovedReasons,
    /// How a port changed (7.4.3).
    PortStatusReasons,
    /// The commands of a FLOW_MOD (7.3.4.1).
    FlowCommands,
    /// The commands of a GROUP_MOD (7.3.4.2).
    GroupCommands,
    /// The types of groups (7.3.4.2).
    GroupTypes,
    /// The kinds of multipart messages (7.3.5).
    Multiparts,
    /// The roles of controllers (7.3.9).
    Roles,
}

// Names from number 0 on, a space between two.
const ERROR_TYPES: [u8; 307] = *b"\
    OFPET_HELLO_FAILED OFPET_BAD_REQUEST OFPET_BAD_ACTION OFPET_BAD_INSTRUCTION OFPET_BAD_MATCH \
    OFPET_FLOW_MOD_FAILED OFPET_GROUP_MOD_FAILED OFPET_PORT_MOD_FAILED OFPET_TABLE_MOD_FAILED \
    OFPET_QUEUE_OP_FAILED OFPET_SWITCH_CONFIG_FAILED OFPET_ROLE_REQUEST_FAILED \
    OFPET_METER_MOD_FAILED OFPET_TABLE_FEATURES_FAILED";

const PACKET_IN_REASONS: [u8; 27] = *b"NO_MATCH ACTION INVALID_TTL";

const FLOW_REMOVED_REASONS: [u8; 45] = *b"IDLE_TIMEOUT HARD_TIMEOUT DELETE GROUP_DELETE";

const PORT_STATUS_REASONS: [u8; 17] = *b"ADD DELETE MODIFY";

const FLOW_COMMANDS: [u8; 45] = *b"ADD MODIFY MODIFY_STRICT DELETE DELETE_STRICT";

const GROUP_COMMANDS: [u8; 17] = *b"ADD MODIFY DELETE";

const GROUP_TYPES: [u8; 22] = *b"ALL SELECT INDIRECT FF";

const MULTIPARTS: [u8; 133] = *b"\
    DESC FLOW AGGREGATE TABLE PORT_STATS QUEUE GROUP GROUP_DESC GROUP_FEATURES METER \
    METER_CONFIG METER_FEATURES TABLE_FEATURES PORT_DESC";

const ROLES: [u8; 27] = *b"NOCHANGE EQUAL MASTER SLAVE";

// The word with that number, from 0 on; None if there are not so many.
fn word_at(words: &'static [u8], number: u64) -> Option<&'static [u8]>
    ensures { option_map (λ word. word.now) result ≡ nth_part 32 number words.now }
{
    part_at(words, b' ', number as usize)
}

impl Names {
    // The name of a number; None where it has none.
    #[tactic(auto, unfolding(crate::specs::Names::name_for))]
    fn name(self, number: u64) -> Option<&'static [u8]>
        ensures { option_map (λ name. name.now) result ≡ name_for self number }
    {
        match self {
            Names::Types => message_name(number),
            Names::ErrorTypes => word_at(&ERROR_TYPES, number),
            Names::PacketInReasons => word_at(&PACKET_IN_REASONS, number),
            Names::FlowRemovedReasons => word_at(&FLOW_REMOVED_REASONS, number),
            Names::PortStatusReasons => word_at(&PORT_STATUS_REASONS, number),
            Names::FlowCommands => word_at(&FLOW_COMMANDS, number),
            Names::GroupCommands => word_at(&GROUP_COMMANDS, number),
            Names::GroupTypes => word_at(&GROUP_TYPES, number),
            Names::Multiparts => word_at(&MULTIPARTS, number),
            Names::Roles => word_at(&ROLES, number),
        }
    }
}

// Appends a number in decimal.
fn push_decimal(out: &mut Vec<u8>, number: u64) -> Result<(), AllocError>
    ensures { OnOk result (out.new.items ≡ out.old.items ++ decimal number) }
{
    let mut buffer = Buffer::new();
    out.extend_from_slice(buffer.format(number).as_bytes())
}

/// Appends a name, or the number where there is none.
pub fn push_named(out: &mut Vec<u8>, name: Option<&[u8]>, number: u64) -> Result<(), AllocError>
    ensures { OnOk result (out.new.items ≡ out.old.items ++ name_or_number (option_map (λ n. n.now) name.entry) number) }
{
    match name {
        None => push_decimal(out, number),
        Some(name) => out.extend_from_slice(name),
    }
}

/// Appends the name of a number.
pub fn push_name(out: &mut Vec<u8>, names: Names, number: u64) -> Result<(), AllocError>
    ensures { OnOk result (out.new.items ≡ out.old.items ++ name_in names number) }
{
    push_named(out, names.name(number), number)
}
