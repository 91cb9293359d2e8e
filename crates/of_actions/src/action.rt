//! Actions, and the bytes of each.
ghost use Rattle.std.specs.Prelude.{◌≡◌, ◌≤◌, ◌++◌, true, length, IsTrue, IfOk, OnOk, IfErr, IfSome, Some, None};
ghost use Rattle.of_wire.specs.Refusals.{first_of};
ghost use Rattle.of_actions.specs.{Actions.action_at, Actions.type_refusals, Actions.unknown_type as no_action_of, Beginnings.len_at, CanonicalActions.canonical_action};
ghost use Rattle.of_actions.specs.{Rows.action_saying, Rows.said as row_and_argument, Supported.is_supported};

use crate::argument::{Argument, put_argument, read_argument};
use crate::rows::{
    ActionRow, DEC_NW_TTL, GROUP, OUTPUT, POP_VLAN, PUSH_VLAN, SET_FIELD, SET_NW_TTL, row_of,
};
use byteorder::{BigEndian, ByteOrder};
use of_layers::Field;
use of_wire::Code;
use of_wire::codes::{OFPBAC_BAD_EXPERIMENTER, OFPBAC_BAD_TYPE};
use std::alloc::AllocError;

/// What is done to a packet (OpenFlow 1.3.5, 5.12 and 7.2.5).
///
/// The default means nothing: it fills unused places of arrays.
#[derive(Clone, Copy, Debug, Default, PartialEq, Eq)]
pub enum Action {
    /// OFPAT_OUTPUT: sends the packet out of a port.
    Output {
        /// The number of a port of the switch, or a reserved one.
        port: u32,
        /// How many bytes of the packet a controller is to get.
        max_len: u16,
    },
    /// OFPAT_PUSH_VLAN: pushes a VLAN tag of this type, 0x8100 or 0x88a8, before the others.
    PushVlan(u16),
    /// OFPAT_POP_VLAN: pops the outermost VLAN tag.
    #[default]
    PopVlan,
    /// OFPAT_GROUP: sends the packet to the group of this number.
    Group(u32),
    /// OFPAT_SET_NW_TTL: replaces the TTL of IPv4, or the hop limit of IPv6.
    SetNwTtl(u8),
    /// OFPAT_DEC_NW_TTL: decrements it.
    DecNwTtl,
    /// OFPAT_SET_FIELD: replaces a field that may be set by a value that fits it.
    SetField {
        field: Field,
        value: u128,
    },
}

impl Action {
    /// Its row, and what it says.
    #[tactic(auto, using(crate::proofs::RowLemmas::said_again))]
    pub fn said(self) -> (ActionRow, Argument)
        ensures said { result ≡ row_and_argument self }
        ensures again { action_saying result.0.kind result.1 ≡ Some self }
    {
        match self {
            Action::Output { port, max_len } => (OUTPUT, Argument::Port { port, max_len }),
            Action::PushVlan(ethertype) => (PUSH_VLAN, Argument::Tag(ethertype)),
            Action::PopVlan => (POP_VLAN, Argument::Nothing),
            Action::Group(group) => (GROUP, Argument::Word(group)),
            Action::SetNwTtl(ttl) => (SET_NW_TTL, Argument::Byte(ttl)),
            Action::DecNwTtl => (DEC_NW_TTL, Argument::Nothing),
            Action::SetField { field, value } => (SET_FIELD, Argument::Field { field, value }),
        }
    }

    /// The action of a type that says this. None if there is none.
    pub fn of(kind: u16, argument: Argument) -> Option<Action>
        ensures action { result ≡ action_saying kind argument }
        ensures kind { IfSome result (λ action. (row_and_argument action).0.kind ≡ kind) }
        ensures says { IfSome result (λ action. (row_and_argument action).1 ≡ argument) }
    {
        match argument {
            Argument::Nothing if kind == POP_VLAN.kind => Some(Action::PopVlan),
            Argument::Nothing if kind == DEC_NW_TTL.kind => Some(Action::DecNwTtl),
            Argument::Byte(ttl) if kind == SET_NW_TTL.kind => Some(Action::SetNwTtl(ttl)),
            Argument::Tag(ethertype) if kind == PUSH_VLAN.kind => Some(Action::PushVlan(ethertype)),
            Argument::Word(group) if kind == GROUP.kind => Some(Action::Group(group)),
            Argument::Port { port, max_len } if kind == OUTPUT.kind => {
                Some(Action::Output { port, max_len })
            }
            Argument::Field { field, value } if kind == SET_FIELD.kind => {
                Some(Action::SetField { field, value })
            }
            _ => None,
        }
    }

    /// Whether some bytes encode it: in a PACKET_OUT, or in an instruction (OpenFlow 1.3.5, 7.2.5).
    #[tactic(auto, unfolding(crate::specs::Supported::is_supported))]
    pub(crate) fn is_supported(self, packet_out: bool) -> bool
        ensures { result ≡ is_supported packet_out self }
    {
        let (_, argument) = self.said();
        argument.is_allowed(packet_out)
    }
}

// Why a type is refused that no action has.
fn unknown_type(kind: u16) -> Code
    ensures { result ≡ no_action_of kind }
{
    if kind == 0xffff {
        OFPBAC_BAD_EXPERIMENTER
    } else {
        OFPBAC_BAD_TYPE
    }
}

/// The action that the bytes begin with, by its type; the bytes hold its length, which is 8 at least.
#[tactic(auto, unfolding(crate::specs::Actions::type_refusals, crate::specs::Actions::action_at, crate::specs::Supported::is_supported))]
pub(crate) fn read_type(rest: &[u8], len: usize, packet_out: bool) -> Result<Action, Code>
    requires long { 8 ≤ len }
    requires whole { len ≤ length rest.now }
    requires len { len ≡ len_at rest.now }
    ensures none { OnOk result (first_of (type_refusals packet_out rest.now) ≡ None) }
    ensures action { IfOk result (λ action. action_at rest.now ≡ Some action) }
    ensures served { IfOk result (λ action. IsTrue (is_supported packet_out action)) }
    ensures first { IfErr result (λ code. first_of (type_refusals packet_out rest.now) ≡ Some code) }
{
    let kind = BigEndian::read_u16(rest);
    let Some(row) = row_of(kind) else {
        return Err(unknown_type(kind));
    };
    let argument = read_argument(row.form, rest, len, packet_out)?;
    Action::of(kind, argument).ok_or(OFPBAC_BAD_TYPE)
}

/// Appends the bytes of an action.
#[tactic(auto, unfolding(crate::specs::CanonicalActions::canonical_action, crate::specs::Supported::is_supported))]
pub(crate) fn put_action(out: &mut Vec<u8>, action: Action) -> Result<(), AllocError>
    requires { is_supported true action ≡ true }
    ensures { OnOk result (out.new.items ≡ out.old.items ++ canonical_action action) }
{
    let (row, argument) = action.said();
    put_argument(out, row.kind, argument)
}
