//! The words for actions and instructions (ovs-actions(7)).
ghost use Rattle.std.specs.Prelude.{◌≡◌};
ghost use Rattle.of_ovs_words.specs.ActionWords.{action_named};

use crate::field_word::{Form, Target};
use crate::keywords::{is_keyword_in_any_case, padded};
use of_layers::Field;

/// What a word for an action or an instruction does.
#[derive(Clone, Copy)]
pub enum Verb {
    /// OFPAT_OUTPUT to a port.
    Output,
    /// OFPAT_OUTPUT to the controller.
    Controller,
    /// OFPAT_GROUP.
    Group,
    /// No action.
    Drop,
    PushVlan,
    PopVlan,
    /// OFPAT_SET_FIELD of a field that its value names.
    SetField,
    /// OFPAT_SET_FIELD of this field, whose value is written in this form.
    Mod(Target, Form),
    /// The same in a VLAN tag, which is pushed if there is none.
    Tag(Target, Form),
    /// OFPAT_DEC_NW_TTL.
    DecTtl,
    /// OFPAT_SET_NW_TTL.
    SetTtl,
    /// OFPIT_WRITE_ACTIONS.
    Write,
    /// OFPIT_CLEAR_ACTIONS.
    Clear,
    /// OFPIT_WRITE_METADATA.
    Metadata,
    /// OFPIT_GOTO_TABLE.
    Goto,
    /// A lookup in a table, which GOTO_TABLE does as well if no action follows.
    Resubmit,
}

/// A word for an action or an instruction: its text, which spaces fill up, and what it does.
#[derive(Clone, Copy)]
pub struct ActionWord {
    pub text: [u8; 20],
    pub verb: Verb,
}

macro_rules! action {
    ($text:expr, $verb:ident) => {
        ActionWord {
            text: padded!($text),
            verb: Verb::$verb,
        }
    };
    ($text:expr, $verb:ident, Exact($field:ident), $form:ident) => {
        ActionWord {
            text: padded!($text),
            verb: Verb::$verb(Target::Exact(Field::$field), Form::$form),
        }
    };
    ($text:expr, $verb:ident, $target:ident, $form:ident) => {
        ActionWord {
            text: padded!($text),
            verb: Verb::$verb(Target::$target, Form::$form),
        }
    };
}

/// Each word once.
pub const ACTION_WORDS: [ActionWord; 28] = [
    action!(b"output", Output),
    action!(b"controller", Controller),
    action!(b"group", Group),
    action!(b"drop", Drop),
    action!(b"push_vlan", PushVlan),
    action!(b"pop_vlan", PopVlan),
    action!(b"strip_vlan", PopVlan),
    action!(b"set_field", SetField),
    action!(b"mod_dl_src", Mod, Exact(EthSrc), Mac),
    action!(b"mod_dl_dst", Mod, Exact(EthDst), Mac),
    action!(b"mod_nw_src", Mod, NetworkSource, Ipv4),
    action!(b"mod_nw_dst", Mod, NetworkDestination, Ipv4),
    action!(b"mod_nw_tos", Mod, Exact(IpDscp), Tos),
    action!(b"mod_nw_ecn", Mod, Exact(IpEcn), Number),
    action!(b"mod_tp_src", Mod, TransportSource, Number),
    action!(b"mod_tp_dst", Mod, TransportDestination, Number),
    action!(b"set_vlan_vid", Mod, Exact(VlanVid), Vlan),
    action!(b"set_vlan_pcp", Mod, Exact(VlanPcp), Number),
    action!(b"mod_vlan_vid", Tag, Exact(VlanVid), Vlan),
    action!(b"mod_vlan_pcp", Tag, Exact(VlanPcp), Number),
    action!(b"dec_ttl", DecTtl),
    action!(b"mod_nw_ttl", SetTtl),
    action!(b"set_nw_ttl", SetTtl),
    action!(b"write_actions", Write),
    action!(b"clear_actions", Clear),
    action!(b"write_metadata", Metadata),
    action!(b"goto_table", Goto),
    action!(b"resubmit", Resubmit),
];

impl ActionWord {
    /// The word of this text, in any case.
    #[tactic(auto, unfolding(crate::specs::ActionWords::action_named))]
    pub fn named(text: &[u8]) -> Option<ActionWord>
        ensures { result ≡ action_named text.now }
    {
        ACTION_WORDS
            .iter()
            .copied()
            .find(|word| is_keyword_in_any_case(&word.text, text))
    }
}
