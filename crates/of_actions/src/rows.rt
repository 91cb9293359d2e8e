//! The table of actions (OpenFlow 1.3.5, 5.10 and 7.2.5).
ghost use Rattle.std.specs.Prelude.{◌≡◌};
ghost use Rattle.of_actions.specs.Rows.{action_row as row_of_type};

/// What an action says beside its type and its length.
#[derive(Clone, Copy, PartialEq, Eq)]
pub enum Form {
    Nothing,
    /// A number of one byte.
    Byte,
    /// The type of a VLAN tag, 0x8100 or 0x88a8.
    Tag,
    /// A number of four bytes.
    Word,
    /// A port, and how many bytes of the packet a controller is to get.
    Port,
    /// A field that may be set, and a value of it.
    Field,
}

/// One action.
#[derive(Clone, Copy)]
pub struct ActionRow {
    /// OFPAT_*: its type.
    pub kind: u16,
    /// Its word in flow text, filled up by spaces.
    pub word: [u8; 12],
    /// The place of its kind in the order in which an action set is executed (OpenFlow 1.3.5, 5.10); that of a field comes on top.
    pub rank: u8,
    pub form: Form,
}

/// OFPAT_OUTPUT.
pub const OUTPUT: ActionRow = ActionRow {
    kind: 0,
    word: *b"output      ",
    rank: 41,
    form: Form::Port,
};

/// OFPAT_PUSH_VLAN.
pub const PUSH_VLAN: ActionRow = ActionRow {
    kind: 17,
    word: *b"push_vlan   ",
    rank: 1,
    form: Form::Tag,
};

/// OFPAT_POP_VLAN.
pub const POP_VLAN: ActionRow = ActionRow {
    kind: 18,
    word: *b"pop_vlan    ",
    rank: 0,
    form: Form::Nothing,
};

/// OFPAT_GROUP.
pub const GROUP: ActionRow = ActionRow {
    kind: 22,
    word: *b"to_group    ",
    rank: 40,
    form: Form::Word,
};

/// OFPAT_SET_NW_TTL.
pub const SET_NW_TTL: ActionRow = ActionRow {
    kind: 23,
    word: *b"set_nw_ttl  ",
    rank: 3,
    form: Form::Byte,
};

/// OFPAT_DEC_NW_TTL.
pub const DEC_NW_TTL: ActionRow = ActionRow {
    kind: 24,
    word: *b"dec_nw_ttl  ",
    rank: 2,
    form: Form::Nothing,
};

/// OFPAT_SET_FIELD.
pub const SET_FIELD: ActionRow = ActionRow {
    kind: 25,
    word: *b"set         ",
    rank: 4,
    form: Form::Field,
};

/// All actions of this switch, by ascending type.
pub const ACTIONS: [ActionRow; 7] = [
    OUTPUT, PUSH_VLAN, POP_VLAN, GROUP, SET_NW_TTL, DEC_NW_TTL, SET_FIELD,
];

/// The row of a type.
pub fn row_of(kind: u16) -> Option<ActionRow>
    ensures { result ≡ row_of_type kind }
{
    ACTIONS.iter().copied().find(|row| row.kind == kind)
}
