//! Laws of the grammar of messages, joined to what reads them.
ghost use Rattle.std.specs.Prelude.{◌≡◌, ◌==◌, ◌++◌, ℕ, List, [], true, None, Ok, Err};
ghost use Rattle.std.specs.List.{All, list_any};
ghost use Rattle.of_wire.specs.{declared.code.Code.Code, declared.codes.TheConstants.OFPBRC_IS_SLAVE};
ghost use Rattle.of_actions.specs.{Actions.AreActions, InstructionLists.are_for, InstructionLists.are_kept, Instructions.EncodesInstructions, Supported.are_supported, declared.action.Action.Action};
ghost use Rattle.of_actions.specs.declared.instruction.Instruction.{Instruction};
ghost use Rattle.of_messages.specs.{Messages.message_from, Messages.message_of, Messages.xid_of, declared.message.Message.Message, declared.role.Role.TheVariants.Slave};
ghost use Rattle.of_laws.specs.{ActionStructs.action_type, ActionStructs.action_types, ActionStructs.AreStructs, Grammar.changes_switch, Grammar.MaySend, Grammar.Encodes};
ghost use Rattle.of_laws.specs.{InstructionStructs.AreInAnyOrder, Told.EncodesSwitchMessage, Told.Told};

use of_messages::Role;

/// What `of_messages::read_message` returns for bytes is the message that they encode, and it returns a message for all bytes
/// that encode one (OpenFlow 1.3.5, 7), whatever type of message it is. For others it returns the first code of the written
/// order.
pub fn read_exactly(bytes: &[u8])
    ensures found { (m : Message) → message_of bytes.now ≡ Ok m → Encodes (xid_of bytes.now) m bytes.now }
    ensures only { (xid : ℕ) (m : Message) → Encodes xid m bytes.now → (xid ≡ xid_of bytes.now) × (message_of bytes.now ≡ Ok m) }
    ensures other { ((xid : ℕ) (m : Message) → ¬ Encodes xid m bytes.now) → (code : Code) × (message_of bytes.now ≡ Err code) }
{}

/// The same for a controller's role, as `of_messages::read_message_as` returns it: what is read is encoded, and its sender may
/// send it; what is encoded and may be sent is read; and what is encoded and a slave may not send is refused as that, OFPBRC_IS_SLAVE
/// (OpenFlow 1.3.5, 6.3.4).
pub fn read_as_exactly(role: Role, bytes: &[u8])
    ensures found { (m : Message) → message_from role bytes.now ≡ Ok m → Encodes (xid_of bytes.now) m bytes.now × MaySend role m }
    ensures only { (xid : ℕ) (m : Message) → Encodes xid m bytes.now → MaySend role m → message_from role bytes.now ≡ Ok m }
    ensures slave { (xid : ℕ) (m : Message) → Encodes xid m bytes.now → changes_switch m ≡ true → message_from Slave bytes.now ≡ Err OFPBRC_IS_SLAVE }
{}

/// No bytes encode two messages of a controller or of this switch, or have two transaction ids.
pub fn one_message()
    ensures message { (x y : ℕ) (v w : Message) (bytes : List ℕ) → Encodes x v bytes → Encodes y w bytes → (x ≡ y) × (v ≡ w) }
    ensures told { (x y : ℕ) (t u : Told) (bytes : List ℕ) → EncodesSwitchMessage x t bytes → EncodesSwitchMessage y u bytes → (x ≡ y) × (t ≡ u) }
{}

/// No encoding begins another one's, of messages of a controller or of this switch.
pub fn no_encoding_begins_another()
    ensures message { (x y : ℕ) (v w : Message) (bytes more : List ℕ) → Encodes x v bytes → Encodes y w (bytes ++ more) → more ≡ [] }
    ensures told { (x y : ℕ) (t u : Told) (bytes more : List ℕ) → EncodesSwitchMessage x t bytes → EncodesSwitchMessage y u (bytes ++ more) → more ≡ [] }
{}

/// Bytes are read as these actions, in a PACKET_OUT or in an instruction, exactly where they are the actions' structs and the
/// actions may be sent (OpenFlow 1.3.5, 7.2.5): so what is accepted differs from what is written in padding alone.
pub fn actions_are_structs(packet_out: bool, bytes: &[u8])
    ensures found { (actions : List Action) → AreActions packet_out [] bytes.now actions None →
        AreStructs actions bytes.now × (are_supported packet_out actions ≡ true) }
    ensures only { (actions : List Action) → AreStructs actions bytes.now → are_supported packet_out actions ≡ true →
        AreActions packet_out [] bytes.now actions None }
{}

/// `action_types` lists the type of each action, and no other (OpenFlow 1.3.5, 7.2.5): those that GROUP_FEATURES reports.
pub fn action_types_are_all()
    ensures listed { (a : Action) → list_any (λ n. n == action_type a) action_types ≡ true }
    ensures only { All (λ n. (a : Action) × (action_type a ≡ n)) action_types }
{}

/// Bytes are read as these instructions of an entry of the table exactly where they are the instructions' structs in any order, no
/// two of one type, and such an entry may have them (OpenFlow 1.3.5, 5.9 and 7.2.4): so what is accepted differs from what is
/// written in padding and order alone.
pub fn instructions_are_structs(table: u8, bytes: &[u8])
    ensures found { (instructions : List Instruction) → EncodesInstructions table bytes.now instructions →
        AreInAnyOrder instructions bytes.now × (are_kept instructions ≡ true) × (are_for table instructions ≡ true) }
    ensures only { (instructions : List Instruction) → AreInAnyOrder instructions bytes.now → are_kept instructions ≡ true → are_for table instructions ≡ true →
        EncodesInstructions table bytes.now instructions }
{}
