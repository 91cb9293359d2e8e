//! Laws of the grammar of messages, joined to what writes them. That numbers fit their bytes is what the types of a writer's
//! arguments say, and so are the others' premises: that a match is in its normal form, and that instructions and buckets are
//! such as their lists hold.
ghost use Rattle.std.specs.Prelude.{◌≡◌, ◌≤◌, ◌<◌, ◌^◌, ℕ, true, List, [], length, Option, Ok};
ghost use Rattle.std.specs.List.{list_all};
ghost use Rattle.of_wire.specs.declared.code.Code.{Code};
ghost use Rattle.of_oxm.specs.{declared.match_field.MatchField.MatchField, NormalForm.IsMatch};
ghost use Rattle.of_actions.specs.InstructionLists.{are_for, are_kept};
ghost use Rattle.of_groups.specs.Buckets.{are_fit};
ghost use Rattle.of_messages.specs.Written.{async_reply_bytes, barrier_reply_bytes, config_reply_bytes, echo_reply_bytes, error_bytes, features_reply_bytes, flow_mod_bytes, flow_removed_bytes, hello_bytes, packet_in_bytes, port_status_bytes, role_reply_bytes};
ghost use Rattle.of_messages.specs.{CanonicalGroups.as_written, CanonicalGroups.group_add_bytes, CanonicalGroups.has_numbers, Messages.message_of, Roles.generation_number};
ghost use Rattle.of_messages.specs.{declared.async_masks.AsyncMasks.AsyncMasks, declared.config.SwitchConfig.SwitchConfig, declared.group_mod.GroupMod.TheVariants.Add};
ghost use Rattle.of_messages.specs.{declared.group_mod.NewGroup.NewGroup, declared.message.FlowMod.FlowMod, declared.message.FlowRemoved.FlowRemoved};
ghost use Rattle.of_messages.specs.{declared.message.Message.TheVariants.FlowMod as IsFlowMod, declared.message.Message.TheVariants.GroupMod as IsGroupMod, declared.message.PacketIn.PacketIn};
ghost use Rattle.of_messages.specs.{declared.port_mod.PortDescription.PortDescription, declared.port_mod.PortStatusReason.PortStatusReason, declared.role.Role.Role};
ghost use Rattle.of_laws.specs.Told.{EncodesSwitchMessage, told_cells, hello, error, echo_reply, features_reply, config_reply, packet_in, flow_removed, port_status, barrier_reply, role_reply, async_reply};
ghost use Rattle.of_laws.specs.{Cells.FitsCells, Grammar.deletes, Grammar.flow_mod_cells, Grammar.IsValidFlowMod, Grammar.Encodes};

/// The FLOW_MOD that `of_messages::write_flow_mod` writes encodes what was written, and is read as that; of a FLOW_MOD that a
/// controller may send, whose DELETE commands have no instructions (OpenFlow 1.3.5, 7.3.4.1).
pub fn written_flow_mod_is_encoded()
    ensures encoded { (xid : ℕ) (m : FlowMod) → xid < 256 ^ 4 → FitsCells (flow_mod_cells m) → IsValidFlowMod m → IsMatch m.fields →
        are_kept m.instructions ≡ true →
        are_for m.table m.instructions ≡ true → (deletes m.command ≡ true → m.instructions ≡ []) → Encodes xid (IsFlowMod m) (flow_mod_bytes xid m) }
    ensures read { (xid : ℕ) (m : FlowMod) → xid < 256 ^ 4 → FitsCells (flow_mod_cells m) → IsValidFlowMod m → IsMatch m.fields →
        are_kept m.instructions ≡ true →
        are_for m.table m.instructions ≡ true → (deletes m.command ≡ true → m.instructions ≡ []) → message_of (flow_mod_bytes xid m) ≡ Ok (IsFlowMod m) }
{}

/// The GROUP_MOD that `of_messages::write_group_mod` writes to add a group encodes that, with buckets whose counters are 0
/// (OpenFlow 1.3.5, 7.3.4.2).
pub fn written_group_mod_is_encoded()
    ensures { (xid : ℕ) (g : NewGroup) → xid < 256 ^ 4 → g.id ≤ 0xffffff00 → list_all has_numbers g.buckets ≡ true → are_fit g.buckets ≡ true →
        Encodes xid (IsGroupMod (Add (as_written g))) (group_add_bytes xid g) }
{}

/// What each writer of of_messages writes for the switch is encoded: HELLO, ERROR, ECHO_REPLY, FEATURES_REPLY, GET_CONFIG_REPLY,
/// PACKET_IN, FLOW_REMOVED, PORT_STATUS, BARRIER_REPLY, ROLE_REPLY and GET_ASYNC_REPLY.
pub fn written_is_told()
    ensures hello { EncodesSwitchMessage 0 (hello 16) hello_bytes }
    ensures error { (xid : ℕ) (code : Code) (failed : List ℕ) → xid < 256 ^ 4 → FitsCells (told_cells (error code failed)) → length failed ≤ 65523 →
        EncodesSwitchMessage xid (error code failed) (error_bytes xid code failed) }
    ensures echo_reply { (xid : ℕ) (echoed : List ℕ) → xid < 256 ^ 4 → length echoed ≤ 65527 →
        EncodesSwitchMessage xid (echo_reply echoed) (echo_reply_bytes xid echoed) }
    ensures features_reply { (xid dpid : ℕ) → xid < 256 ^ 4 → dpid < 256 ^ 8 → EncodesSwitchMessage xid (features_reply dpid) (features_reply_bytes xid dpid) }
    ensures config_reply { (xid : ℕ) (config : SwitchConfig) → xid < 256 ^ 4 → config.miss_send_len < 256 ^ 2 →
        EncodesSwitchMessage xid (config_reply config) (config_reply_bytes xid config) }
    ensures packet_in { (xid : ℕ) (p : PacketIn) («data» : List ℕ) → xid < 256 ^ 4 → FitsCells (told_cells (packet_in p «data»)) → p.in_port < 256 ^ 4 →
        p.metadata < 256 ^ 8 → length «data» ≤ 65485 → EncodesSwitchMessage xid (packet_in p «data») (packet_in_bytes xid p «data») }
    ensures flow_removed { (xid : ℕ) (r : FlowRemoved) (fields : List MatchField) → xid < 256 ^ 4 → FitsCells (told_cells (flow_removed r fields)) →
        IsMatch fields →
        EncodesSwitchMessage xid (flow_removed r fields) (flow_removed_bytes xid r fields) }
    ensures port_status { (xid : ℕ) (reason : PortStatusReason) (port : PortDescription) → xid < 256 ^ 4 → FitsCells (told_cells (port_status reason port)) →
        EncodesSwitchMessage xid (port_status reason port) (port_status_bytes xid reason port) }
    ensures barrier_reply { (xid : ℕ) → xid < 256 ^ 4 → EncodesSwitchMessage xid barrier_reply (barrier_reply_bytes xid) }
    ensures role_reply { (xid : ℕ) (role : Role) (generation : Option ℕ) → xid < 256 ^ 4 → generation_number generation < 256 ^ 8 →
        EncodesSwitchMessage xid (role_reply role (generation_number generation)) (role_reply_bytes xid role generation) }
    ensures async_reply { (xid : ℕ) (masks : AsyncMasks) → xid < 256 ^ 4 → FitsCells (told_cells (async_reply masks)) →
        EncodesSwitchMessage xid (async_reply masks) (async_reply_bytes xid masks) }
{}
