//! The tables that code and definitions read are those of the standard.
ghost use Rattle.std.specs.Prelude.{◌≡◌, ◌∷◌, [], map};
ghost use Rattle.of_wire.specs.declared.limits.TheConstants.{OFPCML_NO_BUFFER, OFPFF_CHECK_OVERLAP, OFPFF_NO_BYT_COUNTS, OFPFF_NO_PKT_COUNTS, OFPFF_RESET_COUNTS, OFPFF_SEND_FLOW_REM, OFPG_ALL, OFPG_ANY, OFPG_MAX, OFPP_ALL, OFPP_ANY, OFPP_CONTROLLER, OFPP_FLOOD, OFPP_IN_PORT, OFPP_LOCAL, OFPP_MAX, OFPP_NORMAL, OFPP_TABLE, OFPTT_ALL, OFP_NO_BUFFER};
ghost use Rattle.of_actions.specs.declared.rows.TheConstants.{ACTIONS};
ghost use Rattle.of_formats.specs.declared.messages.TheConstants.{MESSAGES};
ghost use Rattle.of_messages.specs.declared.message.TheConstants.{COMMANDS};
ghost use Rattle.of_laws.specs.Standard.{actions as actions_of_standard, commands, flow_mod_flags, further_numbers, group_numbers, messages as messages_of_standard, reserved_ports};

/// The tables and limits of the code, which definitions cite, have the numbers of OpenFlow 1.3.5 as they are written in the definitions of
/// this crate. So a wrong row of a table is refused here, although reader, writer and definitions would agree on it.
pub fn tables_are_of_the_standard()
    ensures actions { map (λ row. (row.kind, row.rank)) ACTIONS ≡ actions_of_standard }
    ensures messages { map (λ row. (row.kind, row.size, row.way, row.changes)) MESSAGES ≡ messages_of_standard }
    ensures commands { COMMANDS ≡ commands }
    ensures ports { OFPP_MAX ∷ OFPP_IN_PORT ∷ OFPP_TABLE ∷ OFPP_NORMAL ∷ OFPP_FLOOD ∷ OFPP_ALL ∷ OFPP_CONTROLLER ∷ OFPP_LOCAL ∷ OFPP_ANY ∷ [] ≡ reserved_ports }
    ensures groups { OFPG_MAX ∷ OFPG_ALL ∷ OFPG_ANY ∷ [] ≡ group_numbers }
    ensures flags { OFPFF_SEND_FLOW_REM ∷ OFPFF_CHECK_OVERLAP ∷ OFPFF_RESET_COUNTS ∷ OFPFF_NO_PKT_COUNTS ∷ OFPFF_NO_BYT_COUNTS ∷ [] ≡ flow_mod_flags }
    ensures further { OFPTT_ALL ∷ OFP_NO_BUFFER ∷ OFPCML_NO_BUFFER ∷ [] ≡ further_numbers }
{}
