//! Laws of the round trip of flow texts, by the file that `asm` writes.
ghost use Rattle.std.specs.Prelude.{◌≡◌, ◌<◌, ◌++◌, ℕ, List, length, None, Option, Some, false, true};
ghost use Rattle.std.specs.List.{AllByRecursion, flat_map};
ghost use Rattle.of_wire.specs.{Items.outcome, Refusals.first_of};
ghost use Rattle.of_oxm.specs.{Canonical.canonical, MatchReading.match_of, NormalForm.IsAscending, declared.match_field.MatchField.MatchField};
ghost use Rattle.of_actions.specs.{declared.action.Action.Action, declared.instruction.Instruction.Instruction, Actions.actions_said, CanonicalActions.canonical_actions};
ghost use Rattle.of_actions.specs.{CanonicalInstructions.canonical_instructions, InstructionLists.run_place, InstructionReading.instructions_in_bytes, Rising.is_ascending};
ghost use Rattle.of_messages.specs.{CanonicalGroups.group_add_bytes, Messages.message_of, Written.flow_mod_bytes};
ghost use Rattle.of_text.specs.Refusals.{flow_refusals, goto_refusals, instruction_refusals, list_refusals, match_refusals};
ghost use Rattle.of_text.specs.{Groups.TextGroup, Flows.Flow, Rows.ActionFits, Rows.FieldFits, Configs.Configuration, Configs.EncodeConfig, Configs.config_text, Lines.lines_of as text_lines};
ghost use Rattle.of_build.specs.{Building.BuildsOf, Building.build_text, Listing.add_of, Listing.new_of};
ghost use Rattle.of_replay.specs.{Lexing.lines_of_file, FileRuns.state_after_rows, FileRuns.switch_text, Play.lines_read, Rows.rows_of_lines};
ghost use Rattle.of_laws.specs.Refused.{InstructionFits, IsSaid, IsSaidGroup, group_outcome, match_outcome, message_outcome, said_refusals};
ghost use Rattle.of_laws.specs.RoundTrip.{ComesBack};

/// The file that is built of a flow text, run on a new switch with any datapath_id, ends with the configuration that the text encodes.
///
/// No row of the file is bad, no event is refused, and no message is answered: the switch sends its own HELLO alone. But for its
/// connection it is then a new switch that the configuration was loaded into: groups and flows in their order, counters of 0.
pub fn text_comes_back()
    ensures { (text : List ℕ) (config : Configuration) (dpid : ℕ) → EncodeConfig (text_lines text) config → ComesBack dpid (build_text config) config }
{}

/// What `dis` writes of the file that `asm` wrote for a flow text is the canonical text of the configuration that the text encodes.
pub fn dis_undoes_asm()
    ensures good { (text file : List ℕ) → BuildsOf text file → (rows_of_lines (lines_read true file)).bad ≡ None }
    ensures canonical { (text file : List ℕ) (config : Configuration) → BuildsOf text file → EncodeConfig (text_lines text) config →
        switch_text (state_after_rows (rows_of_lines (lines_read true file))) ≡ config_text config }
{}

/// What is written of a flow text is refused for the text's first refusal, and else read: lists of actions, matches and
/// instructions, the FLOW_MOD that adds a flow, and the GROUP_MOD that adds a group (OpenFlow 1.3.5, 7.4.4).
///
/// Of a group the message decides its number and its buckets; what it watches, and how many there are, only the switch does.
pub fn texts_are_refused_as_messages()
    ensures actions { (actions : List Action) → AllByRecursion ActionFits actions →
        actions_said false (canonical_actions actions) ≡ outcome actions (first_of (list_refusals actions)) }
    ensures fields { (fields : List MatchField) (rest : List ℕ) → AllByRecursion FieldFits fields → IsAscending fields →
        match_of (canonical fields ++ rest) ≡ match_outcome fields (first_of (match_refusals fields)) }
    ensures instructions { (table : ℕ) (is : List Instruction) → AllByRecursion InstructionFits is → is_ascending run_place is ≡ true
        → length (canonical_instructions is) < 65528
        → instructions_in_bytes table (canonical_instructions is)
        ≡ outcome is (first_of (flat_map (goto_refusals table) is ++ flat_map instruction_refusals is)) }
    ensures flow { (xid : ℕ) (f : Flow) → IsSaid f → message_of (flow_mod_bytes xid (add_of f)) ≡ message_outcome (add_of f) (first_of (flow_refusals f)) }
    ensures group { (xid : ℕ) (g : TextGroup) → IsSaidGroup g → message_of (group_add_bytes xid (new_of g)) ≡
        group_outcome (new_of g) (first_of (said_refusals g)) }
{}
