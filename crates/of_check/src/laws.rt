//! What verdicts and remarks mean, and what comes of a file.
ghost use Rattle.std.specs.Prelude.{◌≡◌, ◌≢◌, ◌≤◌, ◌<◌, ◌∷◌, ℕ, Bool, false, List, [], Option, Some, Ok, IsSome, ◌^◌, ◌++◌, true, length};
ghost use Rattle.std.specs.List.{Contains, list_any};
ghost use Rattle.of_layers.specs.{declared.field.Field.Field, Reading.layers_of, WellFormed.AreBytes};
ghost use Rattle.of_headers.specs.FieldMap.{field_map};
ghost use Rattle.of_actions.specs.{declared.action.Action.Action, declared.action.Action.TheVariants.Output, PortNumbers.is_number, declared.instruction.Instruction.Instruction};
ghost use Rattle.of_table.specs.{Table.FlowEntry, Table.winner_place, declared.flow.Flow.Flow};
ghost use Rattle.of_oxm.specs.declared.match_field.MatchField.{MatchField};
ghost use Rattle.of_action_set.specs.Sets.{in_order};
ghost use Rattle.of_text.specs.Configs.{IsConfig};
ghost use Rattle.of_check.specs.{Tables.IsReached, Tables.is_reached, Actions.is_used_later, Actions.may_send_packet, Actions.required_port, Reached.AtTables, Rules.implied_fields};
ghost use Rattle.of_check.specs.{Unseen.ComesUnseen, Verdicts.IsPacket, Verdicts.NeverWins, Verdicts.Packet, Verdicts.fields_of};
ghost use Rattle.of_machine.specs.Rows.{Act, Lookup as LookUp, RunSet, Task, Work, acts, entering, key_of, task, works};
ghost use Rattle.of_machine.specs.Runs.{Machine, after, run_of, starting, step};
ghost use Rattle.of_machine.specs.{declared.data.Packet.Packet as PacketInRun, Sound.IsSound, TheWorld.TheWorld, declared.data.Step.TheVariants.Act as DidAct};
ghost use Rattle.of_datapath.specs.{Datapath.Forwarding, Datapath.flow_in, Datapath.winner_in, Datapath.world_of, Loading.configuration_of};
ghost use Rattle.of_replay.specs.{Told.Known, Told.Left, FileRuns.Runs, FileRuns.TextOf, FileRuns.event_file, FileRuns.flow_text, declared.event_file.Ended.TheVariants.Done};

/// An entry that never wins is the winner of no packet.
pub fn never_is_never()
    ensures { (flows : List FlowEntry) (k : ℕ) (by : List ℕ) → NeverWins flows k by → (p : Packet) → IsPacket p →
        ¬ (winner_place (fields_of p) flows ≡ Some k) }
{}

/// A frame that has a field has those that stand with it in a header (OpenFlow 1.3.5, 7.2.3.7).
pub fn fields_go_together()
    ensures { (frame : List ℕ) (in_port metadata : ℕ) → AreBytes frame → 14 ≤ length frame → (f g : Field) → Contains (implied_fields f) g →
        IsSome (field_map (layers_of frame) in_port metadata f) → IsSome (field_map (layers_of frame) in_port metadata g) }
{}

/// A run looks packets up in tables alone that packets come to: by some way of GOTO_TABLEs from table 0, as `IsReached` says (OpenFlow 1.3.5,
/// 5.1 and 5.9). So no packet is looked up in a table of which `check` remarks that it is unreachable, and no entry of it matches one: neither of a
/// frame that is received nor of a PACKET_OUT.
pub fn runs_stay_at_reached_tables()
    ensures frames { (f : Forwarding) (p : PacketInRun) →
        AtTables (IsReached (configuration_of f).tables) (run_of (world_of f) p (LookUp 0 ∷ [])).lines }
    ensures packet_outs { (f : Forwarding) (p : PacketInRun) (actions : List Action) →
        AtTables (IsReached (configuration_of f).tables) (run_of (world_of f) p (acts actions)).lines }
    ensures unreachable { (f : Forwarding) (p : PacketInRun) (table : ℕ) → IsConfig (configuration_of f) → table < 16 →
        is_reached (configuration_of f).tables table ≡ false → AtTables (λ t. t ≢ table) (run_of (world_of f) p (LookUp 0 ∷ [])).lines }
    ensures unreachable_by_packet_outs { (f : Forwarding) (p : PacketInRun) (actions : List Action) (table : ℕ) → IsConfig (configuration_of f) →
        table < 16 → is_reached (configuration_of f).tables table ≡ false → AtTables (λ t. t ≢ table) (run_of (world_of f) p (acts actions)).lines }
{}

/// Nothing leaves by the port that a packet came by, where an OUTPUT names it by its number, and nothing is counted: of a run, at each step that does
/// such an OUTPUT, only the packet's work and the lines change (OpenFlow 1.3.5, 4.5 and 7.2.5). An entry whose match requires a port is the winner of
/// packets alone that came by it; so no OUTPUT of which `check` remarks that it is to the ingress port sends anything.
pub fn nothing_leaves_by_the_ingress_port()
    ensures drops { (w : TheWorld) (p : PacketInRun) (work : List Work) (k max_len : ℕ) (q : PacketInRun) (rest : List Work) (others : List Task) →
        is_number p.ingress ≡ true → (after w k (starting p work)).tasks ≡ task q (Act (Output p.ingress max_len) ∷ rest) ∷ others →
        step w (after w k (starting p work)) ≡ record (after w k (starting p work)) {
          tasks = task q rest ∷ others;
          lines = (after w k (starting p work)).lines ++ DidAct (Output p.ingress max_len) ∷ [];
        } }
    ensures came_by { (f : Forwarding) (t n : ℕ) (q : PacketInRun) (flow : Flow) (e : MatchField) (port : ℕ) → q.ingress < 2 ^ 32 →
        winner_in f t (key_of q) ≡ Some n → flow_in f t n ≡ Some flow → Contains flow.fields e → required_port e ≡ Some port → q.ingress ≡ port }
{}

/// Last actions are unseen: where a packet has only actions to do that may not send, and an action set to run then that holds none that may, it ends,
/// and nothing is emitted or counted, whatever they made of the frame (OpenFlow 1.3.5, 5.10 and 5.12). So it is in the run of a frame that is
/// received, where the actions are those of an entry of which `check` remarks that its last actions are unseen: nothing uses the packet later.
pub fn last_actions_are_unseen()
    ensures silent { (w : TheWorld) (m : Machine) (p : PacketInRun) (actions : List Action) (others : List Task) → list_any may_send_packet actions ≡ false →
        list_any may_send_packet (in_order p.action_set) ≡ false → m.tasks ≡ task p (acts actions ++ RunSet ∷ []) ∷ others → ComesUnseen w m others }
    ensures remarked { (f : Forwarding) → IsSound (world_of f) → (frame : List ℕ) (port k : ℕ) (q : PacketInRun) (first : Action) (actions : List Action)
        (later : List Instruction) (others : List Task) →
        (after (world_of f) k (starting (entering frame port) (LookUp 0 ∷ []))).tasks ≡ task q (Act first ∷ acts actions ++ works later) ∷ others →
        may_send_packet first ≡ false → list_any may_send_packet actions ≡ false →
        is_used_later (configuration_of f).tables q.table later ≡ false →
        ComesUnseen (world_of f) (after (world_of f) k (starting (entering frame port) (LookUp 0 ∷ []))) others }
{}
