//! Laws of the abstract switch.
ghost use Rattle.std.specs.Prelude.{◌≡◌, ◌≢◌, ◌<◌, ◌+◌, ◌++◌, ◌∷◌, [], ℕ, List, Some, None, true, false, length, map, take, flat_map, slice_get};
ghost use Rattle.of_wire.specs.{declared.limits.TheConstants.OFP_NO_BUFFER, declared.code.Code.Code as ErrorCode};
ghost use Rattle.of_datapath.specs.Buffers.{HeldFrames, held, is_id, last_id, most_held};
ghost use Rattle.of_datapath.specs.Told.{effects_of, frames_for, given_items, held_after, held_of, id_after_all, is_held, limit_of, packet_in_of};
ghost use Rattle.of_datapath.specs.{declared.control.AsyncConfig.AsyncConfig, declared.effect.Effect.TheVariants.Answer};
ghost use Rattle.of_machine.specs.{declared.data.Item.Item, declared.data.Item.TheVariants.PacketIn, declared.data.ToController.ToController};
ghost use Rattle.of_ports.specs.declared.port.Port.{Port};
ghost use Rattle.of_messages.specs.Written.{error_bytes};
ghost use Rattle.of_session.specs.{Session.is_disconnected, Session.message_taken, Stream.Splits};
ghost use Rattle.of_text.specs.Configs.{Configuration, IsConfig};
ghost use Rattle.of_switch.specs.Calling.{AreMade, Deed, Made, calls_of, event_of, others, deed_report};
ghost use Rattle.of_switch.specs.Steps.{IsRefusedWith, coming, failed_of, gives, next_of};
ghost use Rattle.of_switch.specs.Runs.{Report, RunsAll, StopsWithin, behind_effects, come, drained, effects_in, handled_in_turn, chunk_in, rest_of, run};
ghost use Rattle.of_switch.specs.{Loading.config_of, Loading.loaded, State.State, declared.event.Event.Event};

/// Bytes that come in two chunks do what they do in one.
///
/// What the first chunk gives comes before what the second gives; where the first ends the connection, the second is lost.
pub fn two_chunks()
    ensures { (first second : List ℕ) (s : State) → is_disconnected s.connection.phase ≡ false →
        chunk_in (first ++ second) s ≡ behind_effects (chunk_in first s).effects (drained (come second (chunk_in first s).state)) }
{}

/// A chunk handles the messages in the bytes that waited and its own, one after the other, up to the one that ends the connection.
///
/// What is left at the end is malformed and ends the connection, or it waits. After a chunk nothing is left to handle.
pub fn chunk_handles_its_messages()
    ensures in_turn { (chunk : List ℕ) (s : State) (messages : List (List ℕ)) (rest : List ℕ) → is_disconnected s.connection.phase ≡ false →
        Splits (s.connection.pending ++ chunk) messages rest → chunk_in chunk s ≡ handled_in_turn (messages ++ rest ∷ []) s }
    ensures all { (chunk : List ℕ) (s : State) → next_of (chunk_in chunk s).state ≡ None }
{}

/// A message that is refused is answered by an ERROR of its code with its first 64 bytes, and changes nothing else.
pub fn refusal_changes_nothing()
    ensures { (s : State) (xid size : ℕ) (code : ErrorCode) → IsRefusedWith (coming s) s.core xid size code →
        next_of s ≡
        Some (gives (Answer (error_bytes xid code (failed_of size s.connection)) ∷ []) (record s { connection = message_taken size s.connection })) }
{}

/// The configuration of a switch that a configuration was loaded into is that configuration.
pub fn loaded_is_told()
    ensures { (c : Configuration) (s : State) → IsConfig c → config_of (loaded c s) ≡ c }
{}

/// The id in a PACKET_IN is the one under which its frame is held (OpenFlow 1.3.5, 7.4.1).
///
/// Of what a run emitted, each item that is given is told by the effect at its place. Where its frame is held, the PACKET_IN has the id
/// that was next then, which is never OFP_NO_BUFFER; once all frames were held, exactly that frame with its ingress port is held under
/// it, if fewer than 256 came later. Else it has OFP_NO_BUFFER and the whole frame. No two of them have the same id, unless the ids
/// have gone round between them; and the next run's ids go on after the last.
pub fn ids_told_are_ids_held()
    ensures told { (heard : AsyncConfig) (ports : List Port) (b : HeldFrames) (items first rest : List Item) (p : ToController) →
        given_items heard ports items ≡ first ++ PacketIn p ∷ rest → is_held heard p ≡ true →
        slice_get (effects_of heard ports b items) (length first) ≡ Some (packet_in_of p (id_after_all heard b.next first) (take (limit_of heard p) p.frame)) }
    ensures held { (heard : AsyncConfig) (ports : List Port) (b : HeldFrames) (items first rest : List Item) (p : ToController) → is_id b.next ≡ true →
        given_items heard ports items ≡ first ++ PacketIn p ∷ rest → is_held heard p ≡ true → length (flat_map (frames_for heard) rest) < most_held →
        held (id_after_all heard b.next first) (held_after heard ports b items) ≡ Some (held_of p) }
    ensures whole { (heard : AsyncConfig) (ports : List Port) (b : HeldFrames) (items first rest : List Item) (p : ToController) →
        given_items heard ports items ≡ first ++ PacketIn p ∷ rest → is_held heard p ≡ false →
        slice_get (effects_of heard ports b items) (length first) ≡ Some (packet_in_of p OFP_NO_BUFFER p.frame) }
    ensures ids { (heard : AsyncConfig) (b : HeldFrames) (first : List Item) → is_id b.next ≡ true → is_id (id_after_all heard b.next first) ≡ true }
    ensures distinct { (heard : AsyncConfig) (b : HeldFrames) (first more : List Item) (p : ToController) → is_id b.next ≡ true → is_held heard p ≡ true →
        length (flat_map (frames_for heard) more) + 1 < last_id → id_after_all heard b.next (first ++ PacketIn p ∷ more) ≢ id_after_all heard b.next first }
    ensures next { (heard : AsyncConfig) (ports : List Port) (b : HeldFrames) (items : List Item) →
        (held_after heard ports b items).next ≡ id_after_all heard b.next (given_items heard ports items) }
{}

/// A call for which memory ran out changes nothing: what other calls do is as if it had not been made, whether it is made again or not.
///
/// If these are the calls of events, one after the other, their run has given what they gave. So a chunk whose handling was broken off
/// between two messages and went on later, with nothing else between, is as if it had been handled at once.
pub fn no_memory_changes_nothing()
    ensures others { (calls : List Made) (s t : State) → AreMade calls s t → AreMade (others calls) s t }
    ensures run { (calls : List Made) (deeds : List Deed) (s t : State) → AreMade calls s t → others calls ≡ flat_map calls_of deeds →
        run (map event_of deeds) s ≡ record { reports = map deed_report deeds; state = t } }
{}

/// An event for which memory ran out in `run` goes on when `run` is called with what is left of it: the event again, if nothing was
/// reported, and else a chunk of no bytes, since it was a chunk that was broken off between two messages.
///
/// When that has happened, what was given and the state after it are as if the event had not been interrupted; if it is interrupted
/// again, as if it had been interrupted once.
pub fn interrupted_events_go_on()
    ensures happened { (event : Event) (s t u : State) (more last : List Report) → StopsWithin (event ∷ []) s t [] more →
        RunsAll (rest_of event more ∷ []) t u [] last → (u ≡ (run (event ∷ []) s).state) ×
        (effects_in (more ++ last) ≡ effects_in (run (event ∷ []) s).reports) }
    ensures again { (event : Event) (s t u : State) (more last : List Report) → StopsWithin (event ∷ []) s t [] more →
        StopsWithin (rest_of event more ∷ []) t u [] last → StopsWithin (event ∷ []) s u [] (more ++ last) }
{}
