//! Laws of what is printed.
ghost use Rattle.std.specs.Prelude.{◌≡◌, ◌++◌, ℕ, List, [], Some, false};
ghost use Rattle.std.specs.List.{flat_map};
ghost use Rattle.of_session.specs.{Session.is_disconnected, Stream.Splits};
ghost use Rattle.of_switch.specs.{Runs.chunk_in, State.State, declared.event.Event.TheVariants.Chunk};
ghost use Rattle.of_explain.specs.{Explained.echoed, Explained.effect_notes, Explained.explained, Requests.request_notes};

/// Below a row of a connected controller's bytes come the notes of each message that they complete, in order, and then
/// those of what the switch gives.
///
/// The messages are those into which the bytes that waited and those of the row split (OpenFlow 1.3.5, 6.3.2 and 7.1).
pub fn each_message_is_told()
    ensures { (n : ℕ) (s : State) (line chunk : List ℕ) (messages : List (List ℕ)) (rest : List ℕ) → is_disconnected s.connection.phase ≡ false →
        Splits (s.connection.pending ++ chunk) messages rest → explained n s line (Some (Chunk chunk)) ≡ echoed n line ++
        (flat_map request_notes messages ++ effect_notes (chunk_in chunk s).effects) }
{}
