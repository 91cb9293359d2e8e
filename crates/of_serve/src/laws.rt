//! Laws of serving.
ghost use Rattle.std.specs.Prelude.{◌≡◌, ◌+◌, [], Some, map, true};
ghost use Rattle.of_session.specs.Session.{is_disconnected};
ghost use Rattle.of_serve.specs.Turns.{ServeState, CutTurn, IsCutTurn, ServeTurns, AreServeTurns, failures, after_serve_turns, then_known, took, breaks};
ghost use Rattle.of_serve.specs.{Told.then_onto, Connections.AllTookPrefixes, Connections.broken_among, Connections.connections, Connections.cut_connections};

/// What each connection took is all that the switch answered it, or where a write to it failed a prefix of that; and as
/// many writes failed as there are connections to which one failed. So it is with a turn at the end that running out of
/// memory cut short.
pub fn connections_take_prefixes()
    ensures fronts { (s : ServeState) (ts : ServeTurns) → AreServeTurns s ts → AllTookPrefixes (connections s ts) }
    ensures failed { (s : ServeState) (ts : ServeTurns) → is_disconnected s.state.connection.phase ≡ true → AreServeTurns s ts →
        breaks ts ≡ broken_among (connections s ts) }
    ensures taken { (s : ServeState) (ts : ServeTurns) → took (Some []) ts ≡ Some (map (λ c. c.taken) (connections s ts)) }
    ensures cut_prefixes { (s : ServeState) (ts : ServeTurns) (t : CutTurn) → AreServeTurns s ts → IsCutTurn t (after_serve_turns s ts) →
        AllTookPrefixes (cut_connections s ts t) }
    ensures cut_failed { (s : ServeState) (ts : ServeTurns) (t : CutTurn) → is_disconnected s.state.connection.phase ≡ true → AreServeTurns s ts →
        IsCutTurn t (after_serve_turns s ts) → breaks ts + failures t.broke ≡ broken_among (cut_connections s ts t) }
    ensures cut_taken { (s : ServeState) (ts : ServeTurns) (t : CutTurn) → then_onto (then_known (took (Some []) ts) t.known) t.taken ≡
        Some (map (λ c. c.taken) (cut_connections s ts t)) }
{}
