//! What verdicts mean.
ghost use Rattle.std.specs.Prelude.{◌≡◌, ℕ, List};
ghost use Rattle.of_table.specs.Table.{FlowEntry};
ghost use Rattle.of_check.specs.Verdicts as entries;
ghost use Rattle.of_shadowing.specs.{declared.listed_flow.ListedFlow.ListedFlow, Plain.ArePlain, Shadows.FlowNeverWins, Shadows.WinsIn, Shadows.FlowWinsWith, Worlds.World};

/// A flow that never wins wins in no world.
pub fn never_wins_nowhere()
    ensures { (flows : List ListedFlow) (k : ℕ) (by : List ℕ) → FlowNeverWins flows k by → (w : World) → entries.IsPacket w.packet → ¬ (WinsIn flows k w) }
{}

/// Without words, a verdict on a flow is that on the entry of a table: what is said of flow tables is the case without conditions.
pub fn plain_flows_are_entries()
    ensures never { (table : ℕ) (all : List FlowEntry) (flows : List ListedFlow) → ArePlain table all flows → (k : ℕ) (by : List ℕ) →
        FlowNeverWins flows k by → entries.NeverWins all k by }
    ensures always_never { (table : ℕ) (all : List FlowEntry) (flows : List ListedFlow) → ArePlain table all flows → (k : ℕ) (by : List ℕ) →
        entries.NeverWins all k by → FlowNeverWins flows k by }
    ensures wins { (table : ℕ) (all : List FlowEntry) (flows : List ListedFlow) → ArePlain table all flows → (k : ℕ) (p : entries.Packet) →
        FlowWinsWith flows k p → entries.WinsWith all k p }
{}
