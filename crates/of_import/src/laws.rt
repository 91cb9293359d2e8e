//! A law of the text that import writes.
ghost use Rattle.std.specs.Prelude.{◌++◌, ℕ, List};
ghost use Rattle.of_text.specs.{Configs.Configuration, Configs.EncodeConfig, Lines.lines_of};
ghost use Rattle.of_import.specs.{Counters.with_counters, Kept.Kept, Notes.notes_of, ParsedLines.FlowAt};
ghost use Rattle.of_ovs_lines.specs.PartialFlows.{Refusal};

/// The comments before a text and behind its flows change nothing of what the text encodes: with them it is read back as the same configuration.
pub fn comments_change_nothing()
    ensures before { (moves : List (ℕ × ℕ)) (faults : List (ℕ × List Refusal)) (k : Kept) (text : List ℕ) (config : Configuration) →
        EncodeConfig (lines_of text) config → EncodeConfig (lines_of (notes_of moves faults k ++ text)) config }
    ensures behind { (fs : List FlowAt) (text : List ℕ) (config : Configuration) →
        EncodeConfig (lines_of text) config → EncodeConfig (lines_of (with_counters fs text)) config }
{}
