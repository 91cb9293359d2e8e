//! A law of the sentences.
ghost use Rattle.std.specs.Prelude.{List, IfSome, IsSome};
ghost use Rattle.of_text.specs.{First.first_refusal, Flows.Flow, Groups.TextGroup};
ghost use Rattle.of_hints.specs.Sentences.{sentence_of};

/// Each error that a group or a flow of a flow text is refused with has a sentence.
pub fn refusals_have_sentences()
    ensures { (groups : List TextGroup) (flows : List Flow) → IfSome (first_refusal groups flows) (λ r. IsSome (sentence_of r.1.kind r.1.code)) }
{}
