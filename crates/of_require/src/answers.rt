//! What is found about requirements.
ghost use Rattle.std.specs.{Prelude.◌≡◌, Prelude.IfOk, Prelude.map, List.AllByRecursion};
ghost use Rattle.of_datapath.specs.{Datapath.world_of, Numbers.forwarding_of};
ghost use Rattle.of_require.specs.Answers.{IsFoundAbout, count_verdicts, is_verdict, verdict_of, worst_of};

use crate::deciding::{Decision, Verdict, decide};
use crate::line::Line;
use of_classifier::Lookup;
use of_datapath::Datapath;
use std::alloc::{AllocError, Global};

/// A requirement, and what is found about it.
#[derive(Drop)]
pub struct Answer {
    pub line: Line,
    pub decision: Decision,
}

impl Answer {
    pub fn verdict(&self) -> Verdict
        ensures { result ≡ verdict_of self.now }
    {
        self.decision.verdict(self.line.requirement.quantifier)
    }
}

/// What is found about each requirement. For each of them and each port the runs of all frames take at most so many steps together, and each search for
/// a frame as many (OpenFlow 1.3.5, 5.1).
pub fn answer_all<L: Lookup>(
    alloc: Global,
    datapath: &Datapath<L>,
    lines: Vec<Line>,
    steps: usize,
) -> Result<Vec<Answer>, AllocError>
    ensures lines { IfOk result (λ answers. map (λ answer. answer.line) answers.items ≡ lines.items) }
    ensures right { IfOk result (λ answers. AllByRecursion (IsFoundAbout (world_of (forwarding_of datapath.now)) steps) answers.items) }
{
    let mut answers = Vec::new(alloc);
    for line in lines {
        let decision = decide(alloc, datapath, &line.requirement, steps)?;
        answers.push(Answer { line, decision })?;
    }
    Ok(answers)
}

fn is_verdict_on(verdict: Verdict, answer: &Answer) -> bool
    ensures { result ≡ is_verdict verdict (verdict_of answer.now) }
{
    verdict == answer.verdict()
}

/// How many requirements have a verdict.
pub fn count(verdict: Verdict, answers: &[Answer]) -> usize
    ensures { result ≡ count_verdicts verdict answers.now }
{
    answers
        .iter()
        .filter(|answer| is_verdict_on(verdict, answer))
        .count()
}

/// The worst verdict: one fails, or else one is undecided, or else all hold.
pub fn worst(answers: &[Answer]) -> Verdict
    ensures { result ≡ worst_of answers.now }
{
    if count(Verdict::Fails, answers) != 0 {
        Verdict::Fails
    } else if count(Verdict::Undecided, answers) != 0 {
        Verdict::Undecided
    } else {
        Verdict::Holds
    }
}
