//! The report on requirements as JSON.
ghost use Rattle.std.specs.Prelude.{◌≡◌, ◌++◌, IfOk, OnOk};
ghost use Rattle.of_require.specs.RequirementsJson.{answer_object, line_members, requirement_verdict_members, requirements_member, shown_members, verdict_name as name_of_verdict};
ghost use Rattle.of_require.specs.Answers.{may_match as may_match_so};

use crate::answers::Answer;
use crate::deciding::{Decision, Verdict};
use of_json::{
    push_array_member, push_bytes_member, push_changes_member, push_items_member,
    push_number_member, push_string_member, push_text_member, push_truth_member,
};
use of_values::Part::Number;
use of_values::put;
use std::alloc::{AllocError, Global};

pub const LINE: [u8; 9] = *br#"{"line":%"#;

fn verdict_name(verdict: Verdict) -> &'static [u8]
    ensures { result.now ≡ name_of_verdict verdict }
{
    match verdict {
        Verdict::Holds => b"holds",
        Verdict::Fails => b"fails",
        Verdict::Undecided => b"undecided",
    }
}

/// Whether some frame may match that the switch receives.
pub fn may_match(decision: &Decision) -> bool
    ensures { result ≡ may_match_so decision.now }
{
    !matches!(decision, Decision::NoneMatches)
}

// Appends the frame that decides, and what leaves and changed; or the port of frames of which it is not known.
#[tactic(auto, unfolding(crate::specs::RequirementsJson::shown_members))]
fn push_shown_members(
    alloc: Global,
    out: &mut Vec<u8>,
    decision: &Decision,
) -> Result<(), AllocError>
    ensures { OnOk result (out.new.items ≡ out.old.items ++ shown_members decision.now) }
{
    match decision {
        Decision::Frame(shown) => {
            push_number_member(out, b"in_port", u128::from(shown.in_port))?;
            push_bytes_member(alloc, out, b"frame", &shown.frame)?;
            push_items_member(alloc, out, b"items", &shown.items)?;
            push_changes_member(alloc, out, b"changes", &shown.frame, &shown.items)
        }
        Decision::Undecided(port) => push_number_member(out, b"in_port", u128::from(*port)),
        Decision::NoFrame | Decision::NoneMatches => Ok(()),
    }
}

#[tactic(auto, unfolding(crate::specs::RequirementsJson::line_members))]
fn begin_object(out: &mut Vec<u8>, answer: &Answer) -> Result<(), AllocError>
    ensures { OnOk result (out.new.items ≡ out.old.items ++ line_members answer.now) }
{
    put(out, &LINE, &[Number(answer.line.number as u128)])?;
    push_string_member(out, b"requirement", &answer.line.text)
}

#[tactic(auto, unfolding(crate::specs::RequirementsJson::requirement_verdict_members))]
fn push_verdict_members(alloc: Global, out: &mut Vec<u8>, answer: &Answer) -> Result<(), AllocError>
    ensures { OnOk result (out.new.items ≡ out.old.items ++ requirement_verdict_members answer.now) }
{
    push_text_member(out, b"verdict", verdict_name(answer.verdict()))?;
    push_truth_member(out, b"matches", may_match(&answer.decision))?;
    push_shown_members(alloc, out, &answer.decision)
}

#[tactic(auto, unfolding(crate::specs::RequirementsJson::answer_object))]
fn push_answer_object(alloc: Global, out: &mut Vec<u8>, answer: &Answer) -> Result<(), AllocError>
    ensures { OnOk result (out.new.items ≡ out.old.items ++ answer_object answer.now) }
{
    begin_object(out, answer)?;
    push_verdict_members(alloc, out, answer)?;
    out.push(b'}')?;
    Ok(())
}

/// The report on requirements as a further member of a JSON object.
#[tactic(auto, unfolding(crate::specs::RequirementsJson::requirements_member))]
pub fn requirements_as_json(alloc: Global, answers: &[Answer]) -> Result<Vec<u8>, AllocError>
    ensures { IfOk result (λ text. text.items ≡ requirements_member answers.now) }
{
    let mut out = Vec::new(alloc);
    push_array_member(&mut out, b"requirements", answers, |out, answer| {
        push_answer_object(alloc, out, answer)
    })?;
    Ok(out)
}
