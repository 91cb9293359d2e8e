//! Traces as text.
ghost use Rattle.std.specs.Prelude.{◌≡◌, ◌++◌, ◌∷◌, [], IfOk, OnOk, IsTrue, codes, decimal};
ghost use Rattle.of_text.specs.Lines.{joined};
ghost use Rattle.of_tracing.specs.Encoded.{is_encoded, are_encoded};
ghost use Rattle.of_trace.specs.{Notes.plain_trace, Text.step_line, Text.steps_text, Text.trace_text, declared.form.Style.TheVariants.Words};

use crate::words::{push_heading, push_leaving, push_words};
use of_actions::Action;
use of_classifier::Lookup;
use of_machine::Step;
use of_replay::push_effects;
use of_switch::Switch;
use of_text::{Row, push_number, push_row};
use of_tracing::Trace;
use std::alloc::{AllocError, Global};

// Appends the line of a lookup: the table, what was found, and what follows that.
fn push_lookup(out: &mut Vec<u8>, table: u8) -> Result<(), AllocError>
    ensures { OnOk result (out.new.items ≡ out.old.items ++ joined (codes "lookup" ∷ decimal table ∷ [])) }
{
    out.extend_from_slice(b"lookup")?;
    push_number(out, u64::from(table))
}

/// Appends the line of a step, without its end.
pub fn push_step(out: &mut Vec<u8>, step: Step) -> Result<(), AllocError>
    requires { IsTrue (is_encoded step) }
    ensures { OnOk result (out.new.items ≡ out.old.items ++ step_line step) }
{
    match step {
        Step::Miss(table) => {
            push_lookup(out, table)?;
            out.extend_from_slice(b" miss")
        }
        Step::Entry { table, number } => {
            push_lookup(out, table)?;
            out.extend_from_slice(b" entry")?;
            push_number(out, number as u64)
        }
        Step::Apply => push_row(out, Row::Apply),
        Step::Clear => push_row(out, Row::Clear),
        Step::Write => push_row(out, Row::Write),
        Step::Metadata { value, mask } => push_row(out, Row::Metadata { value, mask }),
        Step::Goto(table) => push_row(out, Row::Goto(table)),
        Step::Set => out.extend_from_slice(b"set"),
        Step::Act(action) => push_row(out, Row::Do(action)),
        Step::TtlExpired => {
            push_row(out, Row::Do(Action::DecNwTtl))?;
            out.extend_from_slice(b" expired")
        }
        Step::End => out.extend_from_slice(b"end"),
    }
}

// Appends the lines of steps.
fn push_steps(out: &mut Vec<u8>, steps: &[Step]) -> Result<(), AllocError>
    requires { IsTrue (are_encoded steps.now) }
    ensures { OnOk result (out.new.items ≡ out.old.items ++ steps_text steps.now) }
{
    for step in steps {
        push_step(out, *step)?;
        out.push(b'\n')?;
    }
    Ok(())
}

/// The text of a trace: a line for each step, `lookup T miss`, `lookup T entry K` (the entry's index by age, from 0), `set`
/// (the action set runs), `dec_nw_ttl expired`, `end`, or an instruction or an action as flow text writes it; and then
/// the effects as the output of an event file, `s PORT HEX` and `a HEX`. Each line ends by LF.
pub fn print(alloc: Global, trace: &Trace) -> Result<Vec<u8>, AllocError>
    ensures { IfOk result (λ text. text.items ≡ trace_text trace.now.steps.items trace.now.effects.items) }
{
    let mut out = Vec::new(alloc);
    push_steps(&mut out, &trace.steps)?;
    push_effects(alloc, &mut out, &trace.effects)?;
    Ok(out)
}

/// The text of a trace in words: the frame, a line for each step, and what leaves. `port` and `frame` are those of the trace.
pub fn print_words<L: Lookup>(
    alloc: Global,
    switch: &Switch<L>,
    port: u32,
    frame: &[u8],
    trace: &Trace,
) -> Result<Vec<u8>, AllocError>
    ensures { IfOk result (λ text. text.items ≡ plain_trace Words switch.now.core.forwarding port frame.now trace.now.steps.items trace.now.effects.items) }
{
    let mut out = Vec::new(alloc);
    push_heading(alloc, &mut out, switch, port, frame)?;
    push_words(&mut out, switch, port, &trace.steps)?;
    push_leaving(alloc, &mut out, &trace.effects)?;
    Ok(out)
}
