//! Traces to a sink.
ghost use Rattle.std.specs.Prelude.{◌≡◌, ◌↔◌, ◌<◌, IfErr, IfOk};
ghost use Rattle.of_replay.specs.FileRuns.{Writes, is_text};
ghost use Rattle.of_trace.specs.{Files.trace_on, Notes.plain_trace, Notes.styled as styled_text};

use crate::form::{Asked, Form, Output, Style};
use crate::json::print_json;
use crate::noting::explain;
use crate::printing::{print, print_words};
use of_classifier::Lookup;
use of_replay::{Ended, Sink, write_all};
use of_switch::{Switch, SwitchError};
use of_tracing::{Trace, trace};
use std::alloc::{AllocError, Global};

// The text without notes.
fn print_in<L: Lookup>(
    alloc: Global,
    switch: &Switch<L>,
    port: u32,
    frame: &[u8],
    style: Style,
    trace: &Trace,
) -> Result<Vec<u8>, AllocError>
    ensures { IfOk result (λ text. text.items ≡ plain_trace style switch.now.core.forwarding port frame.now trace.now.steps.items trace.now.effects.items) }
{
    match style {
        Style::Lines => print(alloc, trace),
        Style::Words => print_words(alloc, switch, port, frame, trace),
    }
}

// The text in a style and a form.
fn styled<L: Lookup>(
    alloc: Global,
    switch: &Switch<L>,
    port: u32,
    frame: &[u8],
    style: Style,
    form: Form,
    trace: &Trace,
) -> Result<Vec<u8>, AllocError>
    ensures { IfOk result (λ text. text.items
        ≡ styled_text style form switch.now.core.forwarding port frame.now trace.now.steps.items trace.now.effects.items) }
{
    match form {
        Form::Plain => print_in(alloc, switch, port, frame, style, trace),
        Form::Explained => explain(alloc, switch, style, Asked::Nothing, port, frame, trace),
        Form::Why(asked) => explain(alloc, switch, style, asked, port, frame, trace),
    }
}

/// What is written of the trace of a frame received at a port. It fails only if memory runs out.
pub fn trace_text<L: Lookup>(
    alloc: Global,
    switch: &Switch<L>,
    port: u32,
    frame: &[u8],
    output: Output,
) -> Result<Vec<u8>, SwitchError>
    ensures text { IfOk result (λ text. text.items ≡ trace_on output port frame.now switch.now) }
    ensures err { IfErr result (λ e. e ≡ SwitchError.NoMemory) }
{
    let traced = trace(alloc, switch, port, frame)?;
    let text = match output {
        Output::Lines(form) => styled(alloc, switch, port, frame, Style::Lines, form, &traced)?,
        Output::Words(form) => styled(alloc, switch, port, frame, Style::Words, form, &traced)?,
        Output::Json => print_json(alloc, switch, port, frame, &traced)?,
    };
    Ok(text)
}

/// Writes what `output` says of the trace of a frame received at a port. Nothing changes.
///
/// It ends as `Done`; as `WriteFault`, where a write failed and a prefix of the text was written; or as `NoMemory`, where nothing was.
pub fn write_trace<L: Lookup, W: Sink>(
    alloc: Global,
    switch: &Switch<L>,
    port: u32,
    frame: &[u8],
    output: Output,
    writer: &mut W,
) -> Ended
    requires { W.failures writer.old ≡ 0 }
    ensures output { Writes (is_text (trace_on output port frame.now) switch.now) result (W.taken writer.old) (W.taken writer.new) }
    ensures write_fault { (result ≡ Ended.WriteFault) ↔ (0 < W.failures writer.new) }
{
    let Ok(text) = trace_text(alloc, switch, port, frame, output) else {
        return Ended::NoMemory;
    };
    if write_all(writer, &text) {
        Ended::Done
    } else {
        Ended::WriteFault
    }
}
