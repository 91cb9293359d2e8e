//! The fate of a frame.
ghost use Rattle.std.specs.Prelude.{◌≡◌, ◌≤◌, ◌++◌, [], IfNone, IfOk, IfSome, IsTrue, OnOk, Some, false, length, true};
ghost use Rattle.std.specs.{Option.option_copied, Option.option_map, List.flat_map};
ghost use Rattle.of_datapath.specs.DryRun.{received_steps};
ghost use Rattle.of_tracing.specs.Encoded.{are_encoded, is_encoded};
ghost use Rattle.of_trace.specs.Words.{found_words};
ghost use Rattle.of_json.specs.LeavingWords.{side_words};
ghost use Rattle.of_history.specs.Fates.{deaf_port, fate, fate_line, fate_lines, received_fate, received_items};
ghost use Rattle.of_history.specs.{Expiring.step_expiry, Expiring.way_expiring, Sights.sight_text, Ways.entry_said, Ways.winner_words};

use crate::expiring::push_step_expiry;
use crate::sight::{Sight, is_of_way};
use crate::view::View;
use crate::way::{WaySight, found_steps, winner_at};
use of_classifier::Lookup;
use of_headers::check_length;
use of_json::push_side;
use of_machine::{Items, Step, Steps};
use of_ports::{Port, find_port};
use of_switch::Switch;
use of_table::Flow;
use of_text::push_number;
use of_trace::push_words_line;
use of_values::push_entry_words;
use std::alloc::{AllocError, Global};

/// The steps of the run of a received frame, and what it emits.
#[derive(Drop)]
struct FrameRun {
    steps: Vec<Step>,
    items: Items,
    ghost encoded: { IsTrue (are_encoded steps.items) },
}

// The run of a frame that is received at a port. Nothing changes.
fn run_frame<L: Lookup>(
    alloc: Global,
    switch: &Switch<L>,
    port: u32,
    frame: &[u8],
) -> Result<FrameRun, AllocError>
    requires long { 14 ≤ length frame.now }
    requires most { length frame.now ≤ 9216 }
    ensures steps { IfOk result (λ run. run.steps.items ≡ received_steps port frame.now switch.now.core.forwarding) }
    ensures items { IfOk result (λ run. run.items.items ≡ received_items port frame.now switch.now.core.forwarding) }
{
    let datapath = switch.datapath();
    datapath.known_world();
    let mut log = Steps::new(alloc);
    let items = datapath.received_items(alloc, port, frame, &mut log)?;
    let Steps { list } = log;
    Ok(FrameRun { steps: list, items })
}

// Appends the priority and the match of a flow.
#[tactic(auto, unfolding(of_trace::specs::Words::found_words))]
pub(crate) fn push_winner_words(out: &mut Vec<u8>, flow: &Flow) -> Result<(), AllocError>
    ensures { OnOk result (out.new.items ≡ out.old.items ++ found_words (Some flow.now)) }
{
    out.extend_from_slice(b", ")?;
    push_entry_words(out, flow.priority, flow.fields.fields())
}

// Appends those of an entry, if there is one.
#[tactic(auto, unfolding(of_trace::specs::Words::found_words))]
fn push_winner(out: &mut Vec<u8>, flow: Option<&Flow>) -> Result<(), AllocError>
    ensures { OnOk result (out.new.items ≡ out.old.items ++ winner_words (option_map entry_said (option_copied flow.entry))) }
{
    match flow {
        None => Ok(()),
        Some(flow) => push_winner_words(out, flow),
    }
}

// Appends a step in words, an entry without its place in its table.
#[tactic(auto, unfolding(of_trace::specs::Words::numbered_words, of_trace::specs::Words::words_line, crate::specs::Ways::line_with))]
fn push_fate_line<L: Lookup>(
    out: &mut Vec<u8>,
    switch: &Switch<L>,
    step: Step,
) -> Result<(), AllocError>
    requires { IsTrue (is_encoded step) }
    ensures { OnOk result (out.new.items ≡ out.old.items ++ fate_line switch.now.core.forwarding step) }
{
    match step {
        Step::Entry { table, .. } => {
            out.extend_from_slice(b"table")?;
            push_number(out, u64::from(table))?;
            push_winner(out, winner_at(switch, step))
        }
        _ => push_words_line(out, switch, step),
    }
}

// Appends the lines of steps.
fn push_fate_lines<L: Lookup>(
    out: &mut Vec<u8>,
    switch: &Switch<L>,
    steps: &[Step],
) -> Result<(), AllocError>
    requires { IsTrue (are_encoded steps.now) }
    ensures { OnOk result (out.new.items ≡ out.old.items ++ fate_lines switch.now.core.forwarding steps.now) }
{
    for step in steps {
        push_fate_line(out, switch, *step)?;
        out.push(b'\n')?;
    }
    Ok(())
}

// What is seen of the run of a frame.
#[tactic(auto, unfolding(crate::specs::Ways::way_words))]
fn way_sight<L: Lookup>(
    alloc: Global,
    switch: &Switch<L>,
    run: FrameRun,
) -> Result<Sight, AllocError>
    ensures { IfOk result (λ sight. sight_text sight ≡ fate_lines switch.now.core.forwarding run.steps.items ++ side_words [] run.items.items) }
{
    let steps = found_steps(alloc, switch, &run.steps)?;
    let mut text = Vec::new(alloc);
    push_fate_lines(&mut text, switch, &run.steps)?;
    push_side(alloc, &mut text, b"", &run.items)?;
    Ok(Sight::OfWay(WaySight {
        text,
        steps,
        items: run.items,
    }))
}

// What is seen of a frame that is received. None if it is known to be what was seen last.
#[tactic(auto, unfolding(crate::specs::Fates::received_fate))]
fn received_sight<L: Lookup>(
    alloc: Global,
    switch: &Switch<L>,
    port: u32,
    frame: &[u8],
    last: &Sight,
) -> Result<Option<Sight>, AllocError>
    requires long { 14 ≤ length frame.now }
    requires most { length frame.now ≤ 9216 }
    ensures other { IfOk result (λ sight. IfSome sight (λ s. sight_text s ≡ received_fate port frame.now switch.now.core.forwarding)) }
    ensures same { IfOk result (λ sight. IfNone sight (sight_text last.now ≡ received_fate port frame.now switch.now.core.forwarding)) }
{
    let run = run_frame(alloc, switch, port, frame)?;
    if is_of_way(last, switch, &run.steps, &run.items) {
        return Ok(None);
    }
    Ok(Some(way_sight(alloc, switch, run)?))
}

// Appends why a port receives nothing.
#[tactic(auto, unfolding(crate::specs::Fates::deaf_port))]
fn push_deaf_port(out: &mut Vec<u8>, port: &Port) -> Result<(), AllocError>
    ensures { OnOk result (out.new.items ≡ out.old.items ++ deaf_port port.now) }
{
    if port.is_live() {
        out.extend_from_slice(b"not received: the port receives nothing\n")
    } else {
        out.extend_from_slice(b"not received: the port is down\n")
    }
}

// Appends why a frame is not received at a port; false if it is received.
#[tactic(auto, unfolding(crate::specs::Fates::fate, crate::specs::Fates::fate_at, crate::specs::Fates::fate_unless_fault))]
fn push_unreceived<L: Lookup>(
    out: &mut Vec<u8>,
    switch: &Switch<L>,
    port: u32,
    frame: &[u8],
) -> Result<bool, AllocError>
    ensures refused { IfOk result (λ refused. refused ≡ true → out.new.items ≡ out.old.items ++ fate port frame.now switch.now.core.forwarding) }
    ensures received { IfOk result (λ refused. refused ≡ false →
        fate port frame.now switch.now.core.forwarding ≡ received_fate port frame.now switch.now.core.forwarding) }
    ensures long { IfOk result (λ refused. refused ≡ false → 14 ≤ length frame.now) }
    ensures most { IfOk result (λ refused. refused ≡ false → length frame.now ≤ 9216) }
{
    let Some(there) = find_port(switch.datapath().ports.as_slice(), port) else {
        out.extend_from_slice(b"not received: there is no such port\n")?;
        return Ok(true);
    };
    if !there.may_receive() {
        push_deaf_port(out, there)?;
        return Ok(true);
    }
    if check_length(frame).is_err() {
        out.extend_from_slice(b"not received: a frame has 14 to 9216 bytes\n")?;
        return Ok(true);
    }
    Ok(false)
}

/// Watches the fate of a frame that would be received at a port (OpenFlow 1.3.5, 5.1): its steps and what leaves, in words; or why it is
/// not received.
///
/// Entries are named by their priority and match. What leaves are the frames and the packets to the controller that the run emits,
/// whether a controller is connected or not.
#[derive(Drop)]
pub struct FrameView {
    pub port: u32,
    pub frame: Vec<u8>,
}

// The lines about the entries of steps that expire at a moment.
fn list_expiring<L: Lookup>(
    alloc: Global,
    switch: &Switch<L>,
    moment: u64,
    steps: &[Step],
) -> Result<Vec<u8>, AllocError>
    ensures { IfOk result (λ lines. lines.items ≡ flat_map (step_expiry switch.now.core.forwarding moment) steps.now) }
{
    let mut lines = Vec::new(alloc);
    for step in steps {
        push_step_expiry(&mut lines, switch, moment, *step)?;
    }
    Ok(lines)
}

impl<L: Lookup> View<L> for FrameView {
    ghost seen = { λ v. fate v.port v.frame.items };

    ghost expiring = { λ v. way_expiring v.port v.frame.items };

    fn look(
        &self,
        alloc: Global,
        switch: &Switch<L>,
        last: &Sight,
    ) -> Result<Option<Sight>, AllocError> {
        let mut out = Vec::new(alloc);
        if push_unreceived(&mut out, switch, self.port, &self.frame)? {
            return Ok(Some(Sight::Plain(out)));
        }
        received_sight(alloc, switch, self.port, &self.frame, last)
    }

    #[tactic(auto, unfolding(crate::specs::Expiring::way_expiring))]
    fn look_ahead(
        &self,
        alloc: Global,
        switch: &Switch<L>,
        moment: u64,
    ) -> Result<Vec<u8>, AllocError> {
        if check_length(&self.frame).is_err() {
            return Ok(Vec::new(alloc));
        }
        let run = run_frame(alloc, switch, self.port, &self.frame)?;
        list_expiring(alloc, switch, moment, &run.steps)
    }
}
