//! A switch, and what it gives until that is written.
ghost use Rattle.std.specs.Prelude.{◌≡◌, ◌⊎◌, ◌≤◌, ◌++◌, ◌∷◌, [], Err as Failed, length, take, drop, OnOk, OnErr, IfOk, IfErr, true, not};
ghost use Rattle.std.specs.List.{flat_map};
ghost use Rattle.of_session.specs.Session.{is_disconnected};
ghost use Rattle.of_switch.specs.{declared.event.Event.TheVariants.Lost as Loss, declared.event.Event.TheVariants.Chunk as Received, declared.switch_error.SwitchError.TheVariants.NoMemory};
ghost use Rattle.of_serve.specs.Turns.{events_of_row, answer_in, due as rows_due, nothing_pending, gathered, left, line_in, waits as has_to_wait};
ghost use Rattle.of_serve.specs.Gathering.{CutIn, HandlesAll, HandlesNext, HandlesSome, LosesNext, is_one_step};

use crate::rows::Rows;
use of_classifier::Lookup;
use of_replay::push_effects;
use of_switch::{Effect, Event, Report, Switch, SwitchError};
use std::alloc::{AllocError, Global};
use std::marker::Model;

/// A switch, with the bytes for its controller and the lines of sent frames that are still to be written.
#[derive(Drop)]
pub struct Gathering<L: Lookup> {
    switch: Switch<L>,
    answers: Vec<u8>,
    lines: Vec<u8>,
    // the lines of one call
    text: Vec<u8>,
    alloc: Global,
}

impl<L: Lookup> Model for Gathering<L> {
    ghost use Rattle.of_serve.specs.Turns.{Gathered};

    ghost Value = { Gathered };

    ghost view = { λ g. record { state = g.switch; answers = g.answers.items; lines = g.lines.items } };
}

// Appends a message to the controller.
fn push_answer(out: &mut Vec<u8>, effect: &Effect) -> Result<(), AllocError>
    ensures ok { OnOk result (out.new.items ≡ out.old.items ++ answer_in effect.now) }
    ensures err { OnErr result (out.new.items ≡ out.old.items) }
{
    match effect {
        Effect::Answer(bytes) => out.extend_from_slice(bytes.as_slice()),
        Effect::Sent { .. } | Effect::Closed => Ok(()),
    }
}

/// Appends the messages to the controller, all of them or nothing.
pub fn push_answers(out: &mut Vec<u8>, effects: &[Effect]) -> Result<(), AllocError>
    ensures ok { OnOk result (out.new.items ≡ out.old.items ++ flat_map answer_in effects.now) }
    ensures err { OnErr result (out.new.items ≡ out.old.items) }
{
    let before = out.len();
    for effect in effects {
        if let Err(error) = push_answer(out, effect) {
            out.truncate(before);
            return Err(error);
        }
    }
    Ok(())
}

// Appends the line of a frame that is sent.
fn push_line(alloc: Global, out: &mut Vec<u8>, effect: &Effect) -> Result<(), AllocError>
    ensures { OnOk result (out.new.items ≡ out.old.items ++ line_in effect.now) }
{
    match effect {
        Effect::Sent { .. } => push_effects(alloc, out, std::slice::from_ref(effect)),
        Effect::Answer(_) | Effect::Closed => Ok(()),
    }
}

// Appends the lines of the frames that are sent.
fn push_lines(alloc: Global, out: &mut Vec<u8>, effects: &[Effect]) -> Result<(), AllocError>
    ensures { OnOk result (out.new.items ≡ out.old.items ++ flat_map line_in effects.now) }
{
    for effect in effects {
        push_line(alloc, out, effect)?;
    }
    Ok(())
}

/// Whether this is a `t` row that the clock has not reached.
pub fn waits(row: &Event, now: u64) -> bool
    ensures { result ≡ has_to_wait now row.now }
{
    match row {
        Event::Moment(nanos) => now < *nanos,
        _ => false,
    }
}

impl<L: Lookup> Gathering<L> {
    pub fn new(alloc: Global, switch: Switch<L>) -> Self
        ensures { result ≡ nothing_pending switch }
    {
        Gathering {
            switch,
            answers: Vec::new(alloc),
            lines: Vec::new(alloc),
            text: Vec::new(alloc),
            alloc,
        }
    }

    /// The switch.
    pub fn into_switch(self) -> Switch<L>
        ensures { result ≡ self.state }
    {
        self.switch
    }

    /// The bytes for the controller.
    pub fn answers(&self) -> &[u8]
        ensures { result.now ≡ self.now.answers }
    {
        &self.answers
    }

    /// The lines of sent frames.
    pub fn lines(&self) -> &[u8]
        ensures { result.now ≡ self.now.lines }
    {
        &self.lines
    }

    /// All of it was written.
    pub fn clear(&mut self)
        ensures { self.new ≡ nothing_pending self.old.state }
    {
        self.answers.clear();
        self.lines.clear();
    }

    /// Whether there is a connection.
    pub fn is_connected(&self) -> bool
        ensures { result ≡ not (is_disconnected self.now.state.connection.phase) }
    {
        self.switch.is_connected()
    }

    // What effects give for the connection and for the output: all of it, or nothing.
    fn push(&mut self, effects: &[Effect]) -> Result<(), AllocError>
        ensures answers { OnOk result (self.new.answers ≡ self.old.answers ++ flat_map answer_in effects.now) }
        ensures lines { OnOk result (self.new.lines ≡ self.old.lines ++ flat_map line_in effects.now) }
        ensures err { OnErr result ((self.new.answers ≡ self.old.answers) × (self.new.lines ≡ self.old.lines)) }
        ensures state { self.new.state ≡ self.old.state }
    {
        self.text.clear();
        push_lines(self.alloc, &mut self.text, effects)?;
        self.lines.reserve(self.text.len())?;
        push_answers(&mut self.answers, effects)?;
        self.lines.extend_from_slice(&self.text)
    }

    // An event that is no chunk happens; a refused one gives nothing.
    fn happen(&mut self, event: &Event) -> Result<(), AllocError>
        requires one_step { is_one_step event.now ≡ true }
        ensures ok { OnOk result (self.new ≡ gathered (event.now ∷ []) self.old) }
        ensures err { OnErr result (CutIn (event.now ∷ []) self.old self.new) }
    {
        let mut reports = Vec::new(self.alloc);
        self.switch.run(std::slice::from_ref(event), &mut reports)?;
        match reports.pop() {
            Some(Report::Gives(effects)) => self.push(&effects),
            _ => Ok(()),
        }
    }

    /// An event happens.
    pub fn play(&mut self, event: &Event) -> Result<(), AllocError>
        ensures ok { OnOk result (self.new ≡ gathered (event.now ∷ []) self.old) }
        ensures err { OnErr result (CutIn (event.now ∷ []) self.old self.new) }
    {
        match event {
            Event::Chunk(bytes) => self.hear(bytes.as_slice()),
            _ => self.happen(event),
        }
    }

    // Handles the next message, and returns whether there is one.
    fn handle_next(&mut self) -> Result<bool, SwitchError>
        ensures ok { IfOk result (λ found. HandlesNext found self.old self.new) }
        ensures memory { IfErr result (λ error. error ≡ NoMemory) }
        ensures err { OnErr result (LosesNext self.old self.new) }
    {
        match self.switch.next()? {
            None => Ok(false),
            Some(effects) => {
                self.push(&effects)?;
                Ok(true)
            }
        }
    }

    // Handles all messages that are there, or those before one for which there is no memory.
    fn handle_all(&mut self) -> Result<(), SwitchError>
        ensures ok { OnOk result (HandlesAll self.old self.new) }
        ensures memory { IfErr result (λ error. error ≡ NoMemory) }
        ensures err { OnErr result (HandlesSome self.old self.new) }
    {
        loop {
            if !self.handle_next()? {
                return Ok(());
            }
        }
    }

    // Receives bytes of the controller, unless they are refused.
    fn take(&mut self, chunk: &[u8]) -> Result<(), SwitchError>
        ensures heard { (result ≡ Failed NoMemory) ⊎ (self.new ≡ gathered (Received chunk.now ∷ []) self.old) }
        ensures memory { result ≡ Failed NoMemory → CutIn (Received chunk.now ∷ []) self.old self.new }
    {
        self.switch.feed(chunk)?;
        self.handle_all()
    }

    /// Receives bytes of the controller, and handles each whole message; without a connection they are lost.
    pub fn hear(&mut self, chunk: &[u8]) -> Result<(), AllocError>
        ensures ok { OnOk result (self.new ≡ gathered (Received chunk.now ∷ []) self.old) }
        ensures err { OnErr result (CutIn (Received chunk.now ∷ []) self.old self.new) }
    {
        match self.take(chunk) {
            Ok(()) => Ok(()),
            Err(SwitchError::NoMemory) => Err(AllocError),
            Err(_) => Ok(()),
        }
    }

    /// The connection is lost.
    pub fn lose(&mut self)
        ensures { self.new ≡ gathered (Loss ∷ []) self.old }
    {
        self.switch.lost();
    }

    // A row of the file that is due happens.
    fn act(&mut self, row: &Event) -> Result<(), AllocError>
        ensures ok { OnOk result (self.new ≡ gathered (events_of_row row.now) self.old) }
        ensures err { OnErr result (CutIn (events_of_row row.now) self.old self.new) }
    {
        match row {
            Event::Moment(_) => Ok(()),
            _ => self.play(row),
        }
    }

    /// The rows of the file that are due happen, and the others are still to come.
    pub fn due(&mut self, now: u64, rows: &mut Rows) -> Result<(), AllocError>
        ensures rest { OnOk result (rows.new ≡ left now rows.old) }
        ensures gathered { OnOk result (self.new ≡ gathered (rows_due now rows.old) self.old) }
        ensures err { OnErr result (CutIn (rows_due now rows.old) self.old self.new) }
    {
        while let Some(row) = rows.first() {
            if waits(row, now) {
                break;
            }
            self.act(row)?;
            rows.pass();
        }
        Ok(())
    }
}
