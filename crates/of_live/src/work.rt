//! Events, what they give, and their rows.
ghost use Rattle.std.specs.Prelude.{◌≡◌, ◌∷◌, ◌++◌, [], true, length, OnOk};
ghost use Rattle.std.specs.List.{flat_map};
ghost use Rattle.of_switch.specs.{declared.event.Event.TheVariants.Frame, declared.event.Event.TheVariants.Lost, Runs.Gives as Given, Runs.effects_in, Runs.report_of, Runs.reports_of};
ghost use Rattle.of_serve.specs.Turns.{events_of_row, answer_in, due, report_effects as effects_given, left, waits as has_to_wait};
ghost use Rattle.of_live.specs.{Peers.peer_of as peer_of_port, Acts.Records, Turns.sent_in, Turns.sent_to, Working.Does, Working.logged, Working.logged_text};

use crate::{Dropped, Network, Peer, peer_of, push_frame_row, push_row, write_header};
use of_classifier::Lookup;
use of_serve::{Rows, waits};
use of_session::Stream;
use of_switch::{Effect, Effects, Event, Report, Switch, SwitchError};
use std::alloc::{AllocError, Global};
use std::marker::Model;

/// Networks have numbers of 24 bits, below this one.
const NETWORKS: u32 = 16_777_216;

/// What the events of a turn gave, and their rows, if those are logged.
#[derive(Drop)]
pub struct Work {
    reports: Vec<Report>,
    text: Vec<u8>,
}

impl Model for Work {
    ghost use Rattle.of_switch.specs.Runs.{reports_of};
    ghost use Rattle.of_live.specs.Working.{LiveWork};

    ghost Value = { LiveWork };

    ghost view = { λ w. record { reports = reports_of w.reports.items; text = w.text.items } };
}

impl Work {
    pub fn new(alloc: Global) -> Self
        ensures { result ≡ record { reports = []; text = [] } }
    {
        Work {
            reports: Vec::new(alloc),
            text: Vec::new(alloc),
        }
    }

    /// Writes the rows to the log, if there are any, and returns whether all of them were written.
    pub fn log<N: Network>(&self, network: &mut N) -> bool
        ensures told { Records (N.told network.old) (logged self.now.text result) (N.told network.new) }
        ensures empty { length self.now.text ≡ 0 → result ≡ true }
        ensures keeps { N.keeps network.new ≡ N.keeps network.old }
    {
        self.text.is_empty() || network.log(&self.text)
    }

    /// The row of a loss, if there is a log.
    pub fn note_loss(&mut self, keeps: bool) -> Result<(), AllocError>
        ensures reports { self.new.reports ≡ self.old.reports }
        ensures text { OnOk result (self.new.text ≡ self.old.text ++ logged_text keeps (Lost ∷ [])) }
    {
        if keeps {
            push_row(&mut self.text, &Event::Lost)?;
        }
        Ok(())
    }

    // What an event gave.
    fn give(&mut self, effects: Effects) -> Result<(), AllocError>
        ensures reports { OnOk result (self.new.reports ≡ self.old.reports ++ Given effects.items ∷ []) }
        ensures text { self.new.text ≡ self.old.text }
    {
        Ok(self.reports.push(Report::Gives(effects))?)
    }

    /// More events happened.
    pub fn append(&mut self, more: Work) -> Result<(), AllocError>
        ensures { OnOk result (self.new ≡ record { reports = self.old.reports ++ more.reports; text = self.old.text ++ more.text }) }
    {
        let Work { mut reports, text } = more;
        self.reports.append(&mut reports)?;
        self.text.extend_from_slice(&text)
    }

    /// Appends the messages to the controller.
    pub fn answers(&self, out: &mut Stream) -> Result<(), AllocError>
        ensures { OnOk result (out.new ≡ out.old ++ flat_map answer_in (effects_in self.now.reports)) }
    {
        push_reports(out, &self.reports)
    }

    /// Sends the frames that leave.
    pub fn send<N: Network>(&self, peers: &[Peer], network: &mut N)
        ensures told { Records (N.told network.old) (flat_map (sent_in peers.now) (effects_in self.now.reports)) (N.told network.new) }
        ensures keeps { N.keeps network.new ≡ N.keeps network.old }
    {
        send_reports(peers, &self.reports, network);
    }

    /// All of it is out.
    pub fn clear(&mut self)
        ensures { self.new ≡ record { reports = []; text = [] } }
    {
        self.reports.clear();
        self.text.clear();
    }
}

// Sends a frame to where the frames of a port go.
fn send_frame<N: Network>(peers: &[Peer], port: u32, frame: &[u8], network: &mut N)
    ensures told { Records (N.told network.old) (sent_to port frame.now (peer_of_port port peers.now) ∷ []) (N.told network.new) }
    ensures keeps { N.keeps network.new ≡ N.keeps network.old }
{
    match peer_of(port, peers) {
        Some(peer) if port < NETWORKS => network.send(peer.endpoint, write_header(port), frame),
        _ => network.count(Dropped::NoPeer),
    }
}

// Sends the frames that leave.
fn send_effects<N: Network>(peers: &[Peer], effects: &[Effect], network: &mut N)
    ensures told { Records (N.told network.old) (flat_map (sent_in peers.now) effects.now) (N.told network.new) }
    ensures keeps { N.keeps network.new ≡ N.keeps network.old }
{
    for effect in effects {
        if let Effect::Sent { port, frame } = effect {
            send_frame(peers, *port, frame.as_slice(), network);
        }
    }
}

// What a report gives: nothing, if its event was refused.
fn effects_of(report: &Report) -> &[Effect]
    ensures { result.now ≡ effects_given (report_of report.now) }
{
    match report {
        Report::Gives(effects) => effects.as_slice(),
        Report::Refused(_) => &[],
    }
}

// Appends the messages to the controller.
fn push_answers(out: &mut Stream, effects: &[Effect]) -> Result<(), AllocError>
    ensures { OnOk result (out.new ≡ out.old ++ flat_map answer_in effects.now) }
{
    for effect in effects {
        if let Effect::Answer(bytes) = effect {
            out.feed(bytes.as_slice())?;
        }
    }
    Ok(())
}

// Appends the messages to the controller.
fn push_reports(out: &mut Stream, reports: &[Report]) -> Result<(), AllocError>
    ensures { OnOk result (out.new ≡ out.old ++ flat_map answer_in (effects_in (reports_of reports.now))) }
{
    for report in reports {
        push_answers(out, effects_of(report))?;
    }
    Ok(())
}

// Sends the frames that leave.
fn send_reports<N: Network>(peers: &[Peer], reports: &[Report], network: &mut N)
    ensures told { Records (N.told network.old) (flat_map (sent_in peers.now) (effects_in (reports_of reports.now))) (N.told network.new) }
    ensures keeps { N.keeps network.new ≡ N.keeps network.old }
{
    for report in reports {
        send_effects(peers, effects_of(report), network);
    }
}

/// An event happens, and its row is kept if there is a log.
pub fn happen<L: Lookup>(
    switch: &mut Switch<L>,
    event: &Event,
    keeps: bool,
    work: &mut Work,
) -> Result<(), AllocError>
    ensures { OnOk result (Does keeps (event.now ∷ []) switch.old switch.new work.old work.new) }
{
    if keeps {
        push_row(&mut work.text, event)?;
    }
    switch.run(std::slice::from_ref(event), &mut work.reports)
}

/// A frame is received, and its row is kept if there is a log.
pub fn happen_frame<L: Lookup>(
    switch: &mut Switch<L>,
    port: u32,
    frame: &[u8],
    keeps: bool,
    work: &mut Work,
) -> Result<(), AllocError>
    ensures { OnOk result (Does keeps (Frame port frame.now ∷ []) switch.old switch.new work.old work.new) }
{
    if keeps {
        push_frame_row(&mut work.text, port, frame)?;
    }
    match switch.frame(port, frame) {
        Ok(effects) => work.give(effects),
        Err(SwitchError::NoMemory) => Err(AllocError),
        Err(refusal) => Ok(work.reports.push(Report::Refused(refusal))?),
    }
}

// A row of the file that is due happens.
fn act<L: Lookup>(
    switch: &mut Switch<L>,
    row: &Event,
    keeps: bool,
    work: &mut Work,
) -> Result<(), AllocError>
    ensures { OnOk result (Does keeps (events_of_row row.now) switch.old switch.new work.old work.new) }
{
    match row {
        Event::Moment(_) => Ok(()),
        _ => happen(switch, row, keeps, work),
    }
}

/// The rows of the file that are due happen, and the others are still to come.
pub fn happen_due<L: Lookup>(
    switch: &mut Switch<L>,
    rows: &mut Rows,
    now: u64,
    keeps: bool,
    work: &mut Work,
) -> Result<(), AllocError>
    ensures rows { OnOk result (rows.new ≡ left now rows.old) }
    ensures does { OnOk result (Does keeps (due now rows.old) switch.old switch.new work.old work.new) }
{
    while let Some(row) = rows.first() {
        if waits(row, now) {
            break;
        }
        act(switch, row, keeps, work)?;
        rows.pass();
    }
    Ok(())
}
