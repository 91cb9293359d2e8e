//! The switch.
ghost use Rattle.std.specs.Prelude.{◌≡◌, ◌≤◌, ◌<◌, ◌∷◌, ◌++◌, ◌+◌, [], true, IfOk, IfErr, IfNone, OnOk, OnErr, None, length, take, vec_len, vec_capacity, not};
ghost use Rattle.std.specs.{Option.option_map, Result.result_err};
ghost use Rattle.of_messages.specs.Written.{error_bytes};
ghost use Rattle.of_session.specs.Session.{IsSoundNext, IsNextReceived, is_disconnected};
ghost use Rattle.of_switch.specs.Steps.{came, closing as closing_with, connected, does, failed_of, fed, frame_in, heard_in, lost as lost_from, moment_in, gives, next_of, port_changed};
ghost use Rattle.of_switch.specs.Calls.{Call, absent_refusal, connect_refusal, feed_refusal, new_refusal, port_refusal};
ghost use Rattle.of_switch.specs.{State.start, Loading.config_of, Loading.loaded, Runs.RunsAll, Runs.StopsWithin, Runs.reports_of, Stepping.Drains, Stepping.Happens, Stepping.TellsCall};
ghost use Rattle.of_datapath.specs.{DryRun.GainsPrefix, DryRun.steps_in, Numbers.forwarding_of};
ghost use Rattle.of_machine.specs.Weights.{frame_step_bound};

use crate::event::{Event, Report};
use crate::port_change::PortChange;
use crate::switch_core::{Core, Fault, one};
use crate::switch_error::SwitchError;
use of_actions::is_number;
use of_classifier::Lookup;
use of_datapath::{AsyncConfig, Datapath, Effect, Effects};
use of_machine::StepLog;
use of_messages::{MessageBytes, write_error, write_hello};
use of_session::{Next, Phase, Session};
use of_text::Config;
use of_wire::codes::{OFPBRC_BAD_LEN, OFPHFC_INCOMPATIBLE};
use of_wire::{Code, front_part};
use std::alloc::{AllocError, Global};
use std::marker::Model;

/// How many bytes of a refused message an ERROR has at most (OpenFlow 1.3.5, 7.4.4).
const ERROR_DATA: usize = 64;

/// An OpenFlow 1.3 switch, whose lookups go by the classifier `L`.
///
/// Each call does what the abstract switch does. A call that is refused changes nothing, and one that runs out of memory
/// changes nothing either and can be made again.
#[derive(Drop)]
pub struct Switch<L: Lookup> {
    session: Session,
    core: Core<L>,
    alloc: Global,
}

impl<L: Lookup> Model for Switch<L> {
    ghost use Rattle.of_switch.specs.State.{State};

    ghost Value = { State };

    ghost view = { λ s. record { connection = s.session; core = s.core } };
}

/// The secret by which a switch hashes.
#[derive(Clone, Copy)]
pub struct Seed(pub u64);

impl<L: Lookup> Switch<L> {
    /// A switch with that datapath_id (OpenFlow 1.3.5, 7.3.1), without a connection, flows, groups, ports and held frames.
    pub fn new(alloc: Global, dpid: u64) -> Result<Self, AllocError>
        ensures { IfOk result (λ s. s ≡ start dpid) }
    {
        Switch::with_seed(alloc, dpid, Seed(0))
    }

    /// The same. Nothing that it does depends on the seed, but who does not know it cannot pick flows and frames whose hashes are the
    /// same, which would make lookups late.
    pub fn with_seed(alloc: Global, dpid: u64, seed: Seed) -> Result<Self, AllocError>
        ensures { IfOk result (λ s. s ≡ start dpid) }
    {
        Ok(Switch {
            session: Session::new(alloc),
            core: Core::new(alloc, dpid, seed.0)?,
            alloc,
        })
    }

    /// A controller connects (OpenFlow 1.3.5, 6.3.1): the switch sends a HELLO.
    ///
    /// Refused: `Connected`.
    pub fn connected(&mut self) -> Result<Effects, SwitchError>
        ensures { Call (connect_refusal self.old) (λ effects new. connected self.old ≡ gives effects.items new) self.old result self.new }
    {
        if self.session.phase() != Phase::Disconnected {
            return Err(SwitchError::Connected);
        }
        let effects = one(self.alloc, Effect::Answer(write_hello(self.alloc)?))?;
        self.session.connect();
        Ok(effects)
    }

    /// The connection is lost, or closed by the controller (OpenFlow 1.3.5, 6.3.2). Without a connection nothing happens.
    ///
    /// Flows, groups and ports stay, and so do the configuration and the last generation_id; the role and the masks of
    /// asynchronous messages are those of the start again, and bytes that were received and not handled are dropped, and so are the
    /// frames that are held; the next id stays.
    pub fn lost(&mut self)
        ensures { self.new ≡ lost_from self.old }
    {
        if self.session.phase() != Phase::Disconnected {
            self.session.close();
            self.core.release();
        }
    }

    /// Whether there is a connection (OpenFlow 1.3.5, 6.3.1).
    pub fn is_connected(&self) -> bool
        ensures { result ≡ not (is_disconnected self.now.connection.phase) }
    {
        self.session.phase() != Phase::Disconnected
    }

    /// The bytes of the controller that were received and not yet handled.
    pub fn pending(&self) -> &[u8]
        ensures { result.now ≡ self.now.connection.pending }
    {
        self.session.pending()
    }

    /// Receives bytes of the controller, cut anywhere. They are handled by `next`.
    ///
    /// Refused: `NotConnected`.
    pub fn feed(&mut self, chunk: &[u8]) -> Result<(), SwitchError>
        ensures { Call (feed_refusal self.old) (λ _ new. new ≡ fed chunk.now self.old) self.old result self.new }
    {
        if self.session.phase() == Phase::Disconnected {
            return Err(SwitchError::NotConnected);
        }
        Ok(self.session.feed(chunk)?)
    }

    /// Handles the first whole message, or the malformed header that ends the connection; None where there is neither.
    pub fn next(&mut self) -> Result<Option<Effects>, SwitchError>
        ensures { Call None (λ found new.
            (next_of self.old ≡ option_map (λ effects. gives effects.items new) found)
            × IfNone found (new ≡ self.old)) self.old result self.new }
    {
        Ok(self.handle_next()?)
    }

    // Handles the first whole message or the malformed header. It refuses nothing: it fails where memory runs out.
    fn handle_next(&mut self) -> Result<Option<Effects>, AllocError>
        ensures ok { IfOk result (λ found. (next_of self.old ≡ option_map (λ effects. gives effects.items self.new) found) ×
            IfNone found (self.new ≡ self.old)) }
        ensures err { OnErr result (self.new ≡ self.old) }
    {
        let next = self.session.next(self.core.control().role)?;
        let Some(effects) = self.answer(next)? else {
            return Ok(None);
        };
        self.session.taken();
        Ok(Some(effects))
    }

    // Handles what comes next, and leaves it in the stream.
    fn answer(&mut self, next: Next) -> Result<Option<Effects>, AllocError>
        requires within { IsNextReceived next self.old.connection }
        requires sound { IsSoundNext next }
        ensures came { IfOk result (λ found. came next self.old.connection self.old.core ≡ option_map (λ effects. does effects.items self.new.core) found) }
        ensures none { IfOk result (λ found. IfNone found (self.new.core ≡ self.old.core)) }
        ensures connection { self.new.connection ≡ self.old.connection }
        ensures err { OnErr result (self.new.core ≡ self.old.core) }
    {
        match next {
            Next::Nothing => Ok(None),
            Next::BadStream { xid } => {
                let error = write_error(self.alloc, xid, OFPBRC_BAD_LEN, self.session.first(8))?;
                Ok(Some(self.close_with(error)?))
            }
            Next::NotHello { xid } => {
                let error = write_error(self.alloc, xid, OFPHFC_INCOMPATIBLE, &[])?;
                Ok(Some(self.close_with(error)?))
            }
            Next::Opened { .. } => Ok(Some(Effects::new(self.alloc))),
            Next::Refused { xid, size, code } => Ok(Some(self.refused(xid, size, code)?)),
            Next::Read { xid, size, message } => match self.core.handle(xid, message) {
                Ok(effects) => Ok(Some(effects)),
                Err(Fault::Refused(code)) => Ok(Some(self.refused(xid, size, code)?)),
                Err(Fault::Memory) => Err(AllocError),
            },
        }
    }

    // Gives an error and the end of the connection.
    fn close_with(&mut self, error: MessageBytes) -> Result<Effects, AllocError>
        ensures ok { IfOk result (λ effects. closing_with error self.old.core ≡ does effects.items self.new.core) }
        ensures connection { self.new.connection ≡ self.old.connection }
        ensures err { OnErr result (self.new.core ≡ self.old.core) }
    {
        let effects = closing(self.alloc, error)?;
        self.core.release();
        Ok(effects)
    }

    // The asynchronous messages that the controller receives.
    fn heard(&self) -> AsyncConfig
        ensures { result ≡ heard_in self.now }
    {
        self.core.control().heard(self.session.phase())
    }

    // The ERROR that answers the next message, with its first bytes.
    fn refused(&self, xid: u32, size: usize, code: Code) -> Result<Effects, AllocError>
        requires { size ≤ length self.now.connection.pending }
        ensures { IfOk result (λ effects. effects.items ≡ Effect.Answer (error_bytes xid code (failed_of size self.now.connection)) ∷ []) }
    {
        let failed = front_part(self.session.first(size), ERROR_DATA);
        one(
            self.alloc,
            Effect::Answer(write_error(self.alloc, xid, code, failed)?),
        )
    }

    /// The flow tables, the groups, the ports and the held frames (OpenFlow 1.3.5, 2), which answer what is asked of them.
    pub fn datapath(&self) -> &Datapath<L>
        ensures { self.now.core.forwarding ≡ forwarding_of result.now }
    {
        self.core.datapath()
    }

    /// How many bytes of its frame a PACKET_IN has that no OUTPUT made (OpenFlow 1.3.5, 7.3.2).
    pub fn miss_send_len(&self) -> u16
        ensures { result ≡ self.now.core.control.config.miss_send_len }
    {
        self.core.control().config.miss_send_len
    }

    /// Receives a frame at a port.
    pub fn frame(&mut self, port: u32, frame: &[u8]) -> Result<Effects, SwitchError>
        ensures { Call None (λ effects new. frame_in port frame.now self.old ≡ gives effects.items new) self.old result self.new }
    {
        let heard = self.heard();
        Ok(self.core.frame(heard, port, frame)?)
    }

    /// The effects that `frame` would give next, and the steps of the frame's run, which are put into the log (OpenFlow 1.3.5, 5.1).
    ///
    /// Nothing changes: no counter, no moment; no frame is held, though a PACKET_IN has the id that its frame would get. In the steps
    /// an entry is named by its index in its table by age, from 0. A frame at a port that does not exist or may not receive, or one
    /// that is too short or too long, takes no steps. Where memory runs out, the log has the first steps, or all. It gains 143,271,552
    /// steps at most, whatever the flows and groups are.
    pub fn dry_run<S: StepLog>(
        &self,
        port: u32,
        frame: &[u8],
        log: &mut S,
    ) -> Result<Effects, SwitchError>
        ensures effects { IfOk result (λ effects. effects.items ≡ (frame_in port frame.now self.now).effects) }
        ensures steps { OnOk result (S.KEEPS ≡ true → S.list log.new ≡ S.list log.old ++ steps_in port frame.now self.now.core.forwarding) }
        ensures bound { S.KEEPS ≡ true → length (S.list log.new) ≤ length (S.list log.old) + frame_step_bound }
        ensures err { IfErr result (λ e. (e ≡ SwitchError.NoMemory) ×
            (S.KEEPS ≡ true → GainsPrefix (steps_in port frame.now self.now.core.forwarding) (S.list log.old) (S.list log.new))) }
    {
        let heard = self.heard();
        let datapath = self.datapath();
        Ok(datapath.dry_run(self.alloc, heard, port, frame, log)?)
    }

    /// The time is this many nanoseconds, or the latest moment if that is later: expired entries are removed (OpenFlow 1.3.5, 5.5).
    ///
    /// An open connection gets a FLOW_REMOVED of each whose flags ask for one, by table, then by age.
    pub fn moment(&mut self, nanos: u64) -> Result<Effects, SwitchError>
        ensures { Call None (λ effects new. moment_in nanos self.old ≡ gives effects.items new) self.old result self.new }
    {
        let heard = self.heard();
        Ok(self.core.moment(heard, nanos)?)
    }

    /// The ports change (OpenFlow 1.3.5, 7.2.1). No flow and no group does.
    ///
    /// An open connection gets a PORT_STATUS, unless the port's description does not change.
    /// Refused, in this order: `BadPortNumber`; of `Add`: `PortExists`; `TooManyPorts`; of the others: `NoSuchPort`.
    pub fn port_change(&mut self, change: PortChange) -> Result<Effects, SwitchError>
        ensures { Call (port_refusal change self.old) (λ effects new. port_changed change self.old ≡ gives effects.items new) self.old result self.new }
    {
        let heard = self.heard();
        match change {
            PortChange::Add {
                number,
                hw,
                name,
                up,
            } => {
                self.check_new_port(number)?;
                Ok(self.core.add_port(heard, number, hw, name, up)?)
            }
            PortChange::Remove { number } => {
                self.check_port(number)?;
                Ok(self.core.remove_port(heard, number)?)
            }
            PortChange::Link { number, up } => {
                self.check_port(number)?;
                Ok(self.core.set_link(heard, number, up)?)
            }
        }
    }

    // Whether a port of that number can be added.
    fn check_new_port(&self, number: u32) -> Result<(), SwitchError>
        ensures { result_err result ≡ new_refusal number self.now }
    {
        if !is_number(number) {
            return Err(SwitchError::BadPortNumber);
        }
        let ports = &self.datapath().ports;
        if ports.contains(number) {
            return Err(SwitchError::PortExists);
        }
        if ports.is_full() {
            return Err(SwitchError::TooManyPorts);
        }
        Ok(())
    }

    // Whether there is a port of that number.
    fn check_port(&self, number: u32) -> Result<(), SwitchError>
        ensures { result_err result ≡ absent_refusal number self.now }
    {
        if !is_number(number) {
            return Err(SwitchError::BadPortNumber);
        }
        if !self.datapath().ports.contains(number) {
            return Err(SwitchError::NoSuchPort);
        }
        Ok(())
    }

    /// The groups and flows of a configuration replace those that are there, without notices.
    ///
    /// They are added at the latest moment, and their counters and those of the tables are 0. All else stays.
    pub fn load(&mut self, config: &Config) -> Result<(), SwitchError>
        ensures { Call None (λ _ new. new ≡ loaded config.now self.old) self.old result self.new }
    {
        Ok(self.core.load(config)?)
    }

    /// The groups and flows, without counters and times: as `load` would take them.
    pub fn config(&self) -> Result<Config, AllocError>
        ensures { IfOk result (λ config. config ≡ config_of self.now) }
    {
        self.core.config()
    }

    /// Events in any order, whose reports are appended: one for each event.
    ///
    /// Where memory runs out, the reports of the events before are there, and the switch is as they left it. Only of a chunk
    /// may some messages have been handled: then what they gave is reported too, in one or two reports more, and `next` goes on.
    pub fn run(&mut self, events: &[Event], reports: &mut Vec<Report>) -> Result<(), AllocError>
        ensures ok { OnOk result (RunsAll events.now self.old self.new (reports_of reports.old.items) (reports_of reports.new.items)) }
        ensures err { OnErr result (StopsWithin events.now self.old self.new (reports_of reports.old.items) (reports_of reports.new.items)) }
    {
        for event in events {
            reports.reserve(2)?;
            self.happen(event, reports)?;
        }
        Ok(())
    }

    // There is capacity for two reports.
    fn happen(&mut self, event: &Event, reports: &mut Vec<Report>) -> Result<(), AllocError>
        requires { vec_len reports.old + 2 ≤ vec_capacity reports.old }
        ensures { Happens result event.now self.old self.new (reports_of reports.old.items) (reports_of reports.new.items) }
    {
        match event {
            Event::Connect => tell(self.connected(), reports),
            Event::Lost => {
                self.lost();
                reports.push_reserved(Report::Gives(Effects::new(self.alloc)));
                Ok(())
            }
            Event::Chunk(bytes) => self.chunk(bytes.as_slice(), reports),
            Event::Frame { port, frame } => tell(self.frame(*port, frame.as_slice()), reports),
            Event::Moment(nanos) => tell(self.moment(*nanos), reports),
            Event::Ports(change) => tell(self.port_change(*change), reports),
        }
    }

    // Receives bytes of the controller, and handles each whole message.
    fn chunk(&mut self, chunk: &[u8], reports: &mut Vec<Report>) -> Result<(), AllocError>
        requires { vec_len reports.old + 2 ≤ vec_capacity reports.old }
        ensures { Happens result (Event.Chunk chunk.now) self.old self.new (reports_of reports.old.items) (reports_of reports.new.items) }
    {
        match self.feed(chunk) {
            Ok(()) => self.drain(reports),
            Err(refusal) => tell(Err(refusal), reports),
        }
    }

    // Handles all messages that are there.
    fn drain(&mut self, reports: &mut Vec<Report>) -> Result<(), AllocError>
        requires { vec_len reports.old + 2 ≤ vec_capacity reports.old }
        ensures { Drains result self.old self.new (reports_of reports.old.items) (reports_of reports.new.items) }
    {
        let mut effects = Effects::new(self.alloc);
        loop {
            match self.handle_next() {
                Ok(None) => {
                    reports.push_reserved(Report::Gives(effects));
                    return Ok(());
                }
                Ok(Some(more)) => {
                    let mut more = more;
                    if let Err(error) = effects.append(&mut more) {
                        reports.push_reserved(Report::Gives(effects));
                        reports.push_reserved(Report::Gives(more));
                        return Err(error);
                    }
                }
                Err(error) => {
                    reports.push_reserved(Report::Gives(effects));
                    return Err(error);
                }
            }
        }
    }
}

// Appends the report of a call, unless it ran out of memory.
fn tell(called: Result<Effects, SwitchError>, reports: &mut Vec<Report>) -> Result<(), AllocError>
    requires { vec_len reports.old < vec_capacity reports.old }
    ensures { TellsCall called (reports_of reports.old.items) result (reports_of reports.new.items) }
{
    let report = match called {
        Ok(effects) => Report::Gives(effects),
        Err(SwitchError::NoMemory) => return Err(AllocError),
        Err(refusal) => Report::Refused(refusal),
    };
    reports.push_reserved(report);
    Ok(())
}

// An error, and the end of the connection.
fn closing(alloc: Global, error: MessageBytes) -> Result<Effects, AllocError>
    ensures { IfOk result (λ effects. effects.items ≡ Effect.Answer error ∷ Effect.Closed ∷ []) }
{
    let mut effects = Effects::new(alloc);
    effects.push(Effect::Answer(error))?;
    effects.push(Effect::Closed)?;
    Ok(effects)
}
