//! A switch on a network.
ghost use Rattle.std.specs.Prelude.{◌≡◌, ◌≤◌, ◌<◌, ◌++◌, ◌∷◌, [], OnOk, IfOk, IfErr, IfSome, Ok, Err, length, take, ◌||◌, ◌&&◌, if◌then◌else◌, true, false, not, drop, Bool, List, ℕ};
ghost use Rattle.std.specs.{List.flat_map, Option.option_map};
ghost use Rattle.of_live.specs.Live.{running_row_events, coming_events, frame_event, is_connected as connected, loss, peers_after, peers_of, received_datagram, rows_after, time_of, unheard_of};
ghost use Rattle.of_live.specs.Hearing.{after_message, first_message, has_room as room_left, most_handled as most_after, next_message, wanted_of};
ghost use Rattle.of_live.specs.Turns.{closes as closing_acts, dropped_in, dropped_of, drops, is_flooded as flooded, is_stuck as stuck, may_write as may_write_after};
ghost use Rattle.of_live.specs.Working.{Does, Goes, HandlesMessages, Hears, Passes, Settles, asks_by, is_closing, offered_acts, offered_to, offers, logged_text};
ghost use Rattle.of_live.specs.{Header.carried, Inputs.IsInput, Inputs.came_of, Acts.Records, Acts.Writes};
ghost use Rattle.of_switch.specs.{declared.event.Event.TheVariants.Chunk, declared.event.Event.TheVariants.Moment, Steps.lost, Runs.effects_in};
ghost use Rattle.of_serve.specs.Turns.{answer_in, due, left};

use crate::work::{Work, happen, happen_due, happen_frame};
use crate::{
    Dropped, Endpoint, Input, Network, Peer, Wanted, Written, learn, may_send, peer_of,
    read_datagram,
};
use of_classifier::Lookup;
use of_replay::Halt;
use of_serve::Rows;
use of_session::{Beginning, Stream};
use of_switch::{Event, Switch};
use of_wire::{Bytes, front_of};
use std::alloc::{AllocError, Global};
use std::marker::Model;

/// While so many bytes wait for a connection, no message of it is handled.
const ROOM: usize = 1_048_576;

/// A connection for which more bytes wait than these is closed.
const MOST_WAITING: usize = 268_435_456;

/// How many messages are handled in a turn at most.
const MESSAGES: u32 = 64;

/// How many nanoseconds a connection may take nothing, while bytes wait for it.
const LONGEST_WAIT: u64 = 10_000_000_000;

/// A switch on a network.
#[derive(Drop)]
pub struct Live<L: Lookup> {
    switch: Switch<L>,
    rows: Rows,
    peers: Vec<Peer>,
    unheard: Stream,
    waiting: Stream,
    since: u64,
    time: u64,
    over: bool,
    alloc: Global,
}

impl<L: Lookup> Model for Live<L> {
    ghost use Rattle.of_live.specs.Live.{Live};

    ghost Value = { Live };

    ghost view = { λ l. record {
      state = l.switch;
      rows = l.rows;
      peers = l.peers.items;
      unheard = l.unheard;
      waiting = l.waiting;
      since = l.since;
      time = l.time;
      over = l.over;
    } };
}

impl<L: Lookup> Live<L> {
    /// A switch with the rows of an event file, and the peers that are set.
    pub fn new(alloc: Global, switch: Switch<L>, rows: Vec<Event>, peers: Vec<Peer>) -> Self
        ensures { result ≡ record { state = switch; rows = rows.items; peers = peers.items; unheard = []; waiting = []; since = 0; time = 0; over = false } }
    {
        Live {
            switch,
            rows: Rows::new(rows),
            peers,
            unheard: Stream::new(alloc),
            waiting: Stream::new(alloc),
            since: 0,
            time: 0,
            over: false,
            alloc,
        }
    }

    /// The switch.
    pub fn switch(&self) -> &Switch<L>
        ensures { result.now ≡ self.now.state }
    {
        &self.switch
    }

    // The loss of a connection that the switch closed, or in whose place another comes.
    fn begin(&mut self, another: bool, keeps: bool, work: &mut Work) -> Result<(), AllocError>
        ensures live { OnOk result (self.new ≡ (if self.old.over || (another && connected self.old)
            then record self.old { state = lost self.old.state; unheard = []; waiting = []; over = false } else self.old)) }
        ensures reports { OnOk result (work.new.reports ≡ work.old.reports) }
        ensures text { OnOk result (work.new.text ≡ work.old.text ++ logged_text keeps (loss (self.old.over || (another && connected self.old)))) }
    {
        if self.over || (another && self.switch.is_connected()) {
            work.note_loss(keeps)?;
            self.switch.lost();
            self.unheard.clear();
            self.waiting.clear();
            self.over = false;
        }
        Ok(())
    }

    // Whether there is a connection that may be written to.
    fn may_write(&self, input: &Input) -> bool
        ensures { (buffer : List ℕ) → result ≡ may_write_after (came_of input.now buffer) self.now }
    {
        match input {
            Input::Opened => true,
            Input::Ended => false,
            _ => self.switch.is_connected(),
        }
    }

    // What is known of the connection before the events of what came.
    fn asks(&self, input: &Input) -> Asks
        ensures { (buffer : List ℕ) → result ≡ asks_by (came_of input.now buffer) self.now }
    {
        Asks {
            is_open: self.may_write(input),
            is_ready: input.is_ready(),
            is_empty: self.waiting.left().is_empty(),
        }
    }

    // The port and the frame of a datagram, or why it is dropped.
    fn receive<'a>(&self, from: Endpoint, datagram: &'a [u8]) -> Result<(u32, &'a [u8]), Dropped>
        ensures ok { IfOk result (λ d. received_datagram self.now from (carried datagram.now) ≡ Ok (record { vni = d.0; frame = d.1.now })) }
        ensures err { IfErr result (λ why. received_datagram self.now from (carried datagram.now) ≡ Err why) }
    {
        let Some((network, frame)) = read_datagram(datagram) else {
            return Err(Dropped::NoNetwork);
        };
        if !self.switch.datapath().ports.contains(network) {
            return Err(Dropped::NoSuchPort);
        }
        if !may_send(from, peer_of(network, &self.peers)) {
            return Err(Dropped::OtherPeer);
        }
        Ok((network, frame))
    }

    // A datagram is a frame of a port, or it is dropped.
    fn take_datagram<N: Network>(
        &mut self,
        from: Endpoint,
        datagram: &[u8],
        network: &mut N,
        keeps: bool,
        work: &mut Work,
    ) -> Result<(), AllocError>
        ensures does { OnOk result
            (Does keeps (frame_event (received_datagram self.old from (carried datagram.now))) self.old.state self.new.state work.old work.new) }
        ensures peers { OnOk result (self.new ≡ record self.old {
          state = self.new.state;
          peers = peers_after from (received_datagram self.old from (carried datagram.now)) self.old.peers;
        }) }
        ensures told { Records (N.told network.old) (dropped_in (received_datagram self.old from (carried datagram.now))) (N.told network.new) }
        ensures keeps { N.keeps network.new ≡ N.keeps network.old }
    {
        match self.receive(from, datagram) {
            Ok((port, frame)) => {
                learn(&mut self.peers, port, from)?;
                happen_frame(&mut self.switch, port, frame, keeps, work)
            }
            Err(why) => {
                network.count(why);
                Ok(())
            }
        }
    }

    // Bytes of the controller wait until they are handled; without a connection they are lost.
    fn take_bytes(&mut self, bytes: &[u8]) -> Result<(), AllocError>
        ensures { OnOk result (self.new ≡ record self.old { unheard = if connected self.old then self.old.unheard ++ bytes.now else self.old.unheard }) }
    {
        if self.switch.is_connected() {
            self.unheard.feed(bytes)?;
        }
        Ok(())
    }

    // The connection is over, if there is one.
    fn take_end(&mut self, keeps: bool, work: &mut Work) -> Result<(), AllocError>
        ensures does { OnOk result (Does keeps (loss (connected self.old)) self.old.state self.new.state work.old work.new) }
        ensures live { OnOk result (self.new ≡ record self.old { state = self.new.state }) }
    {
        if !self.switch.is_connected() {
            return Ok(());
        }
        happen(&mut self.switch, &Event::Lost, keeps, work)
    }

    // A row that somebody wrote while the switch runs.
    fn take_row(&mut self, row: &Event, keeps: bool, work: &mut Work) -> Result<(), AllocError>
        ensures does { OnOk result (Does keeps (running_row_events row.now) self.old.state self.new.state work.old work.new) }
        ensures live { OnOk result (self.new ≡ record self.old { state = self.new.state }) }
    {
        match row {
            Event::Frame { .. } | Event::Ports(_) => happen(&mut self.switch, row, keeps, work),
            _ => Ok(()),
        }
    }

    // The clock, and the rows of the file that are due.
    fn take_time(&mut self, now: u64, keeps: bool, work: &mut Work) -> Result<(), AllocError>
        ensures does { OnOk result (Does keeps (Moment now ∷ due now self.old.rows) self.old.state self.new.state work.old work.new) }
        ensures live { OnOk result (self.new ≡ record self.old { state = self.new.state; rows = left now self.old.rows; time = now }) }
    {
        self.time = now;
        happen(&mut self.switch, &Event::Moment(now), keeps, work)?;
        happen_due(&mut self.switch, &mut self.rows, now, keeps, work)
    }

    // The events of what came.
    fn take<N: Network>(
        &mut self,
        input: &Input,
        buffer: &[u8],
        network: &mut N,
        keeps: bool,
        work: &mut Work,
    ) -> Result<(), AllocError>
        requires fits { IsInput input.now }
        requires room { length buffer.now ≡ 65536 }
        ensures does { OnOk result (Does keeps (coming_events (came_of input.now buffer.now) self.old) self.old.state self.new.state work.old work.new) }
        ensures live { OnOk result (self.new ≡ record self.old {
          state = self.new.state;
          rows = rows_after (came_of input.now buffer.now) self.old;
          peers = peers_of (came_of input.now buffer.now) self.old;
          unheard = unheard_of (came_of input.now buffer.now) self.old;
          time = time_of (came_of input.now buffer.now) self.old;
        }) }
        ensures told { Records (N.told network.old) (dropped_of (came_of input.now buffer.now) self.old) (N.told network.new) }
        ensures keeps { N.keeps network.new ≡ N.keeps network.old }
    {
        match input {
            Input::Time(now) => self.take_time(*now, keeps, work),
            Input::Datagram { from, length } => {
                self.take_datagram(*from, front_of(buffer, *length), network, keeps, work)
            }
            Input::Opened => happen(&mut self.switch, &Event::Connect, keeps, work),
            Input::Heard(length) => self.take_bytes(front_of(buffer, *length)),
            Input::Ended => self.take_end(keeps, work),
            Input::Row(row) => self.take_row(row, keeps, work),
            Input::Ready | Input::Nothing | Input::Fault => Ok(()),
        }
    }

    // Whether less than 1 MiB waits for the connection.
    fn has_room(&self) -> bool
        ensures { result ≡ room_left self.now }
    {
        self.waiting.left().len() < ROOM
    }

    // How many bytes of the controller are a message, or a header that no message has and all behind it.
    fn message_size(&self) -> Option<usize>
        ensures message { first_message self.now.unheard ≡ option_map (λ n. take n self.now.unheard) result }
        ensures fits { IfSome result (λ n. n ≤ length self.now.unheard) }
    {
        match self.unheard.front() {
            Beginning::Message(size) => Some(size),
            Beginning::Malformed => Some(self.unheard.left().len()),
            Beginning::Waiting => None,
        }
    }

    // How many bytes of the controller are handled next, if some may be.
    fn next_size(&self) -> Option<usize>
        ensures message { next_message self.now ≡ option_map (λ n. take n self.now.unheard) result }
        ensures fits { IfSome result (λ n. n ≤ length self.now.unheard) }
    {
        if !self.switch.is_connected() || !self.has_room() {
            return None;
        }
        self.message_size()
    }

    // A message is handled, and what it gives for the controller waits.
    fn handle(&mut self, size: usize, keeps: bool, work: &mut Work) -> Result<(), AllocError>
        requires fits { size ≤ length self.old.unheard }
        ensures live { OnOk result (self.new ≡ after_message (take size self.old.unheard) self.old) }
        ensures does { OnOk result (Does keeps (Chunk (take size self.old.unheard) ∷ []) self.old.state self.new.state work.old work.new) }
    {
        let message = Bytes::from_slice(self.alloc, self.unheard.first(size))?;
        self.unheard.take(size);
        let mut given = Work::new(self.alloc);
        happen(&mut self.switch, &Event::Chunk(message), keeps, &mut given)?;
        given.answers(&mut self.waiting)?;
        work.append(given)
    }

    // Messages are handled, one after the other, until there is no next one, at most so many.
    fn handle_messages(&mut self, most: u32, keeps: bool, work: &mut Work) -> Result<(), AllocError>
        ensures { OnOk result (HandlesMessages most keeps self.old self.new work.old work.new) }
    {
        for _ in 0..most {
            let Some(size) = self.next_size() else {
                return Ok(());
            };
            self.handle(size, keeps, work)?;
        }
        Ok(())
    }

    // What came and messages are heard, and what they give for the controller waits for its connection.
    fn hear<N: Network>(
        &mut self,
        input: &Input,
        buffer: &[u8],
        network: &mut N,
        keeps: bool,
        work: &mut Work,
    ) -> Result<Asks, AllocError>
        requires fits { IsInput input.now }
        requires room { length buffer.now ≡ 65536 }
        requires empty { work.old ≡ record { reports = []; text = [] } }
        ensures hears { IfOk result (λ asks. Hears (came_of input.now buffer.now) keeps asks self.old self.new work.new) }
        ensures told { (some : Bool) × (Records (N.told network.old) (if some then drops (came_of input.now buffer.now) self.old else [])
            (N.told network.new)) × OnOk result (some ≡ true) }
        ensures keeps { N.keeps network.new ≡ N.keeps network.old }
    {
        self.begin(input.is_opened(), keeps, work)?;
        let asks = self.asks(input);
        self.take(input, buffer, network, keeps, work)?;
        self.answer(work)?;
        self.handle_messages(most_handled(input), keeps, work)?;
        Ok(asks)
    }

    // What was given for the controller waits for its connection.
    fn answer(&mut self, work: &Work) -> Result<(), AllocError>
        ensures { OnOk result (self.new ≡ record self.old { waiting = self.old.waiting ++ flat_map answer_in (effects_in work.now.reports) }) }
    {
        work.answers(&mut self.waiting)
    }

    // Whether what waits is offered to the connection.
    fn is_offered(&self, asks: Asks) -> bool
        ensures { result ≡ offers asks self.now }
    {
        asks.is_open && !self.waiting.left().is_empty() && (asks.is_empty || asks.is_ready)
    }

    // Writes what waits to the connection, which takes the first of it.
    fn write<N: Network>(&mut self, network: &mut N) -> Written
        requires { 0 < length self.old.waiting }
        ensures fits { result.taken ≤ length self.old.waiting }
        ensures live { self.new ≡ record self.old { waiting = drop result.taken self.old.waiting } }
        ensures told { Records (N.told network.old) (Writes self.old.waiting result.taken result.failed ∷ []) (N.told network.new) }
        ensures keeps { N.keeps network.new ≡ N.keeps network.old }
    {
        let written = network.write(self.waiting.left());
        self.waiting.take(written.taken);
        written
    }

    // Writes what waits, if it is to be offered.
    fn write_if<N: Network>(&mut self, asks: Asks, network: &mut N) -> Written
        ensures fits { result.taken ≤ length self.old.waiting }
        ensures live { self.new ≡ record self.old { waiting = if offers asks self.old then drop result.taken self.old.waiting else self.old.waiting } }
        ensures told { Records (N.told network.old) (offered_acts asks result.taken result.failed self.old) (N.told network.new) }
        ensures none { offers asks self.old ≡ false → (result.taken ≡ 0) × (result.failed ≡ false) }
        ensures keeps { N.keeps network.new ≡ N.keeps network.old }
    {
        if self.is_offered(asks) {
            return self.write(network);
        }
        Written {
            taken: 0,
            failed: false,
        }
    }

    // The moment since which the connection takes nothing: now, if nothing waited or it took some.
    fn settle_time(&mut self, takes: bool)
        ensures { self.new ≡ record self.old { since = if takes then self.old.time else self.old.since } }
    {
        if takes {
            self.since = self.time;
        }
    }

    // Offers what waits to the connection.
    fn offer<N: Network>(&mut self, asks: Asks, network: &mut N) -> Written
        ensures fits { result.taken ≤ length self.old.waiting }
        ensures live { self.new ≡ offered_to asks result.taken self.old }
        ensures told { Records (N.told network.old) (offered_acts asks result.taken result.failed self.old) (N.told network.new) }
        ensures failed { result.failed ≡ (offers asks self.old && result.failed) }
        ensures keeps { N.keeps network.new ≡ N.keeps network.old }
    {
        let written = self.write_if(asks, network);
        self.settle_time(asks.is_empty || written.taken > 0);
        written
    }

    // Whether the connection has taken nothing for so long that it is given up.
    fn is_stuck(&self) -> bool
        ensures { result ≡ stuck self.now.waiting self.now.since self.now.time }
    {
        !self.waiting.left().is_empty() && self.time.saturating_sub(self.since) >= LONGEST_WAIT
    }

    // Whether more than 256 MiB wait for the connection, so that it is given up.
    fn is_flooded(&self) -> bool
        ensures { result ≡ flooded self.now.waiting }
    {
        self.waiting.left().len() > MOST_WAITING
    }

    // Whether the connection is closed.
    fn is_closed(&self, asks: Asks, failed: bool) -> bool
        ensures { result ≡ is_closing asks failed self.now }
    {
        asks.is_open
            && (failed || self.is_stuck() || self.is_flooded() || !self.switch.is_connected())
    }

    // Closes the connection, or keeps it open if there is one.
    fn close_if<N: Network>(&mut self, closes: bool, is_open: bool, network: &mut N)
        ensures live { self.new ≡ record self.old {
          unheard = if closes || not is_open then [] else self.old.unheard;
          waiting = if closes || not is_open then [] else self.old.waiting;
          over = closes && connected self.old;
        } }
        ensures told { Records (N.told network.old) (closing_acts closes) (N.told network.new) }
        ensures keeps { N.keeps network.new ≡ N.keeps network.old }
    {
        self.over = closes && self.switch.is_connected();
        if closes || !is_open {
            self.unheard.clear();
            self.waiting.clear();
        }
        if closes {
            network.close();
        }
    }

    // Offers what waits to the connection, and closes it if that fails, if it is stuck, if too much is left, or if the switch
    // closed it.
    fn settle<N: Network>(&mut self, asks: Asks, network: &mut N)
        ensures settles { Settles asks self.old self.new (N.told network.old) (N.told network.new) }
        ensures keeps { N.keeps network.new ≡ N.keeps network.old }
    {
        let written = self.offer(asks, network);
        let closes = self.is_closed(asks, written.failed);
        self.close_if(closes, asks.is_open, network);
    }

    // The events of what came happen, their rows go to the log, and what they give goes out.
    fn pass<N: Network>(
        &mut self,
        input: &Input,
        buffer: &[u8],
        network: &mut N,
        work: &mut Work,
    ) -> Result<(), Halt>
        requires fits { IsInput input.now }
        requires room { length buffer.now ≡ 65536 }
        requires empty { work.old ≡ record { reports = []; text = [] } }
        ensures passes { Passes result (N.keeps network.old) (came_of input.now buffer.now) self.old self.new (N.told network.old) (N.told network.new) }
        ensures keeps { N.keeps network.new ≡ N.keeps network.old }
    {
        let keeps = network.is_logged();
        let Ok(asks) = self.hear(input, buffer, network, keeps, work) else {
            return Err(Halt::Memory);
        };
        if !work.log(network) {
            return Err(Halt::Write);
        }
        work.send(&self.peers, network);
        self.settle(asks, network);
        Ok(())
    }

    // What is wanted of the network: bytes, unless there is no room for answers or a message waits; and the next turn at once, if a
    // message may be handled.
    fn wanted(&self) -> Wanted
        ensures { result ≡ wanted_of self.now }
    {
        let has_room = self.has_room();
        let has_message = self.message_size().is_some();
        Wanted {
            hears: has_room && !has_message,
            at_once: has_room && has_message,
        }
    }

    /// A turn: something comes, its events happen, their rows go to the log, and what they give goes out.
    pub fn turn<N: Network>(
        &mut self,
        network: &mut N,
        buffer: &mut [u8],
        work: &mut Work,
    ) -> Result<(), Halt>
        requires room { length buffer.old ≡ 65536 }
        ensures goes { Goes result (N.keeps network.old) self.old self.new (N.told network.old) (N.told network.new) }
        ensures keeps { N.keeps network.new ≡ N.keeps network.old }
        ensures room { length buffer.new ≡ 65536 }
    {
        work.clear();
        let input = network.next(self.wanted(), buffer);
        if input.is_fault() {
            return Err(Halt::Read);
        }
        self.pass(&input, buffer, network, work)
    }
}

// How many messages are handled in the turn in which this comes: none if it may be a frame, so that no frame waits for them.
fn most_handled(input: &Input) -> u32
    ensures { (buffer : List ℕ) → result ≡ most_after (came_of input.now buffer) }
{
    match input {
        Input::Datagram { .. } | Input::Row(_) => 0,
        _ => MESSAGES,
    }
}

/// What is known of the connection when what waits is offered to it.
#[derive(Clone, Copy, PartialEq, Eq)]
pub struct Asks {
    /// Whether there is one.
    pub is_open: bool,
    /// Whether it said that it takes bytes again.
    pub is_ready: bool,
    /// Whether nothing waited for it.
    pub is_empty: bool,
}
