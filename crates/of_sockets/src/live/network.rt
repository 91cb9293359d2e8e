//! The network of a live switch: sockets and a log.
ghost use Rattle.std.specs.Prelude.{◌≡◌, None as NotTold};

use super::outside::Outside;
use super::port_rows::PortRows;
use crate::event_log::EventLog;
use crate::opening::{Unopened, said};
use crate::teller::Teller;
use of_command_line::Live as Asked;
use of_live::{Dropped, Endpoint, Input, Network, Wanted, Written};
use of_switch::Event;

/// Sockets, a clock and a log. What passed is not recorded.
#[derive(Drop)]
pub struct Sockets<'r> {
    outside: Outside<'r>,
    log: Option<EventLog<'r>>,
    keeps: bool,
}

impl<'r> Sockets<'r> {
    /// Opens the sockets, and the log with the rows of what happened to the switch already. None, with a line on standard error, if one
    /// does not open.
    pub fn begin(
        teller: &'r Teller<'r>,
        asked: &Asked,
        first: &[Event],
        ports: Option<PortRows<'r>>,
    ) -> Option<Self> {
        said(teller, Sockets::new(teller, asked, first, ports))
    }

    fn new(
        teller: &'r Teller<'r>,
        asked: &Asked,
        first: &[Event],
        ports: Option<PortRows<'r>>,
    ) -> Result<Self, Unopened> {
        let outside = Outside::new(teller, asked, ports)?;
        let log = EventLog::begin(teller, &asked.log, asked.dpid, first)?;
        let keeps = log.is_some();
        Ok(Sockets {
            outside,
            log,
            keeps,
        })
    }

    /// Says on standard error what was dropped, if anything was.
    pub fn say_counts(&self) {
        self.outside.say_counts();
    }
}

impl Network for Sockets<'_> {
    ghost told = { λ _. NotTold };

    ghost keeps = { λ s. s.keeps };

    fn next(&mut self, wanted: Wanted, buffer: &mut [u8]) -> Input {
        self.outside.next(wanted, buffer)
    }

    fn is_logged(&self) -> bool {
        self.keeps
    }

    fn log(&mut self, rows: &[u8]) -> bool {
        match &mut self.log {
            Some(log) => log.write(rows),
            None => true,
        }
    }

    fn send(&mut self, to: Endpoint, header: [u8; 8], frame: &[u8]) {
        self.outside.send(to, header, frame);
    }

    fn count(&mut self, why: Dropped) {
        self.outside.count(why);
    }

    fn write(&mut self, bytes: &[u8]) -> Written {
        self.outside.write(bytes)
    }

    fn close(&mut self) {
        self.outside.close();
    }
}
