use crate::port_change::PortChange;
use crate::switch_error::SwitchError;
use of_datapath::Effects;
use of_wire::Bytes;

/// What happens to a switch.
#[derive(Drop)]
pub enum Event {
    /// A controller connects.
    Connect,
    /// The connection is lost, or closed by the controller.
    Lost,
    /// Bytes of the controller are received, cut anywhere.
    Chunk(Bytes),
    /// A frame is received at a port.
    Frame { port: u32, frame: Bytes },
    /// The time is this many nanoseconds.
    Moment(u64),
    /// The ports change.
    Ports(PortChange),
}

/// What an event gave.
#[derive(Drop)]
pub enum Report {
    /// These effects, in order.
    Gives(Effects),
    /// Nothing: it was refused, and changed nothing.
    Refused(SwitchError),
}
