//! The network of `live`: datagrams, a controller, a clock, rows of standard input and a log.

mod endpoints;
mod lines;
mod network;
mod outside;
mod port_rows;
mod standard_rows;
mod tunnel;

pub use endpoints::{endpoint_of, is_own};
pub use network::Sockets;
pub use port_rows::PortRows;
