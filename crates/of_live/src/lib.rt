//! A switch on a network: frames in VXLAN datagrams (RFC 7348), a controller, and a log of what happened.
#![tactic(auto)]

mod framing;
mod header;
mod laws;
mod network;
mod peers;
mod rows;
mod running;
mod running_rows;
mod state;
mod work;

pub use framing::{carried_frames_have_headers, written_headers_are_read};
pub use header::{HEADER, read_datagram, write_header};
pub use laws::{logs_are_read, turns_are_a_run};
pub use network::{Dropped, Endpoint, Input, Network, Wanted, Written};
pub use peers::{Peer, learn, may_send, peer_of};
pub use rows::{push_chunk_row, push_frame_row, push_row};
pub use running::live;
pub use running_rows::{RunningRow, read_running_row};
pub use state::Live;
