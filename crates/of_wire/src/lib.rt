//! What the other crates share: bytes, error codes, and lists of items on the wire.
#![tactic(auto)]

mod bytes;
mod code;
mod code_name;
pub mod codes;
pub mod limits;
mod parts;
mod reasons;
mod slices;
mod writing;

pub use bytes::Bytes;
pub use code::{Code, ReadError};
pub use parts::{keyword, part_at};
pub use reasons::{FlowRemovedReason, PacketInReason};
pub use slices::{front_of, front_part, number_at, rest_from};
pub use writing::{put_number, put_u16, put_u32, put_u64, put_zeros, replace_u16};
