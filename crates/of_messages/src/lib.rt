//! OpenFlow messages: their values, and the bytes that encode them.
#![tactic(auto)]

mod async_masks;
mod bucket_reading;
mod config;
mod features;
mod flow_mod_writing;
mod group_mod;
mod group_mod_writing;
mod head;
mod hello;
mod laws;
mod message;
mod message_bytes;
mod multipart;
mod port_mod;
mod port_status;
mod reading;
mod role;
mod writing;

pub use async_masks::{AsyncMasks, RoleMasks, put_role_masks, write_async_reply};
pub use config::{SwitchConfig, TableMod, write_config_reply};
pub use features::write_features_reply;
pub use flow_mod_writing::write_flow_mod;
pub use group_mod::{GroupMod, NewGroup};
pub use group_mod_writing::{write_buckets, write_group_mod};
pub use head::check_head;
pub use hello::agreed_version;
pub use laws::{elements_are_whole, header_tells_length};
pub use message::{FlowMod, FlowModCommand, FlowRemoved, Message, PacketData, PacketIn, PacketOut};
pub use message_bytes::MessageBytes;
pub use multipart::{FlowStatsRequest, MultipartRequest};
pub use of_wire::{FlowRemovedReason, PacketInReason};
pub use port_mod::{PortDescription, PortMod, PortStatusReason};
pub use port_status::{put_port, write_port_status};
pub use reading::{is_ingress, read_message, read_message_as};
pub use role::{Role, RoleRequest, write_role_reply};
pub use writing::{
    write_barrier_reply, write_echo_reply, write_error, write_flow_removed, write_hello,
    write_packet_in,
};
