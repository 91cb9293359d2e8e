//! Any message of a controller as bytes.
ghost use Rattle.std.specs.Prelude.{◌≡◌, ℕ, List, true, Ok, IfOk, IfErr};
ghost use Rattle.of_layers.specs.WellFormed.{AreBytes};
ghost use Rattle.of_messages.specs.Messages.{message_of, xid_of};
ghost use Rattle.of_laws.specs.{Grammar.Encodes, Canonical.canonical_message as canonical_bytes, Sound.is_sound as has_bytes, Written.IsWritten};

use crate::flow_mod::write_sound_flow_mod;
use crate::group_mod::write_group_request;
use crate::header::write_with;
use crate::multipart::write_multipart;
use crate::packet_out::write_packet_out;
use crate::small::{
    write_port_mod, write_role_request, write_set_async, write_set_config, write_table_mod,
};
use crate::sound::is_sound;
use crate::write_error::WriteError;
use of_formats::messages::{
    BARRIER_REQUEST, ECHO_REPLY, ECHO_REQUEST, ERROR, FEATURES_REQUEST, GET_ASYNC_REQUEST,
    GET_CONFIG_REQUEST, HELLO,
};
use of_messages::{Message, MessageBytes};
use of_wire::Bytes;
use std::alloc::{AllocError, Global};

fn write_sound(alloc: Global, xid: u32, message: &Message) -> Result<Bytes, AllocError>
    requires { has_bytes message.now ≡ true }
    ensures { IfOk result (IsWritten xid message.now) }
{
    match message {
        Message::Hello => write_with(alloc, HELLO, &[], xid),
        Message::Error => write_with(alloc, ERROR, &[0; 4], xid),
        Message::EchoRequest(echoed) => write_with(alloc, ECHO_REQUEST, echoed.as_slice(), xid),
        Message::EchoReply => write_with(alloc, ECHO_REPLY, &[], xid),
        Message::FeaturesRequest => write_with(alloc, FEATURES_REQUEST, &[], xid),
        Message::GetConfigRequest => write_with(alloc, GET_CONFIG_REQUEST, &[], xid),
        Message::SetConfig(config) => write_set_config(alloc, xid, *config),
        Message::PacketOut(m) => write_packet_out(alloc, xid, m),
        Message::FlowMod(m) => write_sound_flow_mod(alloc, xid, m),
        Message::GroupMod(m) => write_group_request(alloc, xid, m),
        Message::PortMod(m) => write_port_mod(alloc, xid, *m),
        Message::TableMod(m) => write_table_mod(alloc, xid, *m),
        Message::Multipart(request) => write_multipart(alloc, xid, request),
        Message::BarrierRequest => write_with(alloc, BARRIER_REQUEST, &[], xid),
        Message::RoleRequest(request) => write_role_request(alloc, xid, *request),
        Message::GetAsyncRequest => write_with(alloc, GET_ASYNC_REQUEST, &[], xid),
        Message::SetAsync(masks) => write_set_async(alloc, xid, *masks),
    }
}

/// The message of a controller as bytes, in the one encoding that is written (OpenFlow 1.3.5, 7).
///
/// What `of_messages::read_message` does not keep is left out or 0: a HELLO has no elements, an ERROR type and code 0 and no
/// data, an ECHO_REPLY no data, a held PACKET_OUT nothing behind its actions, and a DELETE of a group no buckets.
pub fn write_message(alloc: Global, xid: u32, message: &Message) -> Result<MessageBytes, WriteError>
    ensures canonical { IfOk result (λ bytes. bytes ≡ canonical_bytes xid message.now) }
    ensures encoded { IfOk result (λ bytes. Encodes xid message.now bytes) }
    ensures read_again { IfOk result (λ bytes. (message_of bytes ≡ Ok message.now) × (xid_of bytes ≡ xid)) }
    ensures not_encoded { IfErr result (λ e. e ≡ WriteError.NotEncoded → (x : ℕ) (bytes : List ℕ) → ¬ Encodes x message.now bytes) }
    ensures read_is_written { IfErr result (λ e. e ≡ WriteError.NotEncoded → (bytes : List ℕ) → AreBytes bytes → ¬ (message_of bytes ≡ Ok message.now)) }
{
    if !is_sound(message) {
        return Err(WriteError::NotEncoded);
    }
    let bytes = write_sound(alloc, xid, message)?;
    Ok(MessageBytes::new(bytes))
}
