//! Which messages some bytes encode.
ghost use Rattle.std.specs.{Prelude.◌≡◌, List.list_all};
ghost use Rattle.of_messages.specs.Configs.{names_table as is_named};
ghost use Rattle.of_laws.specs.Sound.{counts_nothing as is_fresh, is_one as is_asked, is_sound as has_bytes, is_sound_flow_mod, is_sound_group, is_sound_group_mod, is_sound_packet, is_sound_request};

use of_actions::check_flow;
use of_groups::Bucket;
use of_headers::check_length;
use of_messages::{FlowMod, GroupMod, Message, MultipartRequest, NewGroup, PacketData, is_ingress};
use of_wire::limits::{OFP_NO_BUFFER, OFPG_ALL, OFPG_MAX, OFPP_ANY};

/// OFPPC_PORT_DOWN, OFPPC_NO_RECV, OFPPC_NO_FWD and OFPPC_NO_PACKET_IN.
const PORT_BITS: u32 = 1 | 4 | 32 | 64;

/// How many bytes may follow a header.
const MOST: usize = 65_527;

// A table, or OFPTT_ALL.
fn is_table_or_all(table: u8) -> bool
    ensures { result ≡ is_named table }
{
    matches!(table, 0..=15 | 255)
}

fn is_packet(packet: &PacketData) -> bool
    ensures { result ≡ is_sound_packet packet.now }
{
    match packet {
        PacketData::Buffered(number) => *number != OFP_NO_BUFFER,
        PacketData::Frame(frame) => check_length(frame.as_slice()).is_ok(),
    }
}

fn is_flow_mod(m: &FlowMod) -> bool
    ensures { result ≡ is_sound_flow_mod m.now }
{
    let is_command = if m.command.is_delete() {
        is_table_or_all(m.table) && m.instructions.is_empty()
    } else {
        m.table < 16 && m.instructions.are_for(m.table)
    };
    is_command && m.flags < 32 && check_flow(&m.fields, m.instructions.as_slice()).is_ok()
}

fn counts_nothing(bucket: &Bucket) -> bool
    ensures { result ≡ is_fresh bucket.now }
{
    bucket.packets == 0 && bucket.bytes == 0
}

fn count_nothing(buckets: &[Bucket]) -> bool
    ensures { result ≡ list_all is_fresh buckets.now }
{
    buckets.iter().all(|bucket| counts_nothing(bucket))
}

fn is_group(group: &NewGroup) -> bool
    ensures { result ≡ is_sound_group group.now }
{
    group.id <= OFPG_MAX && count_nothing(group.buckets.as_slice())
}

fn is_group_mod(m: &GroupMod) -> bool
    ensures { result ≡ is_sound_group_mod m.now }
{
    match m {
        GroupMod::Add(group) | GroupMod::Modify(group) => is_group(group),
        GroupMod::Delete(None) => true,
        GroupMod::Delete(Some(number)) => *number <= OFPG_MAX,
    }
}

// One port or group, or all of them.
fn is_asked_for(all: u32, asked: Option<u32>) -> bool
    ensures { result ≡ is_asked all asked }
{
    asked != Some(all)
}

fn is_request(request: &MultipartRequest) -> bool
    ensures { result ≡ is_sound_request request.now }
{
    match request {
        MultipartRequest::Flow(r) | MultipartRequest::Aggregate(r) => is_table_or_all(r.table),
        MultipartRequest::PortStats(port) => is_asked_for(OFPP_ANY, *port),
        MultipartRequest::Group(group) => is_asked_for(OFPG_ALL, *group),
        _ => true,
    }
}

/// Whether some bytes encode the message.
pub(crate) fn is_sound(message: &Message) -> bool
    ensures { result ≡ has_bytes message.now }
{
    match message {
        Message::EchoRequest(echoed) => echoed.len() <= MOST,
        Message::PacketOut(m) => is_ingress(m.in_port) && is_packet(&m.packet),
        Message::FlowMod(m) => is_flow_mod(m),
        Message::GroupMod(m) => is_group_mod(m),
        Message::PortMod(m) => m.mask & PORT_BITS == m.mask,
        Message::TableMod(m) => is_table_or_all(m.table),
        Message::Multipart(request) => is_request(request),
        _ => true,
    }
}
