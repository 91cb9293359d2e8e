//! What leaves a switch, as JSON.
ghost use Rattle.std.specs.Prelude.{◌≡◌, ◌++◌, OnOk};
ghost use Rattle.of_json.specs.LeavingJson.{controller_place, leaving_members, item_object, items_member, max_len_member, packet_in_members, port_place};

use crate::items::reason_name;
use crate::{
    push_array_member, push_bytes_member, push_hex_member, push_key, push_number_member,
    push_quoted, push_text_member,
};
use of_machine::{Item, ToController};
use of_values::push_decimal;
use std::alloc::{AllocError, Global};

/// Appends a first member: the number of a port.
#[tactic(auto, unfolding(crate::specs::LeavingJson::port_place))]
pub fn push_port_place(out: &mut Vec<u8>, name: &[u8], port: u32) -> Result<(), AllocError>
    ensures { OnOk result (out.new.items ≡ out.old.items ++ port_place name.now port) }
{
    push_key(out, name)?;
    push_decimal(out, u128::from(port))
}

/// Appends a first member: the controller.
#[tactic(auto, unfolding(crate::specs::LeavingJson::controller_place))]
pub fn push_controller_place(out: &mut Vec<u8>, name: &[u8]) -> Result<(), AllocError>
    ensures { OnOk result (out.new.items ≡ out.old.items ++ controller_place name.now) }
{
    push_key(out, name)?;
    push_quoted(out, b"controller")
}

#[tactic(auto, unfolding(crate::specs::LeavingJson::max_len_member))]
fn push_max_len_member(out: &mut Vec<u8>, max_len: Option<u16>) -> Result<(), AllocError>
    ensures { OnOk result (out.new.items ≡ out.old.items ++ max_len_member max_len) }
{
    match max_len {
        None => Ok(()),
        Some(max_len) => push_number_member(out, b"max_len", u128::from(max_len)),
    }
}

#[tactic(auto, unfolding(crate::specs::LeavingJson::packet_in_members))]
fn push_packet_in_members(
    alloc: Global,
    out: &mut Vec<u8>,
    packet: &ToController,
) -> Result<(), AllocError>
    ensures { OnOk result (out.new.items ≡ out.old.items ++ packet_in_members packet.now) }
{
    push_controller_place(out, b"port")?;
    push_text_member(out, b"reason", reason_name(packet.reason))?;
    push_number_member(out, b"table", u128::from(packet.table))?;
    push_hex_member(out, b"cookie", u128::from(packet.cookie))?;
    push_hex_member(out, b"metadata", u128::from(packet.metadata))?;
    push_max_len_member(out, packet.max_len)?;
    push_bytes_member(alloc, out, b"frame", packet.frame.as_slice())
}

#[tactic(auto, unfolding(crate::specs::LeavingJson::leaving_members))]
fn push_item_members(alloc: Global, out: &mut Vec<u8>, item: &Item) -> Result<(), AllocError>
    ensures { OnOk result (out.new.items ≡ out.old.items ++ leaving_members item.now) }
{
    match item {
        Item::Sent { port, frame } => {
            push_port_place(out, b"port", *port)?;
            push_bytes_member(alloc, out, b"frame", frame.as_slice())
        }
        Item::PacketIn(packet) => push_packet_in_members(alloc, out, packet),
    }
}

#[tactic(auto, unfolding(crate::specs::LeavingJson::item_object))]
fn push_item_object(alloc: Global, out: &mut Vec<u8>, item: &Item) -> Result<(), AllocError>
    ensures { OnOk result (out.new.items ≡ out.old.items ++ item_object item.now) }
{
    out.push(b'{')?;
    push_item_members(alloc, out, item)?;
    out.push(b'}')?;
    Ok(())
}

/// Appends a further member: an array with an object for each item.
#[tactic(auto, unfolding(crate::specs::LeavingJson::items_member, crate::specs::Strings::array_member))]
pub fn push_items_member(
    alloc: Global,
    out: &mut Vec<u8>,
    name: &[u8],
    items: &[Item],
) -> Result<(), AllocError>
    ensures { OnOk result (out.new.items ≡ out.old.items ++ items_member name.now items.now) }
{
    push_array_member(
        out,
        name,
        items,
        |out, item| push_item_object(alloc, out, item),
    )
}
