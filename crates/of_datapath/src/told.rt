//! What is sent of what a packet's run emitted, and which frames are held for it.
ghost use Rattle.std.specs.Prelude.{◌≡◌, ◌≤◌, ◌++◌, ◌∷◌, [], IfOk, OnOk, length, flat_map, false};
ghost use Rattle.std.specs.Option.{option_map_or};
ghost use Rattle.of_ports.specs.Ports.{port_at};
ghost use Rattle.of_datapath.specs.Told.{each_told, effect_of, frames_for, given_items, id_after, is_given as is_given_to, is_held as is_to_be_held, is_suppressed as is_silenced_by, limit_of as limit_for, packet_in_of};
ghost use Rattle.of_datapath.specs.Buffers.{last_id};
ghost use Rattle.of_machine.specs.Growth.{AllShort, frame_of};

use crate::control::{AsyncConfig, lets_through};
use crate::effect::{Effect, Effects};
use crate::{HeldFrame, following_id};
use of_headers::check_length;
use of_machine::{Item, Items, PacketInReason, ToController};
use of_messages::{PacketIn, write_packet_in};
use of_ports::Ports;
use of_wire::front_of;
use of_wire::limits::{OFP_NO_BUFFER, OFPCML_NO_BUFFER};
use std::alloc::{AllocError, Global};

/// What is sent of what a run emitted, and the frames that are held for it, both in order.
#[derive(Drop)]
pub struct Told {
    pub effects: Effects,
    pub held: Vec<HeldFrame>,
    /// The id that the next frame gets.
    next_id: u32,
}

// Whether its ingress port suppresses it.
fn is_suppressed(ports: &Ports, packet: &ToController) -> bool
    ensures { result ≡ is_silenced_by ports.now packet.now }
{
    packet.reason == PacketInReason::NoMatch && tells_no_packet_in(ports, packet.ingress)
}

fn tells_no_packet_in(ports: &Ports, number: u32) -> bool
    ensures { result ≡ option_map_or (λ q. q.config.no_packet_in) (port_at ports.now number) false }
{
    match ports.port(number) {
        Some(port) => port.config.no_packet_in,
        None => false,
    }
}

// Whether it is sent.
fn is_given(heard: AsyncConfig, ports: &Ports, item: &Item) -> bool
    ensures { result ≡ is_given_to heard ports.now item.now }
{
    match item {
        Item::Sent { .. } => true,
        Item::PacketIn(packet) => {
            lets_through(heard.packet_in, packet.reason.bit()) && !is_suppressed(ports, packet)
        }
    }
}

// How many bytes of its frame a PACKET_IN may have.
fn limit_of(heard: AsyncConfig, packet: &ToController) -> u16
    ensures { result ≡ limit_for heard packet.now }
{
    packet.max_len.unwrap_or(heard.miss_send_len)
}

// Whether the frame is held, so that its first bytes alone are sent.
fn is_held(heard: AsyncConfig, packet: &ToController) -> bool
    ensures { result ≡ is_to_be_held heard packet.now }
{
    let limit = limit_of(heard, packet);
    limit != OFPCML_NO_BUFFER
        && usize::from(limit) < packet.frame.len()
        && check_length(packet.frame.as_slice()).is_ok()
}

// The PACKET_IN of a packet with these bytes of its frame.
fn packet_in(
    alloc: Global,
    packet: &ToController,
    buffer: u32,
    bytes: &[u8],
) -> Result<Effect, AllocError>
    requires short { length packet.now.frame ≤ 65485 }
    requires bytes { length bytes.now ≤ 65485 }
    ensures { IfOk result (λ effect. effect ≡ packet_in_of packet.now buffer bytes.now) }
{
    let told = PacketIn {
        buffer,
        total_len: packet.frame.len() as u16,
        reason: packet.reason,
        table: packet.table,
        cookie: packet.cookie,
        in_port: packet.ingress,
        metadata: packet.metadata,
    };
    Ok(Effect::Answer(write_packet_in(alloc, 0, &told, bytes)?))
}

impl Told {
    // Tells of an item that is given.
    fn tell(&mut self, alloc: Global, heard: AsyncConfig, item: Item) -> Result<(), AllocError>
        requires short { length (frame_of item) ≤ 65485 }
        requires id { self.old.next_id ≤ last_id }
        ensures next { OnOk result (self.new.next_id ≡ id_after heard self.old.next_id item) }
        ensures most { OnOk result (self.new.next_id ≤ last_id) }
        ensures effects { OnOk result (self.new.effects.items ≡ self.old.effects.items ++ effect_of heard self.old.next_id item ∷ []) }
        ensures held { OnOk result (self.new.held.items ≡ self.old.held.items ++ frames_for heard item) }
    {
        match item {
            Item::Sent { port, frame } => Ok(self.effects.push(Effect::Sent { port, frame })?),
            Item::PacketIn(packet) => self.tell_controller(alloc, heard, packet),
        }
    }

    fn tell_controller(
        &mut self,
        alloc: Global,
        heard: AsyncConfig,
        packet: ToController,
    ) -> Result<(), AllocError>
        requires short { length packet.frame ≤ 65485 }
        requires id { self.old.next_id ≤ last_id }
        ensures next { OnOk result (self.new.next_id ≡ id_after heard self.old.next_id (Item.PacketIn packet)) }
        ensures most { OnOk result (self.new.next_id ≤ last_id) }
        ensures effects { OnOk result (self.new.effects.items ≡ self.old.effects.items ++ effect_of heard self.old.next_id (Item.PacketIn packet) ∷ []) }
        ensures held { OnOk result (self.new.held.items ≡ self.old.held.items ++ frames_for heard (Item.PacketIn packet)) }
    {
        if !is_held(heard, &packet) {
            let whole = packet_in(alloc, &packet, OFP_NO_BUFFER, packet.frame.as_slice())?;
            return Ok(self.effects.push(whole)?);
        }
        let limit = usize::from(limit_of(heard, &packet));
        let first = front_of(packet.frame.as_slice(), limit);
        let part = packet_in(alloc, &packet, self.next_id, first)?;
        self.effects.push(part)?;
        self.held
            .push(HeldFrame::new(packet.frame, packet.ingress))?;
        self.next_id = following_id(self.next_id);
        Ok(())
    }
}

/// What a switch sends of what was emitted, for a controller that receives this, with these ports; the first frame that is held
/// gets that id.
pub fn told_from(
    alloc: Global,
    heard: AsyncConfig,
    ports: &Ports,
    next_id: u32,
    items: Items,
) -> Result<Told, AllocError>
    requires short { AllShort 65485 items.items }
    requires id { next_id ≤ last_id }
    ensures effects { IfOk result (λ told. told.effects.items ≡ each_told heard next_id (given_items heard ports.now items.items)) }
    ensures held { IfOk result (λ told. told.held.items ≡ flat_map (frames_for heard) (given_items heard ports.now items.items)) }
{
    let mut told = Told {
        effects: Effects::new(alloc),
        held: Vec::new(alloc),
        next_id,
    };
    for item in items {
        if is_given(heard, ports, &item) {
            told.tell(alloc, heard, item)?;
        }
    }
    Ok(told)
}
