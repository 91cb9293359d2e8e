//! Whether two switches send the same.
ghost use Rattle.std.specs.Prelude.{◌≡◌, ◌≢◌, ◌↔◌, ◌⊎◌, ◌∷◌, ◌<◌, ℕ, [], IfNone, IfOk, IfSome, IsTrue, OnOk, length, true};
ghost use Rattle.std.specs.List.{Contains};
ghost use Rattle.of_alike.specs.Alike.{DiffersAt, IsAlikeAt, LeavesAlike, leaves_at, leaving, sent_by};
ghost use Rattle.of_alike.specs.declared.alike.Where.TheVariants.{Port as ByPort};

use of_machine::{Item, ToController};
use std::alloc::{AllocError, Global};

/// What of that which leaves two switches is compared.
#[derive(Clone, Copy, PartialEq, Eq)]
pub enum Compared {
    /// The frames that leave by each port.
    Frames,
    /// These, and the packets to the controller.
    All,
}

/// Where two switches send something else.
#[derive(Clone, Copy, PartialEq, Eq)]
pub enum Where {
    /// Out of the port of this number.
    Port(u32),
    /// To the controller.
    Controller,
}

// Whether an item leaves there.
fn leaves_there(item: &Item, at: Where) -> bool
    ensures { result ≡ leaves_at at item.now }
{
    match (item, at) {
        (Item::Sent { port, .. }, Where::Port(number)) => *port == number,
        (Item::PacketIn(_), Where::Controller) => true,
        (Item::Sent { .. }, Where::Controller) | (Item::PacketIn(_), Where::Port(_)) => false,
    }
}

// The next item that leaves there, and those after it.
fn next_to(items: &[Item], at: Where) -> Option<(&Item, &[Item])>
    ensures some { IfSome result (λ next. (leaving at items.now ≡ next.0.now ∷ leaving at next.1.now) × (length next.1.now < length items.now)) }
    ensures none { IfNone result (leaving at items.now ≡ []) }
{
    let mut rest = items;
    while let [item, behind @ ..] = rest {
        if leaves_there(item, at) {
            return Some((item, behind));
        }
        rest = behind;
    }
    None
}

// Whether the controller gets the same packet.
fn is_same_packet(a: &ToController, b: &ToController) -> bool
    ensures { IsTrue result ↔ (a.now ≡ b.now) }
{
    a.reason == b.reason
        && a.table == b.table
        && a.cookie == b.cookie
        && a.ingress == b.ingress
        && a.metadata == b.metadata
        && a.max_len == b.max_len
        && a.frame.as_slice() == b.frame.as_slice()
}

// Whether the same leaves by the same port, or goes to the controller.
fn is_same_item(a: &Item, b: &Item) -> bool
    ensures { IsTrue result ↔ (a.now ≡ b.now) }
{
    match (a, b) {
        (
            Item::Sent { port, frame },
            Item::Sent {
                port: by,
                frame: other,
            },
        ) => { port == by && frame.as_slice() == other.as_slice() }
        (Item::PacketIn(packet), Item::PacketIn(other)) => is_same_packet(packet, other),
        (Item::Sent { .. }, Item::PacketIn(_)) | (Item::PacketIn(_), Item::Sent { .. }) => false,
    }
}

// Whether the same leaves there, in the same order.
fn is_alike_at(a: &[Item], b: &[Item], at: Where) -> bool
    ensures { IsTrue result ↔ IsAlikeAt at a.now b.now }
{
    let (mut left, mut right) = (a, b);
    while let Some((item, behind)) = next_to(left, at) {
        let Some((other, rest)) = next_to(right, at) else {
            return false;
        };
        if !is_same_item(item, other) {
            return false;
        }
        left = behind;
        right = rest;
    }
    next_to(right, at).is_none()
}

// Appends the port by which an item leaves, if it is not listed.
fn push_port_of(ports: &mut Vec<u32>, item: &Item) -> Result<(), AllocError>
    ensures kept { OnOk result ((q : ℕ) → Contains ports.old.items q → Contains ports.new.items q) }
    ensures named { OnOk result ((q : ℕ) → leaves_at (ByPort q) item.now ≡ true → Contains ports.new.items q) }
{
    if let Item::Sent { port, .. } = item {
        if !ports.contains(port) {
            ports.push(*port)?;
        }
    }
    Ok(())
}

// Appends the ports by which items leave.
fn push_ports(ports: &mut Vec<u32>, items: &[Item]) -> Result<(), AllocError>
    ensures kept { OnOk result ((q : ℕ) → Contains ports.old.items q → Contains ports.new.items q) }
    ensures all { OnOk result ((q : ℕ) → Contains ports.new.items q ⊎ (leaving (ByPort q) items.now ≡ [])) }
{
    for item in items {
        push_port_of(ports, item)?;
    }
    Ok(())
}

// The first of these ports by which other frames leave.
fn first_other(ports: &[u32], a: &[Item], b: &[Item]) -> Option<u32>
    ensures some { IfSome result (λ q. sent_by q a.now ≢ sent_by q b.now) }
    ensures none { IfNone result ((q : ℕ) → Contains ports.now q → sent_by q a.now ≡ sent_by q b.now) }
{
    for port in ports {
        if !is_alike_at(a, b, Where::Port(*port)) {
            return Some(*port);
        }
    }
    None
}

// The first port by which other frames leave, in the order in which the items name them.
fn first_port(alloc: Global, a: &[Item], b: &[Item]) -> Result<Option<u32>, AllocError>
    ensures some { IfOk result (λ found. IfSome found (λ q. sent_by q a.now ≢ sent_by q b.now)) }
    ensures none { IfOk result (λ found. IfNone found ((q : ℕ) → sent_by q a.now ≡ sent_by q b.now)) }
{
    let mut ports = Vec::new(alloc);
    push_ports(&mut ports, a)?;
    push_ports(&mut ports, b)?;
    Ok(first_other(&ports, a, b))
}

/// The first port by which other frames leave, in the order in which the items name them, or the controller, if it gets other packets and these are
/// compared (OpenFlow 1.3.5, 5.1). None if what leaves is alike.
pub fn first_difference(
    alloc: Global,
    compared: Compared,
    a: &[Item],
    b: &[Item],
) -> Result<Option<Where>, AllocError>
    ensures some { IfOk result (λ found. IfSome found (λ at. DiffersAt compared at a.now b.now)) }
    ensures none { IfOk result (λ found. IfNone found (LeavesAlike compared a.now b.now)) }
{
    if let Some(port) = first_port(alloc, a, b)? {
        return Ok(Some(Where::Port(port)));
    }
    if compared == Compared::All && !is_alike_at(a, b, Where::Controller) {
        return Ok(Some(Where::Controller));
    }
    Ok(None)
}
