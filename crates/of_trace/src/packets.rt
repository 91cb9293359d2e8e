//! The packets of a trace, in the order in which they take steps.
ghost use Rattle.std.specs.Prelude.{◌≡◌, ◌++◌, ◌∷◌, IfOk, OnOk, option_to_list, replicate};
ghost use Rattle.of_trace.specs.{Words.entering_sights, Sights.action_copies, Sights.after_step, Sights.output_copies, Sights.sight_after};
ghost use Rattle.of_datapath.specs.Datapath.{world_of};

use crate::sight::Sight;
use of_actions::Action;
use of_classifier::Lookup;
use of_headers::check_length;
use of_machine::Step;
use of_rewrite::Frame;
use of_switch::Switch;
use of_wire::limits::OFPP_TABLE;
use std::alloc::{AllocError, Global};
use std::collections::VecDeque;

/// The packets: the first takes the next step.
pub type Packets = VecDeque<Sight>;

/// The packet of a frame that is received at a port; None if the frame is too short or too long.
pub fn arrived(alloc: Global, port: u32, frame: &[u8]) -> Result<Option<Sight>, AllocError>
    ensures { IfOk result (λ packet. option_to_list packet ≡ entering_sights port frame.now) }
{
    if check_length(frame).is_err() {
        return Ok(None);
    }
    let mut received = Frame::new(frame.to_vec(alloc)?);
    received.read_headers();
    Ok(Some(Sight {
        frame: received,
        ingress: port,
        metadata: 0,
    }))
}

/// The packets with which a trace begins: that one, or none.
pub fn enter(alloc: Global, port: u32, frame: &[u8]) -> Result<Packets, AllocError>
    ensures { IfOk result (λ packets. packets.items ≡ entering_sights port frame.now) }
{
    let mut packets = VecDeque::new(alloc);
    if let Some(packet) = arrived(alloc, port, frame)? {
        packets.push_front(packet)?;
    }
    Ok(packets)
}

// Puts this many copies first.
fn put_copies(
    alloc: Global,
    packets: &mut Packets,
    sight: &Sight,
    count: usize,
) -> Result<(), AllocError>
    ensures { OnOk result (packets.new.items ≡ replicate count sight.now ++ packets.old.items) }
{
    let mut left = count;
    while left > 0 {
        packets.push_front(sight.copy(alloc)?)?;
        left -= 1;
    }
    Ok(())
}

// Puts the copy first that goes to the first table.
fn put_fresh(
    alloc: Global,
    packets: &mut Packets,
    sight: &Sight,
    port: u32,
) -> Result<(), AllocError>
    ensures { OnOk result (packets.new.items ≡ output_copies port sight.now ++ packets.old.items) }
{
    if port == OFPP_TABLE {
        let mut fresh = sight.copy(alloc)?;
        fresh.metadata = 0;
        packets.push_front(fresh)?;
    }
    Ok(())
}

// Puts the copies first that an action makes.
fn put_action_copies<L: Lookup>(
    alloc: Global,
    packets: &mut Packets,
    switch: &Switch<L>,
    sight: &Sight,
    action: Action,
) -> Result<(), AllocError>
    ensures { OnOk result (packets.new.items ≡ action_copies (world_of switch.now.core.forwarding) action sight.now ++ packets.old.items) }
{
    match action {
        Action::Output { port, .. } => put_fresh(alloc, packets, sight, port),
        Action::Group(group) => match switch.datapath().buckets_for(group) {
            None => Ok(()),
            Some(places) => put_copies(alloc, packets, sight, places.as_slice().len()),
        },
        _ => Ok(()),
    }
}

/// Puts first what takes a packet's place once it took a step: `after` is the packet then.
pub fn put_back<L: Lookup>(
    alloc: Global,
    packets: &mut Packets,
    switch: &Switch<L>,
    sight: &Sight,
    step: Step,
    after: Sight,
) -> Result<(), AllocError>
    requires { after ≡ sight_after step sight.now }
    ensures { OnOk result (packets.new.items ≡ after_step (world_of switch.now.core.forwarding) step sight.now ++ packets.old.items) }
{
    if let Step::End = step {
        return Ok(());
    }
    packets.push_front(after)?;
    if let Step::Act(action) = step {
        put_action_copies(alloc, packets, switch, sight, action)?;
    }
    Ok(())
}
