//! What forwards frames: the flow tables, the groups and the ports, and the frames that are held.
ghost use Rattle.std.specs.Prelude.{◌≡◌, ◌≤◌, IfOk, OnErr, length, IsTrue, true, [], ◌∷◌, flat_map};
ghost use Rattle.of_table.specs.Tables.{all_numbers, tables_of, looked_in, matched_in, left_in, notices_in};
ghost use Rattle.of_groups.specs.Sound.{AreSound};
ghost use Rattle.of_actions.specs.Supported.{are_supported};
ghost use Rattle.of_machine.specs.{Growth.AllShort, Rows.Lookup as LookUp, Rows.acts, Rows.entering};
ghost use Rattle.of_datapath.specs.Datapath.{all_sent, all_tallied, forwards, framed, idle, received, sent, tallied, through, without_held};
ghost use Rattle.of_datapath.specs.Numbers.{Contents, all_placed, contents_of, forwarding_of, numbered_world, place_in, placed_count};
ghost use Rattle.of_datapath.specs.{Commands.notice_effects, Told.each_told, Told.frames_for, Told.given_items, Applying.with_held, Applying.with_reception, Applying.without_used};

use crate::commands::notices;
use crate::control::AsyncConfig;
use crate::effect::{Effect, Effects};
use crate::reception::Reception;
use crate::removal::Removal;
use crate::told::told_from;
use crate::{HeldFrame, HeldFrames};
use of_actions::Action;
use of_classifier::Lookup;
use of_groups::{Chosen, Groups};
use of_headers::{FieldKey, check_length};
use of_machine::{Count, NoLog, Outcome, Packet, PacketFrame, World, run, run_actions};
use of_ports::{Port, PortCount, Ports};
use of_table::{Cause, Flow, FlowTables};
use of_wire::limits::TABLES;
use std::alloc::{AllocError, Global};

/// The flow tables, the groups, the ports, and the frames that are held for the controller.
#[derive(Drop)]
pub struct Datapath<L: Lookup> {
    pub tables: FlowTables<L>,
    pub groups: Groups,
    pub ports: Ports,
    pub held: HeldFrames,
}

/// The invariants of the groups.
pub fn known_groups(groups: &Groups)
    ensures { AreSound groups.now }
{
    groups.groups();
}

impl<L: Lookup> World for Datapath<L> {
    ghost view = { λ p. numbered_world p.tables p.groups p.ports };

    ghost Content = { Contents };

    ghost content = { λ p. contents_of p };

    fn find(&mut self, table: u8, key: &FieldKey) -> Option<usize> {
        self.tables.known();
        if table < TABLES {
            self.tables.lookup(table, key)
        } else {
            None
        }
    }

    fn flow(&self, table: u8, number: usize) -> &Flow {
        self.tables.known();
        self.tables.flow(table, number)
    }

    fn chosen(&self, group: u32) -> Option<Chosen> {
        self.groups.buckets_for(group, &self.ports)
    }

    fn bucket(&self, group: u32, place: u8) -> &[Action] {
        self.groups.bucket(group, place)
    }

    fn ports(&self) -> &[Port] {
        self.ports.as_slice()
    }

    fn known(&self) {
        self.tables.known();
        known_groups(&self.groups);
        self.ports.as_slice();
    }
}

impl<L: Lookup> Datapath<L> {
    /// Without flows, groups, ports and held frames. Nothing that it does depends on the seed ([`Lookup::empty`]).
    pub fn new(alloc: Global, seed: u64) -> Result<Self, AllocError>
        ensures { IfOk result (λ p. forwarding_of p ≡ idle) }
    {
        Ok(Datapath {
            tables: FlowTables::new(alloc, seed)?,
            groups: Groups::new(alloc),
            ports: Ports::new(alloc),
            held: HeldFrames::new(alloc)?,
        })
    }

    /// A frame is received at a port (OpenFlow 1.3.5, 5.1). The controller receives the asynchronous messages `heard`.
    pub fn frame(
        &mut self,
        alloc: Global,
        heard: AsyncConfig,
        number: u32,
        bytes: &[u8],
    ) -> Result<Effects, AllocError>
        ensures ok { IfOk result (λ effects. framed heard number bytes.now (forwarding_of self.old) ≡ forwards effects.items (forwarding_of self.new)) }
        ensures err { OnErr result (contents_of self.new ≡ contents_of self.old) }
    {
        let Some(port) = self.ports.port(number) else {
            return Ok(Effects::new(alloc));
        };
        if !port.may_receive() {
            self.ports.count(number, PortCount::ReceiveDropped);
            return Ok(Effects::new(alloc));
        }
        if check_length(bytes).is_err() {
            self.ports.count(number, PortCount::ReceiveError);
            return Ok(Effects::new(alloc));
        }
        self.receive(alloc, heard, number, bytes)
    }

    // A frame that the port may receive.
    fn receive(
        &mut self,
        alloc: Global,
        heard: AsyncConfig,
        number: u32,
        bytes: &[u8],
    ) -> Result<Effects, AllocError>
        requires long { 14 ≤ length bytes.now }
        requires most { length bytes.now ≤ 9216 }
        ensures ok { IfOk result (λ effects. received heard number bytes.now (forwarding_of self.old) ≡ forwards effects.items (forwarding_of self.new)) }
        ensures err { OnErr result (contents_of self.new ≡ contents_of self.old) }
    {
        self.tables.known();
        let packet = Packet::new(PacketFrame::new(bytes), number);
        let outcome = run(alloc, self, packet, &mut NoLog)?;
        let reception = Reception {
            port: number,
            what: PortCount::Received(bytes.len()),
        };
        self.apply(alloc, heard, Some(reception), None, outcome)
    }

    /// The packet of a PACKET_OUT does its actions (OpenFlow 1.3.5, 7.3.7). The held frame of the id `used`, if there is one, is used.
    pub fn packet_out(
        &mut self,
        alloc: Global,
        heard: AsyncConfig,
        in_port: u32,
        bytes: &[u8],
        actions: &[Action],
        used: Option<u32>,
    ) -> Result<Effects, AllocError>
        requires long { 14 ≤ length bytes.now }
        requires most { length bytes.now ≤ 9216 }
        requires served { IsTrue (are_supported true actions.now) }
        ensures ok { IfOk result (λ effects. through heard (entering bytes.now in_port) (acts actions.now)
            (record (forwarding_of self.old) { held = without_used used self.old.held }) ≡ forwards effects.items (forwarding_of self.new)) }
        ensures err { OnErr result (contents_of self.new ≡ contents_of self.old) }
    {
        self.tables.known();
        let packet = Packet::new(PacketFrame::new(bytes), in_port);
        let outcome = run_actions(alloc, self, packet, actions, &mut NoLog)?;
        self.apply(alloc, heard, None, used, outcome)
    }

    /// A held frame of that id begins at the first table (OpenFlow 1.3.5, 7.3.4.1: buffer_id). It is used.
    pub fn start_held(
        &mut self,
        alloc: Global,
        heard: AsyncConfig,
        id: u32,
        bytes: &[u8],
        ingress: u32,
    ) -> Result<Effects, AllocError>
        requires long { 14 ≤ length bytes.now }
        requires most { length bytes.now ≤ 9216 }
        ensures ok { IfOk result (λ effects. through heard (entering bytes.now ingress) (LookUp 0 ∷ []) (without_held id (forwarding_of self.old)) ≡
            forwards effects.items (forwarding_of self.new)) }
        ensures err { OnErr result (contents_of self.new ≡ contents_of self.old) }
    {
        self.tables.known();
        let packet = Packet::new(PacketFrame::new(bytes), ingress);
        let outcome = run(alloc, self, packet, &mut NoLog)?;
        self.apply(alloc, heard, None, Some(id), outcome)
    }

    // What a run gives is sent and counted. What needs memory comes first.
    fn apply(
        &mut self,
        alloc: Global,
        heard: AsyncConfig,
        reception: Option<Reception>,
        used: Option<u32>,
        outcome: Outcome,
    ) -> Result<Effects, AllocError>
        requires { AllShort 65485 outcome.items.items }
        ensures ok { IfOk result (λ effects.
            (effects.items ≡ each_told heard self.old.held.next (given_items heard self.old.ports outcome.items.items))
            × (forwarding_of self.new ≡ all_sent effects.items (all_tallied (all_placed self.old.tables outcome.counts.items)
            (with_held used (flat_map (frames_for heard) (given_items heard self.old.ports outcome.items.items))
            (with_reception reception (forwarding_of self.old)))))) }
        ensures err { OnErr result (contents_of self.new ≡ contents_of self.old) }
    {
        let Outcome { items, counts } = outcome;
        let told = told_from(alloc, heard, &self.ports, self.held.next_id(), items)?;
        let effects = told.effects;
        self.count_reception(reception);
        self.hold(used, told.held);
        self.tally_all(&counts);
        self.count_sent(&effects);
        Ok(effects)
    }

    /// A removal of entries, with the notices that the controller's mask lets pass: they are removed now.
    pub fn plan_removal(
        &self,
        alloc: Global,
        heard: AsyncConfig,
        cause: Cause,
        now: u64,
    ) -> Result<Removal, AllocError>
        ensures cause { IfOk result (λ removal. removal.cause ≡ cause) }
        ensures notices { IfOk result (λ removal. removal.notices.items ≡ notice_effects heard now (notices_in cause (tables_of self.now.tables))) }
    {
        Ok(Removal {
            notices: self.removal_notices(alloc, heard, &cause, now)?,
            cause,
        })
    }

    // No entry is looked for where the controller's mask lets no notice pass.
    fn removal_notices(
        &self,
        alloc: Global,
        heard: AsyncConfig,
        cause: &Cause,
        now: u64,
    ) -> Result<Effects, AllocError>
        ensures { IfOk result (λ effects. effects.items ≡ notice_effects heard now (notices_in cause.now (tables_of self.now.tables))) }
    {
        if heard.flow_removed == 0 {
            return Ok(Effects::new(alloc));
        }
        notices(alloc, heard, &self.tables.listed(cause)?, now)
    }

    /// Removes entries, and returns the notices.
    pub fn carry_out(&mut self, removal: Removal) -> Effects
        ensures notices { result.items ≡ removal.notices.items }
        ensures forwarding { forwarding_of self.new ≡ record (forwarding_of self.old) { tables = left_in removal.cause (tables_of self.old.tables) } }
    {
        self.tables.remove(&removal.cause);
        removal.notices
    }

    // Counts the reception of a frame.
    fn count_reception(&mut self, reception: Option<Reception>)
        ensures forwarding { forwarding_of self.new ≡ with_reception reception (forwarding_of self.old) }
        ensures numbers { self.new.tables ≡ self.old.tables }
    {
        if let Some(Reception { port, what }) = reception {
            self.ports.count(port, what);
        }
    }

    // A held frame is used, and others are held.
    fn hold(&mut self, used: Option<u32>, frames: Vec<HeldFrame>)
        ensures forwarding { forwarding_of self.new ≡ with_held used frames.items (forwarding_of self.old) }
        ensures numbers { self.new.tables ≡ self.old.tables }
    {
        if let Some(id) = used {
            self.held.use_up(id);
        }
        for frame in frames {
            self.held.hold(frame);
        }
    }

    // Counts what a run counted.
    fn tally_all(&mut self, counts: &[Count])
        ensures { forwarding_of self.new ≡ all_tallied (all_placed self.old.tables counts.now) (forwarding_of self.old) }
    {
        for count in counts {
            self.tally(count);
        }
    }

    fn tally(&mut self, count: &Count)
        ensures forwarding { forwarding_of self.new ≡ tallied (placed_count self.old.tables count.now) (forwarding_of self.old) }
        ensures numbers { all_numbers self.new.tables ≡ all_numbers self.old.tables }
    {
        match *count {
            Count::Lookup(table) => self.looked(table),
            Count::Matched {
                table,
                number,
                bytes,
            } => self.matched(table, number, bytes),
            Count::TxDropped(port) => self.ports.count(port, PortCount::SendDropped),
            Count::Group { group, bytes } => self.groups.count(group, bytes),
            Count::Bucket {
                group,
                place,
                bytes,
            } => self.groups.count_bucket(group, place, bytes),
        }
    }

    fn looked(&mut self, table: u8)
        ensures forwarding { forwarding_of self.new ≡ record (forwarding_of self.old) { tables = looked_in table (tables_of self.old.tables) } }
        ensures numbers { all_numbers self.new.tables ≡ all_numbers self.old.tables }
    {
        self.tables.known();
        if table < TABLES {
            self.tables.looked(table);
        }
    }

    fn matched(&mut self, table: u8, number: usize, bytes: usize)
        ensures forwarding { forwarding_of self.new ≡ record (forwarding_of self.old)
            { tables = matched_in table (place_in self.old.tables table number) bytes (tables_of self.old.tables) } }
        ensures numbers { all_numbers self.new.tables ≡ all_numbers self.old.tables }
    {
        self.tables.known();
        if table < TABLES {
            self.tables.count(table, number, bytes);
        }
    }

    // Counts what is sent.
    fn count_sent(&mut self, effects: &[Effect])
        ensures { forwarding_of self.new ≡ all_sent effects.now (forwarding_of self.old) }
    {
        for effect in effects {
            self.count_effect(effect);
        }
    }

    fn count_effect(&mut self, effect: &Effect)
        ensures { forwarding_of self.new ≡ sent effect.now (forwarding_of self.old) }
    {
        match effect {
            Effect::Sent { port, frame } => {
                self.ports.count(*port, PortCount::Sent(frame.len()));
            }
            Effect::Answer(_) | Effect::Closed => {}
        }
    }
}
