//! What a frame would do, found without changing anything.
ghost use Rattle.std.specs.Prelude.{◌≡◌, ◌≢◌, ◌<◌, ◌≤◌, ◌+◌, ◌++◌, ◌∷◌, [], Some, None, true, IfOk, OnOk, OnErr, length, slice_get};
ghost use Rattle.std.specs.Option.{option_copied, option_map};
ghost use Rattle.of_headers.specs.FieldMap.{value};
ghost use Rattle.of_table.specs.{Entries.entry_of, Entries.flows_of, Tables.table_at, Tables.tables_of, Sound.AreRowsOf};
ghost use Rattle.of_datapath.specs.{Numbers.Contents, Numbers.contents_of, Numbers.forwarding_of, Datapath.framed, Datapath.winner_in, Datapath.world_of};
ghost use Rattle.of_datapath.specs.{DryRun.GainsPrefix, DryRun.received_steps, DryRun.steps_in, Told.effects_of};
ghost use Rattle.of_machine.specs.{Growth.AllShort, Sound.IsSound, Rows.Lookup as LookUp, Rows.entering, Weights.frame_step_bound, Runs.run_of};

use crate::control::AsyncConfig;
use crate::datapath::{Datapath, known_groups};
use crate::effect::Effects;
use crate::told::told_from;
use of_actions::Action;
use of_classifier::Lookup;
use of_groups::{Chosen, Group};
use of_headers::{FieldKey, check_length};
use of_machine::{Items, Packet, PacketFrame, StepLog, World, run};
use of_ports::Port;
use of_table::{Entries, Entry, Flow};
use of_wire::limits::TABLES;
use std::alloc::{AllocError, Global};

/// The tables, the groups and the ports, only borrowed: entries are found by `peek`, and named by their index by age.
#[derive(Drop)]
struct Looking<'a, L: Lookup> {
    datapath: &'a Datapath<L>,
}

impl<L: Lookup> World for Looking<'_, L> {
    ghost view = { λ w. world_of (forwarding_of w.datapath.now) };

    ghost Content = { Contents };

    ghost content = { λ w. contents_of w.datapath.now };

    fn find(&mut self, table: u8, key: &FieldKey) -> Option<usize> {
        self.datapath.tables.known();
        if table < TABLES {
            let number = self.datapath.tables.peek(table, key)?;
            Some(self.datapath.tables.place(table, number))
        } else {
            None
        }
    }

    fn flow(&self, table: u8, place: usize) -> &Flow {
        self.datapath.tables.known();
        match self.datapath.tables.entries(table).at(place) {
            Some(entry) => &entry.flow,
            None => unreachable!(),
        }
    }

    fn chosen(&self, group: u32) -> Option<Chosen> {
        self.datapath.chosen(group)
    }

    fn bucket(&self, group: u32, place: u8) -> &[Action] {
        self.datapath.bucket(group, place)
    }

    fn ports(&self) -> &[Port] {
        self.datapath.ports.as_slice()
    }

    fn known(&self) {
        self.datapath.tables.known();
        known_groups(&self.datapath.groups);
        self.datapath.ports.as_slice();
    }
}

impl<L: Lookup> Datapath<L> {
    /// The tables and the groups have the invariants that the machine needs: the instructions of entries are valid in their tables,
    /// each winner exists, and no chain of groups has more than three (OpenFlow 1.3.5, 5.6 and 5.9).
    pub fn known_world(&self)
        ensures { IsSound (world_of (forwarding_of self.now)) }
    {
        Looking { datapath: self }.known();
    }

    /// The entry of a table that a packet of these fields would hit, by its index by age, from 0 (OpenFlow 1.3.5, 5.3). Nothing changes.
    pub fn winner(&self, table: u8, key: &FieldKey) -> Option<usize>
        ensures { result ≡ winner_in (forwarding_of self.now) table (value key.now) }
    {
        let mut world = Looking { datapath: self };
        world.find(table, key)
    }

    /// The entry of a table at an index by age, from 0 (OpenFlow 1.3.5, 5.2). None where there is no such entry.
    pub fn entry(&self, table: u8, place: usize) -> Option<&Entry>
        requires { table < 16 }
        ensures { option_map (λ e. entry_of e.now) result ≡ slice_get (table_at table (tables_of self.now.tables)).flows place }
    {
        self.tables.entries(table).at(place)
    }

    /// The entries of a table, oldest first (OpenFlow 1.3.5, 5.2).
    pub fn entries(&self, table: u8) -> Entries<'_>
        requires { table < 16 }
        ensures flows { flows_of result ≡ (table_at table (tables_of self.now.tables)).flows }
        ensures few { length result ≤ 4096 }
    {
        self.tables.known();
        self.tables.entries(table)
    }

    /// The classifier of a table: its rows are the entries of the table, oldest first (OpenFlow 1.3.5, 5.2). It takes no memory.
    pub fn part(&self, table: u8) -> &L
        requires { table < 16 }
        ensures { AreRowsOf (table_at table (tables_of self.now.tables)).flows (L.content result.now) }
    {
        self.tables.part(table)
    }

    /// The places of the buckets of a group that run, as its ports and groups are now; None where there is no such group
    /// (OpenFlow 1.3.5, 5.6.1).
    pub fn buckets_for(&self, group: u32) -> Option<Chosen>
        ensures { result ≡ (world_of (forwarding_of self.now)).chosen group }
    {
        self.groups.buckets_for(group, &self.ports)
    }

    /// The actions of the bucket of a group at that place (OpenFlow 1.3.5, 5.6).
    pub fn bucket_actions(&self, group: u32, place: u8) -> &[Action]
        requires { (world_of (forwarding_of self.now)).bucket group place ≢ None }
        ensures { (world_of (forwarding_of self.now)).bucket group place ≡ Some result.now }
    {
        self.groups.bucket(group, place)
    }

    /// The groups, in ascending order of number (OpenFlow 1.3.5, 5.6).
    pub fn group_list(&self) -> &[Group]
        ensures { result.now ≡ (forwarding_of self.now).groups }
    {
        self.groups.groups()
    }

    /// The ports, in ascending order of number (OpenFlow 1.3.5, 7.2.1).
    pub fn port_list(&self) -> &[Port]
        ensures { result.now ≡ (world_of (forwarding_of self.now)).ports }
    {
        self.ports.as_slice()
    }

    /// What the run of a frame that is received at a port would emit, whatever the controller asked for, and its steps, which are put into the log
    /// (OpenFlow 1.3.5, 5.1). Nothing changes.
    pub fn received_items<S: StepLog>(
        &self,
        alloc: Global,
        number: u32,
        bytes: &[u8],
        log: &mut S,
    ) -> Result<Items, AllocError>
        requires long { 14 ≤ length bytes.now }
        requires most { length bytes.now ≤ 9216 }
        ensures items { IfOk result (λ items. items.items ≡ (run_of (world_of (forwarding_of self.now)) (entering bytes.now number) (LookUp 0 ∷ [])).items) }
        ensures short { IfOk result (λ items. AllShort 65485 items.items) }
        ensures steps { OnOk result (S.KEEPS ≡ true → S.list log.new ≡ S.list log.old ++ received_steps number bytes.now (forwarding_of self.now)) }
        ensures bound { S.KEEPS ≡ true → length (S.list log.new) ≤ length (S.list log.old) + frame_step_bound }
        ensures err { OnErr result (S.KEEPS ≡ true → GainsPrefix (received_steps number bytes.now (forwarding_of self.now)) (S.list log.old) (S.list log.new)) }
    {
        let mut world = Looking { datapath: self };
        world.known();
        let packet = Packet::new(PacketFrame::new(bytes), number);
        let outcome = run(alloc, &mut world, packet, log)?;
        Ok(outcome.items)
    }

    /// What a frame that is received at a port would give, and its steps (OpenFlow 1.3.5, 5.1), with these asynchronous messages.
    pub fn dry_run<S: StepLog>(
        &self,
        alloc: Global,
        heard: AsyncConfig,
        number: u32,
        bytes: &[u8],
        log: &mut S,
    ) -> Result<Effects, AllocError>
        ensures effects { IfOk result (λ effects. effects.items ≡ (framed heard number bytes.now (forwarding_of self.now)).effects) }
        ensures steps { OnOk result (S.KEEPS ≡ true → S.list log.new ≡ S.list log.old ++ steps_in number bytes.now (forwarding_of self.now)) }
        ensures bound { S.KEEPS ≡ true → length (S.list log.new) ≤ length (S.list log.old) + frame_step_bound }
        ensures err { OnErr result (S.KEEPS ≡ true → GainsPrefix (steps_in number bytes.now (forwarding_of self.now)) (S.list log.old) (S.list log.new)) }
    {
        let Some(port) = self.ports.port(number) else {
            return Ok(Effects::new(alloc));
        };
        if !port.may_receive() || check_length(bytes).is_err() {
            return Ok(Effects::new(alloc));
        }
        self.dry_run_received(alloc, heard, number, bytes, log)
    }

    // A received frame.
    fn dry_run_received<S: StepLog>(
        &self,
        alloc: Global,
        heard: AsyncConfig,
        number: u32,
        bytes: &[u8],
        log: &mut S,
    ) -> Result<Effects, AllocError>
        requires long { 14 ≤ length bytes.now }
        requires most { length bytes.now ≤ 9216 }
        ensures effects { IfOk result (λ effects. effects.items ≡ effects_of heard self.now.ports self.now.held
            (run_of (world_of (forwarding_of self.now)) (entering bytes.now number) (LookUp 0 ∷ [])).items) }
        ensures steps { OnOk result (S.KEEPS ≡ true → S.list log.new ≡ S.list log.old ++ received_steps number bytes.now (forwarding_of self.now)) }
        ensures bound { S.KEEPS ≡ true → length (S.list log.new) ≤ length (S.list log.old) + frame_step_bound }
        ensures err { OnErr result (S.KEEPS ≡ true → GainsPrefix (received_steps number bytes.now (forwarding_of self.now)) (S.list log.old) (S.list log.new)) }
    {
        let items = self.received_items(alloc, number, bytes, log)?;
        let told = told_from(alloc, heard, &self.ports, self.held.next_id(), items)?;
        Ok(told.effects)
    }
}
