//! What messages, frames and moments do, whatever the connection.
ghost use Rattle.std.specs.Prelude.{◌≡◌, ◌<◌, ◌≤◌, ◌∷◌, [], true, false, IfOk, OnOk, OnErr, length, map, IfErr, Some};
ghost use Rattle.of_wire.specs.Refusals.{first_of};
ghost use Rattle.of_switch.specs.Steps.{after_command, held_frame_begun, does, done, after_flow_mod, then_does, forwarded, group_added, after_group_mod, group_modified, groups_deleted, linked_at, after_packet_out, port_added, after_port_mod, removed_at, replied, role_asked, state_refusals, with_tables, without_connection, moment_done};
ghost use Rattle.of_switch.specs.{State.new_core, PortMods.port_mod_refusals, Handling.IsUnlessHeld, Handling.Handles, GroupMods.group_mod_fault, GroupMods.refused_for, Loading.loaded_core};
ghost use Rattle.of_ports.specs.Ports.{has_port, new_port, port_at};
ghost use Rattle.of_table.specs.Tables.{modified_in, left_in, notices_in};
ghost use Rattle.of_actions.specs.{FlowCheck.all_go_with, InstructionLists.are_for};
ghost use Rattle.of_messages.specs.{Promised.IsSoundFlowMod, Promised.IsSoundGroupMod, Promised.IsSoundMessage, Promised.IsSoundPacket, Messages.is_delete as is_delete_command};
ghost use Rattle.of_datapath.specs.Commands.{add_refusals, packet_out_frame as packet_frame, names_absent_group as naming_absent_group, packet_out_refusals, flow_mod_refusals, has_flag as with_flag, notice_effects, selector_of};
ghost use Rattle.of_datapath.specs.{Buffers.held, Datapath.framed, Numbers.forwarding_of, Control.heard_of, Roles.generation_refusals, Statistics.multipart_bytes, Statistics.absent_port_refusals};
ghost use Rattle.of_datapath.specs.Loading.{configuration_of};
ghost use Rattle.of_groups.specs.{Groups.modified_group, Groups.new_group, Faults.add_fault, Faults.delete_fault, Faults.modify_fault};

use of_actions::InstructionList;
use of_classifier::Lookup;
use of_datapath::{
    AsyncConfig, Control, Datapath, Effect, Effects, answers, any_to_absent_group, asked_by,
    asks_absent_port, config_from, flow_from, has_flag, load_tables, names_absent_group,
    which_from, write_change, write_status,
};
use of_groups::{Buckets, GroupFault, GroupKind};
use of_messages::{
    FlowMod, FlowModCommand, GroupMod, Message, MessageBytes, MultipartRequest, NewGroup,
    PacketData, PacketOut, PortMod, PortStatusReason, RoleRequest, write_async_reply,
    write_barrier_reply, write_config_reply, write_echo_reply, write_features_reply,
    write_role_reply,
};
use of_ports::Port;
use of_statistics::{
    aggregate_reply, description_reply, flow_replies, group_description_replies,
    group_features_reply, group_replies, port_description_reply, port_stats_reply, table_reply,
};
use of_table::{Cause, TableFault};
use of_text::Config;
use of_wire::codes::{
    OFPBAC_BAD_OUT_GROUP, OFPBRC_BAD_PORT, OFPBRC_BUFFER_UNKNOWN, OFPFMFC_OVERLAP,
    OFPFMFC_TABLE_FULL, OFPPMFC_BAD_HW_ADDR, OFPPMFC_BAD_PORT, OFPRRFC_STALE,
};
use of_wire::limits::{OFP_NO_BUFFER, OFPFF_RESET_COUNTS};
use of_wire::{Bytes, Code};
use std::alloc::{AllocError, Global};
use std::marker::Model;
use thiserror::Error;

/// Why a message was not carried out.
#[derive(Clone, Copy, Debug, PartialEq, Eq, Error)]
pub enum Fault {
    #[error("out of memory")]
    Memory,
    /// It is answered by an ERROR of this code.
    #[error("the message is refused")]
    Refused(Code),
}

impl From<AllocError> for Fault {
    ghost use Rattle.std.specs.Prelude.{◌≡◌};
    ghost use Rattle.of_switch.specs.declared.switch_core.Fault.TheVariants.{Memory};

    ghost from_gives = { λ _ e. e ≡ Memory };

    fn from(_error: AllocError) -> Fault {
        Fault::Memory
    }
}

impl From<GroupFault> for Fault {
    ghost use Rattle.std.specs.Prelude.{◌≡◌};
    ghost use Rattle.of_switch.specs.Handling.{fault_of};

    ghost from_gives = { λ fault e. e ≡ fault_of fault };

    fn from(fault: GroupFault) -> Fault {
        match fault.code() {
            Some(code) => Fault::Refused(code),
            None => Fault::Memory,
        }
    }
}

/// The core of a switch: its flow tables, groups and ports.
///
/// Each group that an entry names exists, and none has a number above OFPG_MAX.
#[derive(Drop)]
pub struct Core<L: Lookup> {
    dpid: u64,
    control: Control,
    datapath: Datapath<L>,
    alloc: Global,
    /// That of its flow tables.
    seed: u64,
}

impl<L: Lookup> Model for Core<L> {
    ghost use Rattle.of_switch.specs.State.{Core};
    ghost use Rattle.of_datapath.specs.{Numbers.forwarding_of, Standing.GroupsExist};

    ghost Value = { Core };

    ghost view = { λ e. record { dpid = e.dpid; control = e.control; forwarding = forwarding_of e.datapath } };

    ghost invariant = { λ e. GroupsExist (forwarding_of e.datapath) };
}

impl<L: Lookup> Core<L> {
    pub fn new(alloc: Global, dpid: u64, seed: u64) -> Result<Self, AllocError>
        ensures { IfOk result (λ e. e ≡ new_core dpid) }
    {
        Ok(Core {
            dpid,
            control: Control::new(),
            datapath: Datapath::new(alloc, seed)?,
            alloc,
            seed,
        })
    }

    /// What the controller has set.
    pub fn control(&self) -> &Control
        ensures { result.now ≡ self.now.control }
    {
        &self.control
    }

    /// The flow tables, the groups, the ports and the held frames.
    pub fn datapath(&self) -> &Datapath<L>
        ensures { self.now.forwarding ≡ forwarding_of result.now }
    {
        &self.datapath
    }

    /// The connection is lost, and with it what the controller set for itself and the frames that are held for it.
    pub fn release(&mut self)
        ensures { self.new ≡ without_connection self.old }
    {
        self.control = self.control.released();
        self.datapath.held.forget();
    }

    /// Adds a port at the latest moment. The controller receives the asynchronous messages `heard`.
    pub fn add_port(
        &mut self,
        heard: AsyncConfig,
        number: u32,
        hw: [u8; 6],
        name: [u8; 16],
        is_up: bool,
    ) -> Result<Effects, AllocError>
        requires new { has_port number self.old.forwarding.ports ≡ false }
        requires room { length self.old.forwarding.ports < 64 }
        ensures ok { IfOk result (λ effects. port_added heard (new_port number hw name is_up self.old.forwarding.tables.latest) self.old ≡
            does effects.items self.new) }
        ensures err { OnErr result (self.new ≡ self.old) }
    {
        let created = self.datapath.tables.latest();
        let port = Port::new(number, hw, name, is_up, created);
        let effects = write_status(self.alloc, heard, PortStatusReason::Add, &port)?;
        self.datapath.ports.add(port)?;
        Ok(effects)
    }

    /// Removes a port. The controller receives the asynchronous messages `heard`.
    pub fn remove_port(&mut self, heard: AsyncConfig, number: u32) -> Result<Effects, AllocError>
        ensures ok { IfOk result (λ effects. removed_at heard number self.old (port_at self.old.forwarding.ports number) ≡ does effects.items self.new) }
        ensures err { OnErr result (self.new ≡ self.old) }
    {
        let Some(port) = self.datapath.ports.port(number) else {
            return Ok(Effects::new(self.alloc));
        };
        let effects = write_status(self.alloc, heard, PortStatusReason::Delete, port)?;
        self.datapath.ports.remove(number);
        Ok(effects)
    }

    /// Sets whether a port's link is up. The controller receives the asynchronous messages `heard`.
    pub fn set_link(
        &mut self,
        heard: AsyncConfig,
        number: u32,
        is_link_up: bool,
    ) -> Result<Effects, AllocError>
        ensures ok { IfOk result (λ effects. linked_at heard number is_link_up self.old (port_at self.old.forwarding.ports number) ≡
            does effects.items self.new) }
        ensures err { OnErr result (self.new ≡ self.old) }
    {
        let Some(port) = self.datapath.ports.port(number) else {
            return Ok(Effects::new(self.alloc));
        };
        let linked = Port {
            is_link_up,
            ..*port
        };
        let effects = write_change(self.alloc, heard, port, &linked)?;
        self.datapath.ports.set_link(number, is_link_up);
        Ok(effects)
    }

    /// Receives a frame at a port. The controller receives the asynchronous messages `heard`.
    pub fn frame(
        &mut self,
        heard: AsyncConfig,
        number: u32,
        bytes: &[u8],
    ) -> Result<Effects, AllocError>
        ensures ok { IfOk result (λ effects. forwarded (framed heard number bytes.now self.old.forwarding) self.old ≡ does effects.items self.new) }
        ensures err { OnErr result (self.new ≡ self.old) }
    {
        self.datapath.frame(self.alloc, heard, number, bytes)
    }

    /// Carries out a message of that transaction id, unless it is refused.
    pub fn handle(&mut self, xid: u32, message: Message) -> Result<Effects, Fault>
        requires { IsSoundMessage message }
        ensures { Handles (first_of (state_refusals message self.old)) (done xid message self.old) self.old result self.new }
    {
        match message {
            Message::Hello | Message::Error | Message::EchoReply | Message::TableMod(_) => {
                Ok(Effects::new(self.alloc))
            }
            Message::EchoRequest(echoed) => {
                Ok(self.answer(write_echo_reply(self.alloc, xid, echoed.as_slice())?)?)
            }
            Message::BarrierRequest => Ok(self.answer(write_barrier_reply(self.alloc, xid)?)?),
            Message::FeaturesRequest => {
                Ok(self.answer(write_features_reply(self.alloc, xid, self.dpid)?)?)
            }
            Message::GetConfigRequest => {
                Ok(self.answer(write_config_reply(self.alloc, xid, self.control.config)?)?)
            }
            Message::SetConfig(config) => {
                self.control.config = config;
                Ok(Effects::new(self.alloc))
            }
            Message::RoleRequest(request) => self.take_role(xid, request),
            Message::GetAsyncRequest => {
                Ok(self.answer(write_async_reply(self.alloc, xid, self.control.masks)?)?)
            }
            Message::SetAsync(masks) => {
                self.control.masks = masks;
                Ok(Effects::new(self.alloc))
            }
            Message::PacketOut(packet_out) => self.packet_out(packet_out),
            Message::FlowMod(flow_mod) => self.flow_mod(flow_mod),
            Message::GroupMod(group_mod) => self.group_mod(group_mod),
            Message::PortMod(port_mod) => self.port_mod(port_mod),
            Message::Multipart(request) => self.multipart(xid, request),
        }
    }

    // A message to the controller.
    fn answer(&self, message: MessageBytes) -> Result<Effects, AllocError>
        ensures { IfOk result (λ effects. effects.items ≡ Effect.Answer message ∷ []) }
    {
        one(self.alloc, Effect::Answer(message))
    }

    // The controller takes the role that it asks for, and gets a ROLE_REPLY with the one that it has.
    fn take_role(&mut self, xid: u32, request: RoleRequest) -> Result<Effects, Fault>
        ensures { Handles (first_of (generation_refusals request self.old.control)) (role_asked xid request self.old) self.old result self.new }
    {
        if self.control.has_stale_generation(request) {
            return Err(Fault::Refused(OFPRRFC_STALE));
        }
        let control = self.control.with_role(request);
        let reply = write_role_reply(self.alloc, xid, control.role, control.generation)?;
        let effects = self.answer(reply)?;
        self.control = control;
        Ok(effects)
    }

    fn multipart(&self, xid: u32, request: MultipartRequest) -> Result<Effects, Fault>
        ensures { Handles (first_of (absent_port_refusals request self.now.forwarding.ports)) (replied xid request self.now) self.now result self.now }
    {
        if asks_absent_port(&request, &self.datapath.ports) {
            return Err(Fault::Refused(OFPBRC_BAD_PORT));
        }
        Ok(self.replies(xid, request)?)
    }

    // The replies to a request that is not refused.
    fn replies(&self, xid: u32, request: MultipartRequest) -> Result<Effects, AllocError>
        ensures { IfOk result (λ effects. effects.items ≡ map Effect.Answer (multipart_bytes xid request self.now.forwarding)) }
    {
        let Datapath {
            tables,
            groups,
            ports,
            ..
        } = &self.datapath;
        let alloc = self.alloc;
        match request {
            MultipartRequest::Description => self.answer(description_reply(alloc, xid)?),
            MultipartRequest::Flow(request) => {
                answers(alloc, flow_replies(alloc, xid, tables, &asked_by(request))?)
            }
            MultipartRequest::Aggregate(request) => {
                self.answer(aggregate_reply(alloc, xid, tables, &asked_by(request))?)
            }
            MultipartRequest::Table => self.answer(table_reply(alloc, xid, tables)?),
            MultipartRequest::PortStats(which) => {
                let now = tables.latest();
                self.answer(port_stats_reply(alloc, xid, ports, which, now)?)
            }
            MultipartRequest::Group(which) => {
                answers(alloc, group_replies(alloc, xid, groups, tables, which)?)
            }
            MultipartRequest::GroupDescription => {
                answers(alloc, group_description_replies(alloc, xid, groups)?)
            }
            MultipartRequest::GroupFeatures => self.answer(group_features_reply(alloc, xid)?),
            MultipartRequest::PortDescription => {
                self.answer(port_description_reply(alloc, xid, ports)?)
            }
        }
    }

    fn packet_out(&mut self, packet_out: PacketOut) -> Result<Effects, Fault>
        requires { IsSoundPacket packet_out.packet }
        ensures { Handles (first_of (packet_out_refusals packet_out self.old.forwarding.groups self.old.forwarding.held)) (after_packet_out packet_out self.old)
            self.old result self.new }
    {
        let used = match &packet_out.packet {
            PacketData::Buffered(id) => Some(*id),
            PacketData::Frame(_) => None,
        };
        let frame = self.frame_of(packet_out.packet)?;
        let actions = packet_out.actions.as_slice();
        if any_to_absent_group(actions, &self.datapath.groups) {
            return Err(Fault::Refused(OFPBAC_BAD_OUT_GROUP));
        }
        let effects = self.datapath.packet_out(
            self.alloc,
            self.control.heard_open(),
            packet_out.in_port,
            frame.as_slice(),
            actions,
            used,
        )?;
        Ok(effects)
    }

    // The frame of a PACKET_OUT: its own, or a copy of the held one.
    fn frame_of(&self, packet: PacketData) -> Result<Bytes, Fault>
        requires { IsSoundPacket packet }
        ensures frame { IfOk result (λ frame. packet_frame packet self.now.forwarding.held ≡ Some frame) }
        ensures long { IfOk result (λ frame. 14 ≤ length frame) }
        ensures most { IfOk result (λ frame. length frame ≤ 9216) }
        ensures refused { IfErr result (IsUnlessHeld (packet_frame packet self.now.forwarding.held)) }
    {
        match packet {
            PacketData::Frame(frame) => Ok(frame),
            PacketData::Buffered(id) => match self.datapath.held.frame(id) {
                Some(held) => Ok(Bytes::from_slice(self.alloc, held.frame())?),
                None => Err(Fault::Refused(OFPBRC_BUFFER_UNKNOWN)),
            },
        }
    }

    fn flow_mod(&mut self, flow_mod: FlowMod) -> Result<Effects, Fault>
        requires { IsSoundFlowMod flow_mod }
        ensures { Handles (first_of (flow_mod_refusals flow_mod self.old.forwarding.tables self.old.forwarding.groups self.old.forwarding.held))
            (after_flow_mod flow_mod self.old) self.old result self.new }
    {
        if flow_mod.command.is_delete() {
            return Ok(self.delete_flows(flow_mod)?);
        }
        if self.names_absent_group(&flow_mod.instructions) {
            return Err(Fault::Refused(OFPBAC_BAD_OUT_GROUP));
        }
        if flow_mod.buffer == OFP_NO_BUFFER {
            return self.put_flows(flow_mod);
        }
        if self.datapath.held.frame(flow_mod.buffer).is_none() {
            return Err(Fault::Refused(OFPBRC_BUFFER_UNKNOWN));
        }
        self.put_and_begin(flow_mod)
    }

    // An ADD or a MODIFY, and then the held frame that it names begins. Where memory runs out in its run, the table is as before.
    fn put_and_begin(&mut self, flow_mod: FlowMod) -> Result<Effects, Fault>
        requires delete { is_delete_command flow_mod.command ≡ false }
        requires table { flow_mod.table < 16 }
        requires group { naming_absent_group self.old.forwarding.groups flow_mod.instructions ≡ false }
        requires fit { are_for flow_mod.table flow_mod.instructions ≡ true }
        requires checked { all_go_with flow_mod.fields flow_mod.instructions ≡ true }
        ensures { Handles (first_of (add_refusals flow_mod self.old.forwarding.tables))
            (then_does (after_command flow_mod self.old) (held_frame_begun flow_mod.buffer (held flow_mod.buffer self.old.forwarding.held)))
            self.old result self.new }
    {
        let id = flow_mod.buffer;
        let mut before = self.datapath.tables.copy_of(flow_mod.table)?;
        self.put_flows(flow_mod)?;
        match self.begin(id) {
            Ok(effects) => Ok(effects),
            Err(_) => {
                self.datapath.tables.swap(&mut before);
                Err(Fault::Memory)
            }
        }
    }

    // A held frame begins at the first table, if one is held under that id. It runs as a copy.
    fn begin(&mut self, id: u32) -> Result<Effects, AllocError>
        ensures ok { IfOk result (λ effects. held_frame_begun id (held id self.old.forwarding.held) self.old ≡ does effects.items self.new) }
        ensures err { OnErr result (self.new ≡ self.old) }
    {
        let Some(held) = self.datapath.held.frame(id) else {
            return Ok(Effects::new(self.alloc));
        };
        let ingress = held.ingress();
        let frame = Bytes::from_slice(self.alloc, held.frame())?;
        self.datapath.start_held(
            self.alloc,
            self.control.heard_open(),
            id,
            frame.as_slice(),
            ingress,
        )
    }

    // An ADD or a MODIFY.
    fn put_flows(&mut self, flow_mod: FlowMod) -> Result<Effects, Fault>
        requires delete { is_delete_command flow_mod.command ≡ false }
        requires table { flow_mod.table < 16 }
        requires group { naming_absent_group self.old.forwarding.groups flow_mod.instructions ≡ false }
        requires fit { are_for flow_mod.table flow_mod.instructions ≡ true }
        requires checked { all_go_with flow_mod.fields flow_mod.instructions ≡ true }
        ensures { Handles (first_of (add_refusals flow_mod self.old.forwarding.tables)) (after_command flow_mod self.old) self.old result self.new }
    {
        match flow_mod.command {
            FlowModCommand::Add => self.add_flow(flow_mod),
            FlowModCommand::Modify { .. } => {
                self.modify_flows(flow_mod)?;
                Ok(Effects::new(self.alloc))
            }
            FlowModCommand::Delete { .. } => unreachable!(),
        }
    }

    // Whether some action of the instructions sends the packet to a group that does not exist.
    fn names_absent_group(&self, instructions: &InstructionList) -> bool
        ensures { result ≡ naming_absent_group self.now.forwarding.groups instructions.now }
    {
        names_absent_group(instructions.as_slice(), &self.datapath.groups)
    }

    #[tactic(auto, using(crate::proofs::HeldHandling::no_bad_table))]
    fn add_flow(&mut self, flow_mod: FlowMod) -> Result<Effects, Fault>
        requires add { flow_mod.command ≡ FlowModCommand.Add }
        requires table { flow_mod.table < 16 }
        requires group { naming_absent_group self.old.forwarding.groups flow_mod.instructions ≡ false }
        requires fit { are_for flow_mod.table flow_mod.instructions ≡ true }
        requires checked { all_go_with flow_mod.fields flow_mod.instructions ≡ true }
        ensures { Handles (first_of (add_refusals flow_mod self.old.forwarding.tables)) (after_command flow_mod self.old) self.old result self.new }
    {
        match self
            .datapath
            .tables
            .add(flow_mod.table, flow_from(flow_mod))
        {
            Ok(()) => Ok(Effects::new(self.alloc)),
            Err(TableFault::Overlap) => Err(Fault::Refused(OFPFMFC_OVERLAP)),
            Err(TableFault::Full) => Err(Fault::Refused(OFPFMFC_TABLE_FULL)),
            Err(TableFault::NoMemory) => Err(Fault::Memory),
            Err(TableFault::BadTable) => unreachable!(),
        }
    }

    fn modify_flows(&mut self, flow_mod: FlowMod) -> Result<(), AllocError>
        requires table { flow_mod.table < 16 }
        requires group { naming_absent_group self.old.forwarding.groups flow_mod.instructions ≡ false }
        requires fit { are_for flow_mod.table flow_mod.instructions ≡ true }
        requires checked { all_go_with flow_mod.fields flow_mod.instructions ≡ true }
        ensures ok { OnOk result (self.new ≡
            with_tables (modified_in (selector_of flow_mod) flow_mod.instructions (with_flag flow_mod.flags OFPFF_RESET_COUNTS)
            self.old.forwarding.tables) self.old) }
        ensures err { OnErr result (self.new ≡ self.old) }
    {
        let reset = has_flag(flow_mod.flags, OFPFF_RESET_COUNTS);
        let instructions = flow_mod.instructions.copy()?;
        let which = which_from(flow_mod);
        self.datapath.tables.modify(&which, &instructions, reset)
    }

    fn delete_flows(&mut self, flow_mod: FlowMod) -> Result<Effects, AllocError>
        ensures ok { IfOk result (λ effects. does (notice_effects (heard_of self.old.control) self.old.forwarding.tables.latest
            (notices_in (Cause.Delete (selector_of flow_mod)) self.old.forwarding.tables))
            (with_tables (left_in (Cause.Delete (selector_of flow_mod)) self.old.forwarding.tables) self.old) ≡ does effects.items self.new) }
        ensures err { OnErr result (self.new ≡ self.old) }
    {
        let now = self.datapath.tables.latest();
        let cause = Cause::Delete(which_from(flow_mod));
        let removal = self
            .datapath
            .plan_removal(self.alloc, self.control.heard_open(), cause, now)?;
        Ok(self.datapath.carry_out(removal))
    }

    fn port_mod(&mut self, port_mod: PortMod) -> Result<Effects, Fault>
        ensures { Handles (first_of (port_mod_refusals port_mod self.old.forwarding.ports)) (after_port_mod port_mod self.old) self.old result self.new }
    {
        let Some(port) = self.datapath.ports.port(port_mod.port) else {
            return Err(Fault::Refused(OFPPMFC_BAD_PORT));
        };
        if port.hw != port_mod.hw {
            return Err(Fault::Refused(OFPPMFC_BAD_HW_ADDR));
        }
        let config = port.config.with(port_mod.config, port_mod.mask);
        let modified = Port { config, ..*port };
        let effects = write_change(self.alloc, self.control.heard_open(), port, &modified)?;
        self.datapath.ports.configure(port_mod.port, config);
        Ok(effects)
    }

    fn group_mod(&mut self, group_mod: GroupMod) -> Result<Effects, Fault>
        requires { IsSoundGroupMod group_mod }
        ensures { Handles (first_of (refused_for (group_mod_fault group_mod self.old.forwarding.tables.latest self.old.forwarding.groups)))
            (after_group_mod group_mod self.old) self.old result self.new }
    {
        match group_mod {
            GroupMod::Add(NewGroup { id, kind, buckets }) => self.add_group(id, kind, buckets),
            GroupMod::Modify(NewGroup { id, kind, buckets }) => {
                self.modify_group(id, kind, buckets)
            }
            GroupMod::Delete(which) => self.delete_groups(which),
        }
    }

    // Adds a group at the latest moment.
    fn add_group(&mut self, id: u32, kind: GroupKind, buckets: Buckets) -> Result<Effects, Fault>
        requires { id ≤ 0xffffff00 }
        ensures { Handles (first_of (refused_for (add_fault (new_group id kind buckets self.old.forwarding.tables.latest) self.old.forwarding.groups)))
            (group_added id kind buckets self.old) self.old result self.new }
    {
        let now = self.datapath.tables.latest();
        self.datapath.groups.add(id, kind, buckets, now)?;
        Ok(Effects::new(self.alloc))
    }

    fn modify_group(&mut self, id: u32, kind: GroupKind, buckets: Buckets) -> Result<Effects, Fault>
        requires { id ≤ 0xffffff00 }
        ensures { Handles (first_of (refused_for (modify_fault (modified_group id kind buckets self.old.forwarding.groups) self.old.forwarding.groups)))
            (group_modified id kind buckets self.old) self.old result self.new }
    {
        self.datapath.groups.modify(id, kind, buckets)?;
        Ok(Effects::new(self.alloc))
    }

    // Deletes a group or all, and the entries that name them: what needs memory comes first.
    fn delete_groups(&mut self, which: Option<u32>) -> Result<Effects, Fault>
        ensures { Handles (first_of (refused_for (delete_fault which self.old.forwarding.groups))) (groups_deleted which self.old) self.old result self.new }
    {
        let now = self.datapath.tables.latest();
        let removal = self.datapath.plan_removal(
            self.alloc,
            self.control.heard_open(),
            Cause::Group(which),
            now,
        )?;
        self.datapath.groups.delete(which)?;
        Ok(self.datapath.carry_out(removal))
    }

    /// The groups and flows of a configuration replace those that are there.
    pub fn load(&mut self, config: &Config) -> Result<(), AllocError>
        ensures ok { OnOk result (self.new ≡ loaded_core config.now self.old) }
        ensures err { OnErr result (self.new ≡ self.old) }
    {
        config.known();
        let now = self.datapath.tables.latest();
        let tables = load_tables(self.alloc, now, config, self.seed)?;
        self.datapath.groups = config.to_groups(now)?;
        self.datapath.tables = tables;
        Ok(())
    }

    /// The groups and flows, without counters and times.
    pub fn config(&self) -> Result<Config, AllocError>
        ensures { IfOk result (λ config. config ≡ configuration_of self.now.forwarding) }
    {
        config_from(self.alloc, &self.datapath)
    }

    /// The time is this many nanoseconds. The controller receives the asynchronous messages `heard`.
    pub fn moment(&mut self, heard: AsyncConfig, nanos: u64) -> Result<Effects, AllocError>
        ensures ok { IfOk result (λ effects. moment_done heard nanos self.old ≡ does effects.items self.new) }
        ensures err { OnErr result (self.new ≡ self.old) }
    {
        let now = self.datapath.tables.latest().max(nanos);
        let removal = self
            .datapath
            .plan_removal(self.alloc, heard, Cause::Moment(nanos), now)?;
        Ok(self.datapath.carry_out(removal))
    }
}

/// One effect.
pub fn one(alloc: Global, effect: Effect) -> Result<Effects, AllocError>
    ensures { IfOk result (λ effects. effects.items ≡ effect ∷ []) }
{
    let mut effects = Effects::new(alloc);
    effects.push(effect)?;
    Ok(effects)
}
