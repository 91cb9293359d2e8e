//! The configuration that a list of messages says.
ghost use Rattle.std.specs.Prelude.{◌≡◌, ◌⊎◌, ℕ, [], Ok, Err, Some, IfOk, IfSome, IfErr, OnOk};
ghost use Rattle.std.specs.{List.AllByRecursion, Option.option_map};
ghost use Rattle.of_text.specs.{Groups.group_rows, Kept.IsKeptFlow, Rows.Fits, Views.view, Views.view_group};
ghost use Rattle.of_laws.specs.Built.{IsFlow, Listed as AllListed, added_by_message, config_listed, counted_group, group_listed, config_said, earlier, flow_said, listed_messages, listed_by, nothing_listed, fault_place as place_is, message_said};
ghost use Rattle.of_laws.specs.BuiltViews.{IsSoundListed, IsSoundSaid, joined_with_later, or_later, view_said};

use crate::fault::ConfigFault;
use byteorder::{BigEndian, ByteOrder};
use of_build::group_text;
use of_formats::messages::GROUP_MOD;
use of_groups::GroupKind;
use of_messages::{FlowMod, FlowModCommand, GroupMod, Message, read_message};
use of_text::{Config, FillError, FlowHead, FlowText, GroupHead, GroupText};
use of_wire::limits::{OFP_NO_BUFFER, OFPG_MAX};
use of_wire::{Bytes, Code, ReadError, number_at};
use std::alloc::{AllocError, Global};

/// Above the number of any group.
const NO_GROUP: u64 = 0x1_0000_0000;

// What a message adds.
#[derive(Drop)]
enum Said {
    Group(GroupText),
    Flow(FlowText),
    Other,
    // it is refused by itself; the group that it would add counts as there
    Bad(Code, Option<GroupText>),
}

fn flow_from(alloc: Global, flow_mod: &FlowMod) -> Result<FlowText, AllocError>
    ensures text { IfOk result (λ f. view f ≡ flow_said flow_mod.now) }
    ensures kept { IfOk result (λ f. IsKeptFlow (view f)) }
{
    let head = FlowHead {
        table: flow_mod.table,
        priority: flow_mod.priority,
        cookie: flow_mod.cookie,
        idle: flow_mod.idle_timeout,
        hard: flow_mod.hard_timeout,
        flags: flow_mod.flags,
    };
    FlowText::of(alloc, head, &flow_mod.fields, &flow_mod.instructions)
}

// What a message that was read adds.
fn said_of(alloc: Global, message: Message) -> Result<Said, AllocError>
    ensures says { IfOk result (λ s. view_said s ≡ added_by_message message) }
    ensures sound { IfOk result IsSoundSaid }
{
    match message {
        Message::GroupMod(GroupMod::Add(group)) => Ok(Said::Group(group_text(alloc, group)?)),
        Message::FlowMod(flow_mod) => {
            if flow_mod.command == FlowModCommand::Add && flow_mod.buffer == OFP_NO_BUFFER {
                Ok(Said::Flow(flow_from(alloc, &flow_mod)?))
            } else {
                Ok(Said::Other)
            }
        }
        _ => Ok(Said::Other),
    }
}

// The group that a refused message would add: without buckets, so it names no group.
fn counted_in(alloc: Global, message: &[u8]) -> Option<GroupText>
    ensures counted { option_map view_group result ≡ counted_group message.now }
    ensures sound { IfSome result (λ g. AllByRecursion Fits (group_rows (view_group g))) }
{
    if message.len() < 16 || message[1] != GROUP_MOD || BigEndian::read_u16(&message[8..]) != 0 {
        return None;
    }
    let id = BigEndian::read_u32(&message[12..]);
    if id > OFPG_MAX {
        return None;
    }
    let kind = GroupKind::All;
    Some(GroupText {
        head: GroupHead { id, kind },
        buckets: Vec::new(alloc),
    })
}

// What the bytes of a message add.
fn read(alloc: Global, message: &[u8]) -> Result<Said, AllocError>
    ensures says { IfOk result (λ s. view_said s ≡ message_said message.now) }
    ensures sound { IfOk result IsSoundSaid }
{
    match read_message(alloc, message) {
        Ok(message) => said_of(alloc, message),
        Err(ReadError::Refused(code)) => Ok(Said::Bad(code, counted_in(alloc, message))),
        Err(ReadError::Memory) => Err(AllocError),
    }
}

// What messages add: groups and flows, with the places of their messages.
#[derive(Drop)]
struct Listed {
    places: Vec<usize>,
    groups: Vec<GroupText>,
    flows: Vec<FlowText>,
    // of the first message that is at fault by itself or where it stands
    fault: Option<ConfigFault>,
    // the least number that the next group may have
    least: u64,
}

impl Listed {
    fn new(alloc: Global) -> Self
        ensures nothing { (later : AllListed) → joined_with_later result later ≡ later }
        ensures least { result.least ≡ 0 }
        ensures sound { IsSoundListed result }
    {
        Listed {
            places: Vec::new(alloc),
            groups: Vec::new(alloc),
            flows: Vec::new(alloc),
            fault: None,
            least: 0,
        }
    }

    // A message is at fault: it is named unless one before it is.
    fn note(&mut self, fault: ConfigFault)
        ensures fault { self.new.fault ≡ or_later self.old.fault (Some fault) }
        ensures same { (self.new.places ≡ self.old.places) × (self.new.groups ≡ self.old.groups) × (self.new.flows ≡ self.old.flows) ×
            (self.new.least ≡ self.old.least) }
    {
        if self.fault.is_none() {
            self.fault = Some(fault);
        }
    }

    // A group comes.
    fn push_group(&mut self, place: usize, group: GroupText) -> Result<(), AllocError>
        requires fits { AllByRecursion Fits (group_rows (view_group group)) }
        requires sound { IsSoundListed self.old }
        ensures goes_on { OnOk result ((rest : ℕ → AllListed) →
            joined_with_later self.old (group_listed place self.old.least (view_group group) rest) ≡ joined_with_later self.new (rest self.new.least)) }
        ensures sound { OnOk result (IsSoundListed self.new) }
    {
        let id = u64::from(group.head.id);
        if id < self.least {
            self.note(ConfigFault::NotACommand { place });
            return Ok(());
        }
        self.places.push(place)?;
        self.groups.push(group)?;
        self.least = id + 1;
        Ok(())
    }

    // A flow comes.
    fn push_flow(&mut self, place: usize, flow: FlowText) -> Result<(), AllocError>
        requires kept { IsKeptFlow (view flow) }
        requires sound { IsSoundListed self.old }
        ensures goes_on { OnOk result ((rest : ℕ → AllListed) →
            joined_with_later self.old (listed_by place self.old.least (IsFlow (view flow)) rest) ≡ joined_with_later self.new (rest self.new.least)) }
        ensures sound { OnOk result (IsSoundListed self.new) }
    {
        self.places.push(place)?;
        self.flows.push(flow)?;
        self.least = NO_GROUP;
        Ok(())
    }

    // The message at that place says this.
    fn take(&mut self, place: usize, said: Said) -> Result<(), AllocError>
        requires said { IsSoundSaid said }
        requires sound { IsSoundListed self.old }
        // Whatever follows it.
        ensures goes_on { OnOk result ((rest : ℕ → AllListed) →
            joined_with_later self.old (listed_by place self.old.least (view_said said) rest) ≡ joined_with_later self.new (rest self.new.least)) }
        ensures sound { OnOk result (IsSoundListed self.new) }
    {
        match said {
            Said::Group(group) => self.push_group(place, group),
            Said::Flow(flow) => self.push_flow(place, flow),
            Said::Other => {
                self.note(ConfigFault::NotACommand { place });
                Ok(())
            }
            Said::Bad(code, None) => {
                self.note(ConfigFault::Refused { place, code });
                Ok(())
            }
            Said::Bad(code, Some(group)) => {
                self.note(ConfigFault::Refused { place, code });
                self.push_group(place, group)
            }
        }
    }
}

// What the messages add.
fn list_of(alloc: Global, messages: &[Bytes]) -> Result<Listed, AllocError>
    ensures listed { IfOk result (λ l. joined_with_later l nothing_listed ≡ listed_messages 0 0 messages.now) }
    ensures sound { IfOk result IsSoundListed }
{
    let mut all = Listed::new(alloc);
    for (place, message) in messages.iter().enumerate() {
        let said = read(alloc, message.as_slice())?;
        all.take(place, said)?;
    }
    Ok(all)
}

fn place_of(fault: ConfigFault) -> usize
    ensures { result ≡ place_is fault }
{
    match fault {
        ConfigFault::NoMemory => 0,
        ConfigFault::NotACommand { place } | ConfigFault::Refused { place, .. } => place,
    }
}

// The earlier of two faults.
fn earlier_of(fault: Option<ConfigFault>, refused: ConfigFault) -> ConfigFault
    ensures { Some result ≡ earlier fault (Some refused) }
{
    match fault {
        Some(fault) if place_of(fault) <= place_of(refused) => fault,
        _ => refused,
    }
}

// The configuration of all that was added, or the first fault.
fn configured(alloc: Global, all: Listed) -> Result<Config, ConfigFault>
    requires { IsSoundListed all }
    ensures given { IfOk result (λ config. config_listed (joined_with_later all nothing_listed) ≡ Ok config) }
    ensures failed { IfErr result (λ fault. (fault ≡ ConfigFault.NoMemory) ⊎ (config_listed (joined_with_later all nothing_listed) ≡ Err fault)) }
{
    let Listed {
        places,
        groups,
        flows,
        fault,
        ..
    } = all;
    match (Config::of_items(alloc, groups, flows), fault) {
        (Ok(config), None) => Ok(config),
        (Ok(_), Some(fault)) => Err(fault),
        (Err(FillError::NoMemory), _) => Err(ConfigFault::NoMemory),
        (Err(FillError::Refused { place, code }), fault) => {
            let place = number_at(&places, place);
            Err(earlier_of(fault, ConfigFault::Refused { place, code }))
        }
    }
}

/// The configuration of GROUP_MODs that add groups, in ascending order of number, and then FLOW_MODs that add flows, as
/// `assemble` gives it for the lines of a flow text: a group may name later ones (OpenFlow 1.3.5, 7.3.4.1 and 7.3.4.2).
///
/// At the first message that is at fault it is refused with its place, from 0. One is at fault that is not such a message,
/// stands out of order or names a held packet (`NotACommand`); or that is refused, with the code of its first refusal: as it
/// is read by itself, or else as a group or a flow of a flow text is, beside all groups of the list and the flows before it.
/// So flags other than 1, 8 and 16 are OFPFMFC_BAD_FLAGS, a match and priority that the table has OFPFMFC_OVERLAP, and a
/// group that the list does not have OFPBAC_BAD_OUT_GROUP. A group whose GROUP_MOD is refused by itself counts as there, so that
/// groups and flows may name it. Transaction ids, out_port, out_group and masks are not looked at.
pub fn build(alloc: Global, messages: &[Bytes]) -> Result<Config, ConfigFault>
    ensures given { IfOk result (λ config. config_said messages.now ≡ Ok config) }
    ensures failed { IfErr result (λ fault. (fault ≡ ConfigFault.NoMemory) ⊎ (config_said messages.now ≡ Err fault)) }
{
    let all = list_of(alloc, messages)?;
    configured(alloc, all)
}
