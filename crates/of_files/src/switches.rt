//! The switch that a file describes, and its ports.
ghost use Rattle.std.specs.Prelude.{◌≡◌, ◌++◌, IfErr, IfOk, OnOk, is_some, map};
ghost use Rattle.of_replay.specs.Loaded.{switch_with};
ghost use Rattle.of_files.specs.Switches.{AreContents, AreFlowsOf, ArePorts, ArePortsOfBoth, HasNoContents, DescribesSwitch, chosen_ports, content_said, missing_said, own_ports as ports_of_run, ports_given, ports_named, switch_said, view_contents};
ghost use Rattle.of_files.specs.FirstEvents.{with_controller};

use crate::beginning::connect;
use crate::contents::{Content, content_of};
use crate::playing::play_file;
use crate::ports::{missing_ports, named_ports, ports_for};
use crate::tables::{FileTables, nothing, read_table, read_text};
use of_classifier::Lookup;
use of_import::ImportError;
use of_ovs_lines::Mode;
use of_ports::Port;
use of_replay::{Ended, switch_of_config};
use of_switch::Switch;
use of_text::Config;
use std::alloc::{AllocError, Global};

/// A table of ovs-ofctl is read without leaving anything out, and its tables have its numbers.
pub const WHOLE: Mode = Mode {
    skip: false,
    renumber: false,
};

/// What a file is read as.
#[derive(Drop)]
pub enum Contents<L: Lookup> {
    /// Groups and flows.
    Tables(FileTables),
    /// The switch after the rows of an event file.
    Events(Switch<L>),
}

/// Why a file describes no switch.
#[derive(Drop)]
pub enum NoContents {
    /// A flow text or an event file is at fault, or memory ran out.
    Ended(Ended),
    /// What ovs-ofctl prints is refused, or memory ran out.
    NotImported(ImportError),
}

/// What a file is read as, that is what it is said to be, or what it begins as; of an event file all lines, or so many first ones; what
/// ovs-ofctl prints in this mode.
pub fn read_contents<L: Lookup>(
    alloc: Global,
    file: &[u8],
    said: Option<Content>,
    lines: Option<u64>,
    mode: Mode,
) -> Result<Contents<L>, NoContents>
    ensures read { IfOk result (λ contents. AreContents mode lines (content_said said file.now) file.now (view_contents contents)) }
    ensures failed { IfErr result (HasNoContents mode lines (content_said said file.now) file.now) }
{
    match said.unwrap_or(content_of(file)) {
        Content::FlowText => match read_text(alloc, file) {
            Ok(tables) => Ok(Contents::Tables(tables)),
            Err(ended) => Err(NoContents::Ended(ended)),
        },
        Content::EventFile => match play_file(alloc, file, lines) {
            Ok(switch) => Ok(Contents::Events(switch)),
            Err(ended) => Err(NoContents::Ended(ended)),
        },
        Content::OvsTable => match read_table(alloc, file, mode) {
            Ok(tables) => Ok(Contents::Tables(tables)),
            Err(error) => Err(NoContents::NotImported(error)),
        },
    }
}

fn push_ports(ports: &mut Vec<u32>, all: &[Port]) -> Result<(), AllocError>
    ensures { OnOk result (ports.new.items ≡ ports.old.items ++ map (λ p. p.number) all.now) }
{
    for port in all {
        ports.push(port.number)?;
    }
    Ok(())
}

/// Appends the ports that a file names: those of its groups and flows, or those that the switch of an event file has.
pub fn push_named<L: Lookup>(
    alloc: Global,
    ports: &mut Vec<u32>,
    contents: &Contents<L>,
) -> Result<(), AllocError>
    ensures { OnOk result (ports.new.items ≡ ports.old.items ++ ports_named (view_contents contents.now)) }
{
    match contents {
        Contents::Tables(tables) => {
            let named = named_ports(alloc, &tables.config)?;
            ports.extend_from_slice(&named)
        }
        Contents::Events(switch) => push_ports(ports, switch.datapath().ports.as_slice()),
    }
}

/// The ports of a switch, and those that are named and that it does not have.
#[derive(Drop)]
pub struct PortList {
    pub ports: Vec<u32>,
    pub missing: Vec<u32>,
}

/// The ports that are given; else ports 1 to 4 and those that are named.
pub fn port_list(
    alloc: Global,
    given: &Option<Vec<u32>>,
    named: &[u32],
) -> Result<PortList, AllocError>
    ensures { IfOk result (ArePorts (ports_given given.now) named.now) }
{
    let ports = match given {
        Some(ports) => ports.to_vec(alloc)?,
        None => ports_for(alloc, named)?,
    };
    let missing = missing_ports(alloc, named, &ports)?;
    Ok(PortList { ports, missing })
}

/// The ports of the switch of one file: those that are given or that the file names, and of an event file none is missing.
pub fn file_ports<L: Lookup>(
    alloc: Global,
    given: &Option<Vec<u32>>,
    contents: &Contents<L>,
) -> Result<PortList, AllocError>
    ensures ports { IfOk result (λ list. list.ports.items ≡ chosen_ports (ports_given given.now) (ports_named (view_contents contents.now))) }
    ensures missing { IfOk result (λ list. list.missing.items ≡ missing_said (ports_given given.now) (view_contents contents.now)) }
{
    let mut named = Vec::new(alloc);
    push_named(alloc, &mut named, contents)?;
    let mut list = port_list(alloc, given, &named)?;
    if is_run(contents) {
        list.missing.clear();
    }
    Ok(list)
}

// The switch of groups and flows, which has these ports and a controller.
fn switch_of_tables<L: Lookup>(
    alloc: Global,
    config: &Config,
    ports: &[u32],
) -> Result<Switch<L>, AllocError>
    ensures { IfOk result (λ s. s ≡ with_controller (switch_with ports.now config.now)) }
{
    let mut switch = switch_of_config(alloc, config, ports)?;
    connect(alloc, &mut switch)?;
    Ok(switch)
}

/// The switch of what was read: with these ports and a controller, unless an event file says its own.
pub fn switch_of<L: Lookup>(
    alloc: Global,
    contents: Contents<L>,
    ports: &[u32],
) -> Result<Switch<L>, AllocError>
    ensures { IfOk result (λ s. s ≡ switch_said ports.now (view_contents contents)) }
{
    match contents {
        Contents::Tables(tables) => switch_of_tables(alloc, &tables.config, ports),
        Contents::Events(switch) => Ok(switch),
    }
}

/// A switch, and the ports that its file names and that it does not have.
#[derive(Drop)]
pub struct Described<L: Lookup> {
    pub switch: Switch<L>,
    pub missing: Vec<u32>,
}

/// The switch of one file, with the ports that are given or that the file names.
pub fn describe<L: Lookup>(
    alloc: Global,
    contents: Contents<L>,
    given: &Option<Vec<u32>>,
) -> Result<Described<L>, AllocError>
    ensures { IfOk result (λ d. DescribesSwitch (ports_given given.now) (view_contents contents) d.switch d.missing.items) }
{
    let PortList { ports, missing } = file_ports(alloc, given, &contents)?;
    let switch = switch_of(alloc, contents, &ports)?;
    Ok(Described { switch, missing })
}

// The ports of a switch after the rows of an event file.
fn own_ports<L: Lookup>(
    alloc: Global,
    contents: &Contents<L>,
) -> Result<Option<Vec<u32>>, AllocError>
    ensures { IfOk result (λ ports. ports_given ports ≡ ports_of_run (view_contents contents.now)) }
{
    match contents {
        Contents::Tables(_) => Ok(None),
        Contents::Events(_) => {
            let mut ports = Vec::new(alloc);
            push_named(alloc, &mut ports, contents)?;
            Ok(Some(ports))
        }
    }
}

fn is_run<L: Lookup>(contents: &Contents<L>) -> bool
    ensures { result ≡ is_some (ports_of_run (view_contents contents.now)) }
{
    matches!(contents, Contents::Events(_))
}

/// The ports of two switches that are compared: those that are given, or those of the first switch that is one after the rows of an event file,
/// or else those that the files name. Two switches after rows lack none.
pub fn both_ports<L: Lookup>(
    alloc: Global,
    given: &Option<Vec<u32>>,
    first: &Contents<L>,
    second: &Contents<L>,
) -> Result<PortList, AllocError>
    ensures { IfOk result (ArePortsOfBoth (ports_given given.now) (view_contents first.now) (view_contents second.now)) }
{
    let mut named = Vec::new(alloc);
    push_named(alloc, &mut named, first)?;
    push_named(alloc, &mut named, second)?;
    let own = match own_ports(alloc, first)? {
        Some(ports) => Some(ports),
        None => own_ports(alloc, second)?,
    };
    let mut list = match given {
        Some(_) => port_list(alloc, given, &named)?,
        None => port_list(alloc, &own, &named)?,
    };
    if is_run(first) && is_run(second) {
        list.missing.clear();
    }
    Ok(list)
}

/// A switch, and its flow entries: those of the file, with their lines, or those after the rows of an event file, without lines.
#[derive(Drop)]
pub struct FileSwitch<L: Lookup> {
    pub switch: Switch<L>,
    pub tables: FileTables,
}

/// The switch of what was read, with these ports unless an event file says its own, and its flow entries.
pub fn file_switch<L: Lookup>(
    alloc: Global,
    contents: Contents<L>,
    ports: &[u32],
) -> Result<FileSwitch<L>, AllocError>
    ensures switch { IfOk result (λ f. f.switch ≡ switch_said ports.now (view_contents contents)) }
    ensures tables { IfOk result (λ f. AreFlowsOf (view_contents contents) f.tables) }
{
    match contents {
        Contents::Tables(tables) => Ok(FileSwitch {
            switch: switch_of_tables(alloc, &tables.config, ports)?,
            tables,
        }),
        Contents::Events(switch) => Ok(FileSwitch {
            tables: FileTables {
                config: switch.config()?,
                origins: Vec::new(alloc),
                left_out: nothing(alloc),
            },
            switch,
        }),
    }
}
