//! Tables of Open vSwitch as configurations.
ghost use Rattle.std.specs.Prelude.{◌≡◌, ◌<◌, ◌+◌, ◌++◌, [], false, Some, None, map, length, IfOk, IfErr, OnOk};
ghost use Rattle.std.specs.List.{AllByRecursion};
ghost use Rattle.of_text.specs.{Configs.EncodeConfig, Configs.config_text, Flows.text_rows, Lines.lines_of, Texts.AreRows, Views.view_flows, Views.view_groups};
ghost use Rattle.of_import.specs.Imports.{FaultsOf, HasBegun, IsConfigOf, IsFilled, IsImport, IsImportConfig, IsImportText, IsTextOf, NoImport, RefusedAt, RefusedOf, kept_in, numbers_for as numbers_for_lines};
ghost use Rattle.of_import.specs.ParsedLinesViews.{AreSoundGroups, FlowIsSound, view_faults, view_flow_line, view_group_line};
ghost use Rattle.of_import.specs.{Counters.with_notes, CounterViews.view_notes, KeptViews.view_kept, ParsedLines.parsed_lines_of, TableNumbersViews.view_numbers};
ghost use Rattle.of_import.specs.declared.import.ImportError.TheVariants.{NoMemory};

use crate::copies::{copy_flow, copy_group};
use crate::counters::{counter_notes, push_with_notes};
use crate::kept::{KeptLines, LineRefusal, keep};
use crate::notes::{count_changed, notes_for};
use crate::parsed_lines::{FlowLine, GroupLine, LineFaults, ParsedLines, read_tables};
use crate::table_numbers::TableNumbers;
use of_ovs_lines::Mode;
use of_oxm::Code;
use of_text::{Config, FillError, FlowText, GroupText, disassemble, texts_are_of_configs};
use of_wire::number_at;
use std::alloc::{AllocError, AllocFailed, Global};
use thiserror::Error;

/// The flow text of a table of Open vSwitch, and its lines that are not in it.
#[derive(Drop)]
pub struct ImportText {
    pub text: Vec<u8>,
    /// Lines with words that are refused.
    pub faults: Vec<LineFaults>,
    /// Lines that the switch refuses.
    pub refused: Vec<LineRefusal>,
    /// How many flows have an action left out.
    pub changed: usize,
}

/// The flow text of a table of Open vSwitch, and all its lines.
#[derive(Drop)]
pub struct Import {
    pub text: Vec<u8>,
    /// Lines with words that are refused.
    pub faults: Vec<LineFaults>,
    /// The groups and flows of the text, and the lines that the switch refuses.
    pub kept: KeptLines,
    /// Tables that have another number, and that number.
    pub moves: Vec<(u8, u8)>,
    /// How many flows have an action left out.
    pub changed: usize,
}

/// The configuration of a table of Open vSwitch, and all its lines.
#[derive(Drop)]
pub struct ImportConfig {
    pub config: Config,
    /// Lines with words that are refused.
    pub faults: Vec<LineFaults>,
    /// Its groups and flows, and the lines that the switch refuses.
    pub kept: KeptLines,
    /// How many flows have an action left out.
    pub changed: usize,
}

/// Why a table gave no flow text.
#[derive(Debug, Drop, Error)]
pub enum ImportError {
    #[error("out of memory")]
    NoMemory,
    /// These lines have words that are refused, and these are refused by the switch.
    #[error("some lines are refused")]
    Faults(Vec<LineFaults>, Vec<LineRefusal>),
    /// The line of the first group or flow that the switch refuses beside the others, and its first refusal (OpenFlow 1.3.5, 7.4.4).
    #[error("line {line} is refused")]
    Refused { line: usize, code: Code },
    /// More tables than a switch has.
    #[error("{0} tables")]
    TooMany(u8),
}

impl From<AllocError> for ImportError {
    ghost from_gives = { λ _ e. e ≡ NoMemory };

    fn from(_e: AllocError) -> ImportError {
        ImportError::NoMemory
    }
}

impl<T: Drop> From<AllocFailed<T>> for ImportError {
    ghost from_gives = { λ _ e. e ≡ NoMemory };

    fn from(_e: AllocFailed<T>) -> ImportError {
        ImportError::NoMemory
    }
}

// What is known of a table before its text is written.
#[derive(Drop)]
struct Begun {
    // the comments about it
    notes: Vec<u8>,
    faults: Vec<LineFaults>,
    kept: KeptLines,
    moves: Vec<(u8, u8)>,
    changed: usize,
}

// Copies of the groups, whose lines are appended.
fn copy_groups(
    alloc: Global,
    lines: &mut Vec<usize>,
    groups: &[GroupLine],
) -> Result<Vec<GroupText>, AllocError>
    ensures lines { OnOk result (lines.new.items ≡ lines.old.items ++ map (λ g. g.line) groups.now) }
    ensures groups { IfOk result (λ made. view_groups made.items ≡ view_groups (map (λ g. g.group) groups.now)) }
{
    let mut made = Vec::new(alloc);
    for it in groups {
        lines.push(it.line)?;
        made.push(copy_group(alloc, &it.group)?)?;
    }
    Ok(made)
}

// Copies of the flows, whose lines are appended.
fn copy_flows(
    alloc: Global,
    lines: &mut Vec<usize>,
    flows: &[FlowLine],
) -> Result<Vec<FlowText>, AllocError>
    ensures lines { OnOk result (lines.new.items ≡ lines.old.items ++ map (λ f. f.line) flows.now) }
    ensures flows { IfOk result (λ made. view_flows made.items ≡ view_flows (map (λ f. f.flow) flows.now)) }
{
    let mut made = Vec::new(alloc);
    for it in flows {
        lines.push(it.line)?;
        made.push(copy_flow(alloc, &it.flow)?)?;
    }
    Ok(made)
}

// The groups, whose lines are appended.
fn take_groups(
    alloc: Global,
    lines: &mut Vec<usize>,
    groups: Vec<GroupLine>,
) -> Result<Vec<GroupText>, AllocError>
    ensures lines { OnOk result (lines.new.items ≡ lines.old.items ++ map (λ g. g.line) groups.items) }
    ensures groups { IfOk result (λ made. made.items ≡ map (λ g. g.group) groups.items) }
{
    let mut made = Vec::new(alloc);
    for it in groups {
        lines.push(it.line)?;
        made.push(it.group)?;
    }
    Ok(made)
}

// The flows, whose lines are appended.
fn take_flows(
    alloc: Global,
    lines: &mut Vec<usize>,
    flows: Vec<FlowLine>,
) -> Result<Vec<FlowText>, AllocError>
    ensures lines { OnOk result (lines.new.items ≡ lines.old.items ++ map (λ f. f.line) flows.items) }
    ensures flows { IfOk result (λ made. made.items ≡ map (λ f. f.flow) flows.items) }
{
    let mut made = Vec::new(alloc);
    for it in flows {
        lines.push(it.line)?;
        made.push(it.flow)?;
    }
    Ok(made)
}

// The configuration of groups and flows that come from these lines.
fn configured(
    alloc: Global,
    lines: &[usize],
    groups: Vec<GroupText>,
    flows: Vec<FlowText>,
) -> Result<Config, ImportError>
    requires { AreRows (text_rows (view_groups groups.items) (view_flows flows.items)) }
    ensures found { IfOk result (IsFilled (view_groups groups.items) (view_flows flows.items)) }
    ensures failed { IfErr result (RefusedAt lines.now (view_groups groups.items) (view_flows flows.items)) }
{
    match Config::of_items(alloc, groups, flows) {
        Ok(config) => Ok(config),
        Err(FillError::NoMemory) => Err(ImportError::NoMemory),
        Err(FillError::Refused { place, code }) => Err(ImportError::Refused {
            line: number_at(lines, place),
            code,
        }),
    }
}

// The configuration of what is kept, which stays.
fn configure(alloc: Global, groups: &[GroupLine], flows: &[FlowLine]) -> Result<Config, ImportError>
    requires groups { AreSoundGroups groups.now }
    requires flows { AllByRecursion FlowIsSound flows.now }
    ensures found { IfOk result (λ config. IsConfigOf (map view_group_line groups.now) (map view_flow_line flows.now) config) }
    ensures failed { IfErr result (RefusedOf (map view_group_line groups.now) (map view_flow_line flows.now)) }
{
    let mut lines = Vec::new(alloc);
    let groups = copy_groups(alloc, &mut lines, groups)?;
    let flows = copy_flows(alloc, &mut lines, flows)?;
    configured(alloc, &lines, groups, flows)
}

// The same of what is used up.
fn configure_all(
    alloc: Global,
    groups: Vec<GroupLine>,
    flows: Vec<FlowLine>,
) -> Result<Config, ImportError>
    requires groups { AreSoundGroups groups.items }
    requires flows { AllByRecursion FlowIsSound flows.items }
    ensures found { IfOk result (λ config. IsConfigOf (map view_group_line groups.items) (map view_flow_line flows.items) config) }
    ensures failed { IfErr result (RefusedOf (map view_group_line groups.items) (map view_flow_line flows.items)) }
{
    let mut lines = Vec::new(alloc);
    let groups = take_groups(alloc, &mut lines, groups)?;
    let flows = take_flows(alloc, &mut lines, flows)?;
    configured(alloc, &lines, groups, flows)
}

// Appends the text of a configuration, and the counters of its flows, to comments.
fn push_text(
    alloc: Global,
    notes: &mut Vec<u8>,
    counters: Vec<Vec<u8>>,
    config: &Config,
) -> Result<(), AllocError>
    ensures { OnOk result (notes.new.items ≡ notes.old.items ++ with_notes (view_notes counters.items) (lines_of (config_text config.now))) }
{
    let text = disassemble(alloc, config)?;
    push_with_notes(notes, &text, counters)
}

// What is known of a configuration and its text.
fn known_text(config: &Config)
    ensures { EncodeConfig (lines_of (config_text config.now)) config.now }
{
    config.known();
    texts_are_of_configs();
}

// The text of what is kept, which stays, after these comments.
fn written(alloc: Global, notes: &mut Vec<u8>, kept: &KeptLines) -> Result<(), ImportError>
    requires groups { AreSoundGroups kept.now.groups.items }
    requires flows { AllByRecursion FlowIsSound kept.now.flows.items }
    ensures text { OnOk result (IsTextOf (view_kept kept.now) notes.old.items notes.new.items) }
    ensures failed { IfErr result (RefusedOf (view_kept kept.now).groups (view_kept kept.now).flows) }
{
    let counters = counter_notes(alloc, &kept.flows)?;
    let config = configure(alloc, &kept.groups, &kept.flows)?;
    known_text(&config);
    push_text(alloc, notes, counters, &config)?;
    Ok(())
}

// The same, where what is kept is used up, except for the lines that the switch refuses.
fn written_all(
    alloc: Global,
    notes: &mut Vec<u8>,
    kept: KeptLines,
) -> Result<Vec<LineRefusal>, ImportError>
    requires groups { AreSoundGroups kept.groups.items }
    requires flows { AllByRecursion FlowIsSound kept.flows.items }
    ensures text { OnOk result (IsTextOf (view_kept kept) notes.old.items notes.new.items) }
    ensures refused { IfOk result (λ refused. refused.items ≡ kept.refused.items) }
    ensures failed { IfErr result (RefusedOf (view_kept kept).groups (view_kept kept).flows) }
{
    let counters = counter_notes(alloc, &kept.flows)?;
    let config = configure_all(alloc, kept.groups, kept.flows)?;
    known_text(&config);
    push_text(alloc, notes, counters, &config)?;
    Ok(kept.refused)
}

// The new numbers of tables.
fn numbers_for(alloc: Global, mode: Mode, text: &[u8]) -> Result<TableNumbers, AllocError>
    ensures { IfOk result (λ r. view_numbers r ≡ numbers_for_lines mode (lines_of text.now)) }
{
    if !mode.renumber {
        return Ok(TableNumbers::same(alloc));
    }
    let first = read_tables(alloc, mode, &[], text)?;
    TableNumbers::of(alloc, &first.flows)
}

// What the lines say, in these numbers, and what is kept of it; without `skip` all lines are.
fn accepted(
    alloc: Global,
    mode: Mode,
    numbers: &[u8],
    text: &[u8],
) -> Result<(KeptLines, Vec<LineFaults>), ImportError>
    ensures kept { IfOk result (λ r. view_kept r.0 ≡ kept_in (parsed_lines_of mode numbers.now (lines_of text.now))) }
    ensures faults { IfOk result (λ r. map view_faults r.1.items ≡ (parsed_lines_of mode numbers.now (lines_of text.now)).faults) }
    ensures groups { IfOk result (λ r. AreSoundGroups r.0.groups.items) }
    ensures flows { IfOk result (λ r. AllByRecursion FlowIsSound r.0.flows.items) }
    ensures none { IfOk result (λ r. mode.skip ≡ false → length r.1.items + length r.0.refused.items ≡ 0) }
    ensures failed { IfErr result (FaultsOf mode (parsed_lines_of mode numbers.now (lines_of text.now))) }
{
    let ParsedLines {
        groups,
        flows,
        faults,
    } = read_tables(alloc, mode, numbers, text)?;
    let kept = keep(alloc, groups, flows)?;
    if !mode.skip && !(faults.is_empty() && kept.refused.is_empty()) {
        return Err(ImportError::Faults(faults, kept.refused));
    }
    Ok((kept, faults))
}

// What is known of a table before its text is written.
fn begin(alloc: Global, text: &[u8], mode: Mode) -> Result<Begun, ImportError>
    ensures begun { IfOk result (λ b. HasBegun (lines_of text.now) mode b.notes.items b.faults.items b.kept b.moves.items b.changed) }
    ensures failed { IfErr result (NoImport (lines_of text.now) mode) }
{
    let numbers = numbers_for(alloc, mode, text)?;
    if 16 < numbers.count {
        return Err(ImportError::TooMany(numbers.count));
    }
    let (kept, faults) = accepted(alloc, mode, &numbers.numbers, text)?;
    let notes = notes_for(alloc, &numbers.moves, &faults, &kept)?;
    let changed = count_changed(&kept.flows);
    Ok(Begun {
        notes,
        faults,
        kept,
        moves: numbers.moves,
        changed,
    })
}

/// The flow text (docs/FLOWTEXT.md) of a table that `ovs-ofctl` printed or would read, after comments about it, and with the counters of a dump
/// as comments behind the flows. With `skip` lines that are refused are left out, else there has to be none. With `renumber` the tables that
/// occur get the numbers 0 to 15.
pub fn import_text(alloc: Global, text: &[u8], mode: Mode) -> Result<ImportText, ImportError>
    ensures found { IfOk result (λ r. IsImportText (lines_of text.now) mode r.text.items r.faults.items r.refused.items r.changed) }
    ensures failed { IfErr result (NoImport (lines_of text.now) mode) }
{
    let begun = begin(alloc, text, mode)?;
    let mut text = begun.notes;
    match written_all(alloc, &mut text, begun.kept) {
        Ok(refused) => Ok(ImportText {
            text,
            faults: begun.faults,
            refused,
            changed: begun.changed,
        }),
        Err(error) => Err(error),
    }
}

/// The same, and the groups and flows of the text with their lines, and the tables that have another number.
pub fn import_tables(alloc: Global, text: &[u8], mode: Mode) -> Result<Import, ImportError>
    ensures found { IfOk result (λ r. IsImport (lines_of text.now) mode r.text.items r.faults.items r.kept r.moves.items r.changed) }
    ensures failed { IfErr result (NoImport (lines_of text.now) mode) }
{
    let begun = begin(alloc, text, mode)?;
    let mut text = begun.notes;
    match written(alloc, &mut text, &begun.kept) {
        Ok(()) => Ok(Import {
            text,
            faults: begun.faults,
            kept: begun.kept,
            moves: begun.moves,
            changed: begun.changed,
        }),
        Err(error) => Err(error),
    }
}

/// The groups and flows of a table that `ovs-ofctl` printed or would read, as a configuration, without text: that of the text that
/// [`import_text`] writes.
pub fn import_config(alloc: Global, text: &[u8], mode: Mode) -> Result<ImportConfig, ImportError>
    ensures found { IfOk result (λ r. IsImportConfig (lines_of text.now) mode r.config r.faults.items r.kept r.changed) }
    ensures failed { IfErr result (NoImport (lines_of text.now) mode) }
{
    let begun = begin(alloc, text, mode)?;
    match configure(alloc, &begun.kept.groups, &begun.kept.flows) {
        Ok(config) => Ok(ImportConfig {
            config,
            faults: begun.faults,
            kept: begun.kept,
            changed: begun.changed,
        }),
        Err(error) => Err(error),
    }
}
