//! Configurations to text.
ghost use Rattle.std.specs.Prelude.{◌≡◌, ◌++◌, ℕ, List, IfOk, OnOk, MatchResult};
ghost use Rattle.std.specs.List.{AllByRecursion};
ghost use Rattle.of_text.specs.Configs.{Configuration, IsConfig, EncodeConfig, all_flows, config_text, view_tables};
ghost use Rattle.of_text.specs.{Groups.group_rows, Groups.rows_of_groups, Flows.rows_of_all_flows, Flows.flow_rows, Texts.lines_text};
ghost use Rattle.of_text.specs.{Views.view, Views.view_flows, Views.view_group, Views.view_groups, declared.assembling.TextFault.TheVariants.NoMemory};
ghost use Rattle.of_lines.specs.{Lines.lines_of, Rows.Fits};

use crate::assembling::{TextFault, assemble};
use crate::config::Config;
use crate::flow::{FlowText, push_flow};
use crate::group::{GroupText, push_group};
use crate::text::push_lines;
use of_lines::Row;
use std::alloc::{AllocError, Global};

// Appends the lines of a flow. The rows are used again.
fn write_flow(out: &mut Vec<u8>, rows: &mut Vec<Row>, flow: &FlowText) -> Result<(), AllocError>
    requires { AllByRecursion Fits (flow_rows (view flow.now)) }
    ensures { OnOk result (out.new.items ≡ out.old.items ++ lines_text (flow_rows (view flow.now))) }
{
    rows.clear();
    push_flow(rows, flow)?;
    push_lines(out, rows)
}

// Appends the lines of flows.
fn write_flows(out: &mut Vec<u8>, flows: &[FlowText]) -> Result<(), AllocError>
    requires { AllByRecursion Fits (rows_of_all_flows (view_flows flows.now)) }
    ensures { OnOk result (out.new.items ≡ out.old.items ++ lines_text (rows_of_all_flows (view_flows flows.now))) }
{
    let mut rows = Vec::new(*out.allocator());
    for flow in flows {
        write_flow(out, &mut rows, flow)?;
    }
    Ok(())
}

// Appends the lines of a group. The rows are used again.
fn write_group(out: &mut Vec<u8>, rows: &mut Vec<Row>, group: &GroupText) -> Result<(), AllocError>
    requires { AllByRecursion Fits (group_rows (view_group group.now)) }
    ensures { OnOk result (out.new.items ≡ out.old.items ++ lines_text (group_rows (view_group group.now))) }
{
    rows.clear();
    push_group(rows, group)?;
    push_lines(out, rows)
}

// Appends the lines of groups.
fn write_groups(out: &mut Vec<u8>, groups: &[GroupText]) -> Result<(), AllocError>
    requires { AllByRecursion Fits (rows_of_groups (view_groups groups.now)) }
    ensures { OnOk result (out.new.items ≡ out.old.items ++ lines_text (rows_of_groups (view_groups groups.now))) }
{
    let mut rows = Vec::new(*out.allocator());
    for group in groups {
        write_group(out, &mut rows, group)?;
    }
    Ok(())
}

// Appends the lines of tables.
fn write_tables(out: &mut Vec<u8>, tables: &[Vec<FlowText>]) -> Result<(), AllocError>
    requires { AllByRecursion Fits (rows_of_all_flows (all_flows (view_tables tables.now))) }
    ensures { OnOk result (out.new.items ≡ out.old.items ++ lines_text (rows_of_all_flows (all_flows (view_tables tables.now)))) }
{
    for table in tables {
        write_flows(out, table)?;
    }
    Ok(())
}

/// The canonical text of a configuration: its groups by number, then its flows by table, and in a table the oldest first.
pub fn disassemble(alloc: Global, config: &Config) -> Result<Vec<u8>, AllocError>
    ensures { IfOk result (λ text. text.items ≡ config_text config.now) }
{
    let mut out = Vec::new(alloc);
    write_groups(&mut out, &config.groups)?;
    write_tables(&mut out, &config.tables)?;
    Ok(out)
}

/// The configuration again, by way of its text.
pub fn assemble_again(alloc: Global, config: &Config) -> Result<Config, TextFault>
    ensures { MatchResult result (λ again. again ≡ config.now) (λ e. e ≡ NoMemory) }
{
    config.known();
    let Ok(text) = disassemble(alloc, config) else {
        return Err(TextFault::NoMemory);
    };
    assemble(alloc, &text)
}

/// The canonical text of a configuration encodes it, and no text encodes two.
pub fn texts_are_of_configs()
    ensures canonical { (c : Configuration) → IsConfig c → EncodeConfig (lines_of (config_text c)) c }
    ensures one { (lines : List (List ℕ)) (a b : Configuration) → EncodeConfig lines a → EncodeConfig lines b → a ≡ b }
{}
