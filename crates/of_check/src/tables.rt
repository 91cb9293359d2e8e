//! The tables that packets come to.
ghost use Rattle.std.specs.{Prelude.◌≡◌, Prelude.◌==◌, Prelude.IfOk, List.list_any};
ghost use Rattle.of_text.specs.{Flows.goes_to as is_going_to, Views.view, Views.view_flows, Views.view_instruction};
ghost use Rattle.of_check.specs.Tables.{flows_at, leads_to_table as is_leading, is_led_to as are_leading, is_table_miss_flow as is_table_miss, is_reached as is_reached_in, reached_below};

use of_text::{Config, FlowText, InstructionText};
use of_wire::limits::TABLES;
use std::alloc::{AllocError, Global};

/// The flow entries of a table, of which there are none beyond the last table.
pub fn flows_of(config: &Config, table: u8) -> &[FlowText]
    ensures { view_flows result.now ≡ flows_at config.now.tables table }
{
    config.known();
    if table < TABLES {
        config.flows(table)
    } else {
        &[]
    }
}

fn some_goes(instructions: &[InstructionText], to: u8) -> bool
    ensures { result ≡ list_any (λ s. is_going_to to (view_instruction s)) instructions.now }
{
    instructions
        .iter()
        .any(|instruction| instruction.goes_to(to))
}

#[tactic(auto, using(of_text::proofs::RefusalLemmas::mapped_any))]
fn flow_goes_to(flow: &FlowText, to: u8) -> bool
    ensures { result ≡ list_any (is_going_to to) (view flow.now).instructions }
{
    some_goes(&flow.instructions, to)
}

fn any_goes_to(flows: &[FlowText], to: u8) -> bool
    ensures { result ≡ list_any (λ f. list_any (is_going_to to) (view f).instructions) flows.now }
{
    flows.iter().any(|flow| flow_goes_to(flow, to))
}

// Whether some of these entries goes on at the table.
#[tactic(auto, using(of_text::proofs::RefusalLemmas::mapped_any))]
fn lead(flows: &[FlowText], to: u8) -> bool
    ensures { result ≡ list_any (λ f. list_any (is_going_to to) f.instructions) (view_flows flows.now) }
{
    any_goes_to(flows, to)
}

fn leads(config: &Config, from: u8, to: u8) -> bool
    ensures { result ≡ is_leading config.now.tables from to }
{
    lead(flows_of(config, from), to)
}

fn some_leads(config: &Config, froms: &[u8], to: u8) -> bool
    ensures { result ≡ list_any (λ from. is_leading config.now.tables from to) froms.now }
{
    froms.iter().any(|from| leads(config, *from, to))
}

fn is_led_to(config: &Config, reached: &[u8], to: u8) -> bool
    ensures { result ≡ are_leading config.now.tables reached.now to }
{
    to == 0 || some_leads(config, reached, to)
}

/// The tables that packets come to: table 0, and those to which some GOTO_TABLE of such a table leads (OpenFlow 1.3.5, 5.1 and 5.9).
#[tactic(auto, unfolding(crate::specs::Tables::reached_below))]
pub fn reached_tables(alloc: Global, config: &Config) -> Result<Vec<u8>, AllocError>
    ensures { IfOk result (λ reached. reached.items ≡ reached_below config.now.tables 16) }
{
    let mut reached = Vec::new(alloc);
    for table in 0..TABLES {
        if is_led_to(config, &reached, table) {
            reached.push(table)?;
        }
    }
    Ok(reached)
}

/// Whether a table is among those that packets come to.
pub fn is_among(reached: &[u8], table: u8) -> bool
    ensures { result ≡ list_any (λ n. n == table) reached.now }
{
    reached.iter().any(|other| *other == table)
}

fn is_miss(flow: &FlowText) -> bool
    ensures { result ≡ is_table_miss (view flow.now) }
{
    flow.head.priority == 0 && flow.fields.is_empty()
}

fn some_miss(flows: &[FlowText]) -> bool
    ensures { result ≡ list_any (λ f. is_table_miss (view f)) flows.now }
{
    flows.iter().any(|flow| is_miss(flow))
}

/// Whether one of the entries is a table-miss flow entry (OpenFlow 1.3.5, 5.4).
#[tactic(auto, using(of_text::proofs::RefusalLemmas::mapped_any))]
pub fn has_miss(flows: &[FlowText]) -> bool
    ensures { result ≡ list_any is_table_miss (view_flows flows.now) }
{
    some_miss(flows)
}
