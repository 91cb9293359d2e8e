//! Where flow entries come from, in a table of Open vSwitch.
ghost use Rattle.std.specs.Prelude.{◌≡◌, ◌++◌, map, IfOk, OnOk};
ghost use Rattle.of_values.specs.Origins.{view_origin, view_origins, view_words};
ghost use Rattle.of_import_report.specs.FlowOrigins.{flow_origins_below, flow_origins_in, origin_in, origin_of as origin_of_line};

use of_import::FlowLine;
use of_values::Origin;
use of_wire::limits::TABLES;
use std::alloc::{AllocError, Global};

fn copy_words(alloc: Global, words: &[Vec<u8>]) -> Result<Vec<Vec<u8>>, AllocError>
    ensures { IfOk result (λ copies. view_words copies.items ≡ view_words words.now) }
{
    let mut copies = Vec::new(alloc);
    for word in words {
        copies.push(word.to_vec(alloc)?)?;
    }
    Ok(copies)
}

fn origin_of(alloc: Global, it: &FlowLine) -> Result<Origin, AllocError>
    ensures { IfOk result (λ origin. view_origin origin ≡ origin_of_line it.now) }
{
    Ok(Origin {
        line: it.line,
        counters: copy_words(alloc, &it.marks.counters)?,
    })
}

fn push_origin_in(
    alloc: Global,
    origins: &mut Vec<Origin>,
    table: u8,
    it: &FlowLine,
) -> Result<(), AllocError>
    ensures { OnOk result (map view_origin origins.new.items ≡ map view_origin origins.old.items ++ origin_in table it.now) }
{
    if it.flow.head.table == table {
        origins.push(origin_of(alloc, it)?)?;
    }
    Ok(())
}

// Those of the flows of a table.
#[tactic(auto, unfolding(crate::specs::FlowOrigins::flow_origins_in))]
fn origins_of_table(alloc: Global, table: u8, flows: &[FlowLine]) -> Result<Vec<Origin>, AllocError>
    ensures { IfOk result (λ origins. map view_origin origins.items ≡ flow_origins_in table flows.now) }
{
    let mut origins = Vec::new(alloc);
    for it in flows {
        push_origin_in(alloc, &mut origins, table, it)?;
    }
    Ok(origins)
}

/// Where flow entries come from, their lines, from 1, and their counters: for each of the sixteen tables, by age.
#[tactic(auto, unfolding(crate::specs::FlowOrigins::flow_origins_below))]
pub fn table_origins(alloc: Global, flows: &[FlowLine]) -> Result<Vec<Vec<Origin>>, AllocError>
    ensures { IfOk result (λ origins. view_origins origins.items ≡ flow_origins_below 16 flows.now) }
{
    let mut origins = Vec::new(alloc);
    for table in 0..TABLES {
        origins.push(origins_of_table(alloc, table, flows)?)?;
    }
    Ok(origins)
}
