//! The lines of flow entries in a flow text.
ghost use Rattle.std.specs.Prelude.{◌≡◌, ◌++◌, map, IfOk, OnOk};
ghost use Rattle.of_values.specs.Origins.{view_origin, view_origins};
ghost use Rattle.of_files.specs.FlowLines.{at_line, begins_flow_of_table as is_flow_line, flow_lines as flow_lines_in, number_if, text_origins as origins_in_table, text_origins_below};

use itoa::Buffer;
use of_text::{cut, is};
use of_values::Origin;
use of_wire::limits::TABLES;
use std::alloc::{AllocError, Global};

// Whether a line begins a flow of a table.
fn begins_flow(line: &[u8], table: u8) -> bool
    ensures { result ≡ is_flow_line table line.now }
{
    let (word, rest) = cut(line, b' ');
    let (number, _) = cut(rest, b' ');
    let mut buffer = Buffer::new();
    is(word, b"flow") && is(number, buffer.format(table).as_bytes())
}

fn push_if(numbers: &mut Vec<usize>, some: bool, number: usize) -> Result<(), AllocError>
    ensures { OnOk result (numbers.new.items ≡ numbers.old.items ++ number_if some number) }
{
    if some {
        numbers.push(number)?;
    }
    Ok(())
}

// The lines that begin flows of a table.
fn flow_lines(alloc: Global, table: u8, text: &[u8]) -> Result<Vec<usize>, AllocError>
    ensures { IfOk result (λ numbers. numbers.items ≡ flow_lines_in table text.now) }
{
    let mut numbers = Vec::new(alloc);
    let mut number: usize = 0;
    let mut rest = text;
    while !rest.is_empty() {
        let (line, after) = cut(rest, b'\n');
        rest = after;
        number += 1;
        push_if(&mut numbers, begins_flow(line, table), number)?;
    }
    Ok(numbers)
}

// Entries that begin at these lines.
fn origins_at(alloc: Global, numbers: &[usize]) -> Result<Vec<Origin>, AllocError>
    ensures { IfOk result (λ origins. map view_origin origins.items ≡ map at_line numbers.now) }
{
    let mut origins = Vec::new(alloc);
    for number in numbers {
        origins.push(Origin {
            line: *number,
            counters: Vec::new(alloc),
        })?;
    }
    Ok(origins)
}

// Where the entries of a table come from.
fn origins_of_table(alloc: Global, table: u8, text: &[u8]) -> Result<Vec<Origin>, AllocError>
    ensures { IfOk result (λ origins. map view_origin origins.items ≡ origins_in_table table text.now) }
{
    let numbers = flow_lines(alloc, table, text)?;
    origins_at(alloc, &numbers)
}

/// Where the entries of a flow text come from, the lines at which they begin, from 1: for each of the sixteen tables, by age.
#[tactic(auto, unfolding(crate::specs::FlowLines::text_origins_below))]
pub fn text_origins(alloc: Global, text: &[u8]) -> Result<Vec<Vec<Origin>>, AllocError>
    ensures { IfOk result (λ origins. view_origins origins.items ≡ text_origins_below 16 text.now) }
{
    let mut origins = Vec::new(alloc);
    for table in 0..TABLES {
        origins.push(origins_of_table(alloc, table, text)?)?;
    }
    Ok(origins)
}
