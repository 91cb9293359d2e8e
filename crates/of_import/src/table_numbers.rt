//! New numbers of tables.
ghost use Rattle.std.specs.Prelude.{◌≡◌, ◌++◌, ◌∷◌, [], map, IfOk, OnOk};
ghost use Rattle.std.specs.List.{list_any};
ghost use Rattle.of_text.specs.{Flows.goes_to, Views.view, Views.view_instruction};
ghost use Rattle.of_import.specs.TableNumbers.{following_number, move_of, concerns_table as names_table, table_numbers_of, occurs as occurs_in, same_numbers};
ghost use Rattle.of_import.specs.{ParsedLinesViews.view_flow_line, TableNumbersViews.view_numbers};

use crate::parsed_lines::FlowLine;
use of_text::{FlowText, InstructionText};
use std::alloc::{AllocError, Global};

fn names(table: u8, flow: &FlowText) -> bool
    ensures { result ≡ names_table table (view flow.now) }
{
    flow.head.table == table || some_goes_to(table, &flow.instructions)
}

fn some_instruction(table: u8, instructions: &[InstructionText]) -> bool
    ensures { result ≡ list_any (λ instruction. goes_to table (view_instruction instruction)) instructions.now }
{
    instructions
        .iter()
        .any(|instruction| instruction.goes_to(table))
}

fn some_goes_to(table: u8, instructions: &[InstructionText]) -> bool
    ensures { result ≡ list_any (goes_to table) (map view_instruction instructions.now) }
{
    some_instruction(table, instructions)
}

fn some_names(flows: &[FlowLine], table: u8) -> bool
    ensures { result ≡ list_any (λ line. names_table table (view line.flow)) flows.now }
{
    flows.iter().any(|line| names(table, &line.flow))
}

// Whether the table occurs.
fn occurs(flows: &[FlowLine], table: u8) -> bool
    ensures { result ≡ occurs_in (map view_flow_line flows.now) table }
{
    some_names(flows, table)
}

// The number after that of a table.
fn next_number(flows: &[FlowLine], table: u8, number: u8) -> u8
    ensures { result ≡ following_number (map view_flow_line flows.now) table number }
{
    if occurs(flows, table) {
        number.saturating_add(1)
    } else {
        number
    }
}

// Notes a table that gets another number.
fn push_move(
    moves: &mut Vec<(u8, u8)>,
    flows: &[FlowLine],
    table: u8,
    number: u8,
) -> Result<(), AllocError>
    ensures { OnOk result (moves.new.items ≡ moves.old.items ++ move_of (map view_flow_line flows.now) table number) }
{
    if occurs(flows, table) && table != number {
        moves.push((table, number))?;
    }
    Ok(())
}

/// New numbers of the tables 0 to 255.
#[derive(Drop)]
pub struct TableNumbers {
    pub numbers: Vec<u8>,
    /// Tables that get another number.
    pub moves: Vec<(u8, u8)>,
    /// How many tables there are.
    pub count: u8,
}

impl TableNumbers {
    /// The same numbers.
    pub fn same(alloc: Global) -> TableNumbers
        ensures { view_numbers result ≡ same_numbers }
    {
        TableNumbers {
            numbers: Vec::new(alloc),
            moves: Vec::new(alloc),
            count: 0,
        }
    }

    // One table more.
    fn add(&mut self, flows: &[FlowLine], table: u8) -> Result<(), AllocError>
        ensures numbers { OnOk result (self.new.numbers.items ≡ self.old.numbers.items ++ self.old.count ∷ []) }
        ensures moves { OnOk result (self.new.moves.items ≡ self.old.moves.items ++ move_of (map view_flow_line flows.now) table self.old.count) }
        ensures count { OnOk result (self.new.count ≡ following_number (map view_flow_line flows.now) table self.old.count) }
    {
        self.numbers.push(self.count)?;
        push_move(&mut self.moves, flows, table, self.count)?;
        self.count = next_number(flows, table, self.count);
        Ok(())
    }

    /// Numbers from 0 on for the tables that occur.
    #[tactic(auto, unfolding(crate::specs::TableNumbers::table_numbers_of))]
    pub fn of(alloc: Global, flows: &[FlowLine]) -> Result<TableNumbers, AllocError>
        ensures { IfOk result (λ r. view_numbers r ≡ table_numbers_of (map view_flow_line flows.now)) }
    {
        let mut made = TableNumbers::same(alloc);
        let mut table: u16 = 0;
        while table < 256 {
            made.add(flows, table as u8)?;
            table += 1;
        }
        Ok(made)
    }
}
