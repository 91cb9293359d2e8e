//! How flow entries are named.
ghost use Rattle.std.specs.Prelude.{◌≡◌, ◌++◌, Some, option_map, slice_get, OnOk};
ghost use Rattle.of_text.specs.Views.{view, view_flows};
ghost use Rattle.of_check.specs.Tables.{flows_at};
ghost use Rattle.of_report.specs.Entries.{counter_words_of, detail_words, entry, line_words, origin_at as an_origin_at, place_words};
ghost use Rattle.of_values.specs.Origins.{view_origin, view_origins};

use of_text::{Config, FlowText};
use of_values::{Origin, push_counter_words, push_decimal, push_entry_words};
use of_wire::limits::TABLES;
use std::alloc::AllocError;

/// The flow entries of a table; none beyond the last table.
pub fn entries_of(config: &Config, table: u8) -> &[FlowText]
    ensures { view_flows result.now ≡ flows_at config.now.tables table }
{
    config.known();
    if table >= TABLES {
        return &[];
    }
    config.flows(table)
}

/// Where an entry comes from, if it is known.
pub fn origin_at(origins: &[Vec<Origin>], table: u8, place: usize) -> Option<&Origin>
    ensures { option_map (λ o. view_origin o.now) result ≡ an_origin_at (view_origins origins.now) table place }
{
    match origins.get(usize::from(table)) {
        None => None,
        Some(of_table) => of_table.get(place),
    }
}

fn push_line(out: &mut Vec<u8>, origin: Option<&Origin>) -> Result<(), AllocError>
    ensures { OnOk result (out.new.items ≡ out.old.items ++ line_words (option_map (λ o. view_origin o.now) origin.entry)) }
{
    match origin {
        None => Ok(()),
        Some(origin) => {
            out.extend_from_slice(b"line ")?;
            push_decimal(out, origin.line as u128)?;
            out.extend_from_slice(b", ")
        }
    }
}

fn push_counters(out: &mut Vec<u8>, origin: Option<&Origin>) -> Result<(), AllocError>
    ensures { OnOk result (out.new.items ≡ out.old.items ++ counter_words_of (option_map (λ o. view_origin o.now) origin.entry)) }
{
    match origin {
        None => Ok(()),
        Some(origin) => push_counter_words(out, &origin.counters),
    }
}

// Appends what an entry is.
#[tactic(auto, unfolding(crate::specs::Entries::detail_words))]
fn push_flow(out: &mut Vec<u8>, origin: Option<&Origin>, flow: &FlowText) -> Result<(), AllocError>
    ensures { OnOk result (out.new.items ≡ out.old.items ++ detail_words (option_map (λ o. view_origin o.now) origin.entry) (Some (view flow.now))) }
{
    out.extend_from_slice(b" (")?;
    push_line(out, origin)?;
    push_entry_words(out, flow.head.priority, &flow.fields)?;
    push_counters(out, origin)?;
    out.extend_from_slice(b")")
}

// Appends what the entry at a place is, if there is one.
#[tactic(auto, unfolding(crate::specs::Entries::detail_words))]
fn push_detail(
    out: &mut Vec<u8>,
    origin: Option<&Origin>,
    flows: &[FlowText],
    place: usize,
) -> Result<(), AllocError>
    ensures { OnOk result (out.new.items ≡ out.old.items ++
        detail_words (option_map (λ o. view_origin o.now) origin.entry) (slice_get (view_flows flows.now) place)) }
{
    match flows.get(place) {
        None => Ok(()),
        Some(flow) => push_flow(out, origin, flow),
    }
}

fn push_place(out: &mut Vec<u8>, table: u8, place: usize) -> Result<(), AllocError>
    ensures { OnOk result (out.new.items ≡ out.old.items ++ place_words table place) }
{
    out.extend_from_slice(b"table ")?;
    push_decimal(out, u128::from(table))?;
    out.extend_from_slice(b" entry ")?;
    push_decimal(out, place as u128)
}

/// Appends an entry: its table, its place by age, its line, its priority, its match and its counters.
#[tactic(auto, unfolding(crate::specs::Entries::entry))]
pub fn push_entry(
    out: &mut Vec<u8>,
    config: &Config,
    origins: &[Vec<Origin>],
    table: u8,
    place: usize,
) -> Result<(), AllocError>
    ensures { OnOk result (out.new.items ≡ out.old.items ++ entry (view_origins origins.now) config.now.tables table place) }
{
    push_place(out, table, place)?;
    push_detail(
        out,
        origin_at(origins, table, place),
        entries_of(config, table),
        place,
    )
}
