use crate::checks::same;
use crate::counting::Counting;
use crate::steps::{Entry, Frame, Step, add, key_of, match_of, play};
use of_cache::{Cached, Row};
use of_classifier::Lookup;
use of_mask_groups::MaskGroups;
use std::alloc::Global;
use std::cell::Cell;
use std::process::Abort;
use std::test::Fail;

mod rows;

/// What is done with a cache, or seen of it.
enum CacheStep {
    /// What is done with any classifier.
    Does(Step),
    /// Adds an entry, and once more where there was no memory, which leaves the rows.
    AddAgain(Entry),
    /// The rows look at these fields alone, and are of these ports, in this order; all answer the entry of that place.
    Keeps(u32, &'static [u32], Option<usize>),
    /// How often the classifier below was asked which entry wins.
    Asked(u64),
}

/// What a step does or shows, and the step.
type CacheRow = (&'static str, CacheStep);

fn row_count<L: Lookup>(alloc: Global, cache: &Cached<L>) -> Result<usize, Fail> {
    Ok(cache.rows(alloc)?.len())
}

/// Asserts which fields a row looks at, of which port it is, and what it answers.
fn is_row(
    rt: &impl Abort,
    what: &str,
    row: &Row,
    (fields, port): (u32, u32),
    answer: Option<usize>,
) {
    let Row {
        region,
        answer: found,
    } = row;
    let looks_at = (
        region.mask.masks.numbers.present,
        region.key.numbers.in_port,
    );
    same(rt, what, &looks_at, &(fields, port));
    same(rt, what, found, &answer);
}

/// Asserts that rows look at these fields alone, and are of these ports, in this order.
fn are_rows(
    rt: &impl Abort,
    what: &str,
    rows: &[Row],
    (fields, ports): (u32, &[u32]),
    answer: Option<usize>,
) {
    same(rt, what, &rows.len(), &ports.len());
    for (row, port) in rows.iter().zip(ports) {
        is_row(rt, what, row, (fields, *port), answer);
    }
}

/// Adds an entry, and once more where there was no memory, which leaves the rows.
fn add_again<L: Lookup>(
    rt: &impl Abort,
    alloc: Global,
    cache: &mut Cached<L>,
    entry: &Entry,
) -> Result<usize, Fail> {
    let before = row_count(alloc, cache)?;
    if let Ok(number) = cache.add(match_of(alloc, entry)?, entry.priority) {
        return Ok(number);
    }
    same(
        rt,
        "the rows without memory",
        &row_count(alloc, cache)?,
        &before,
    );
    add(alloc, cache, entry)
}

fn number_of(numbers: &[usize], place: Option<usize>) -> Option<usize> {
    numbers.get(place?).copied()
}

fn keeps<L: Lookup>(
    rt: &impl Abort,
    alloc: Global,
    cache: &Cached<L>,
    what: &str,
    looks_at: (u32, &[u32]),
    answer: Option<usize>,
) -> Result<(), Fail> {
    are_rows(rt, what, &cache.rows(alloc)?, looks_at, answer);
    Ok(())
}

/// Does what a row says, and asserts what it shows.
fn play_one<L: Lookup>(
    rt: &impl Abort,
    alloc: Global,
    cache: &mut Cached<L>,
    asked: &Cell<u64>,
    numbers: &mut Vec<usize>,
    (what, step): &CacheRow,
) -> Result<(), Fail> {
    match step {
        CacheStep::Does(step) => play(rt, alloc, cache, numbers, what, step),
        CacheStep::AddAgain(entry) => Ok(numbers.push(add_again(rt, alloc, cache, entry)?)?),
        CacheStep::Keeps(fields, ports, place) => {
            let answer = number_of(numbers, *place);
            keeps(rt, alloc, cache, what, (*fields, *ports), answer)
        }
        CacheStep::Asked(count) => {
            same(rt, what, &asked.get(), count);
            Ok(())
        }
    }
}

/// Plays rows; the classifier below counts in `asked` what it is asked.
fn play_all<L: Lookup>(
    rt: &impl Abort,
    alloc: Global,
    cache: &mut Cached<L>,
    asked: &Cell<u64>,
    rows: &[CacheRow],
) -> Result<(), Fail> {
    let mut numbers = Vec::new(alloc);
    for row in rows {
        play_one(rt, alloc, cache, asked, &mut numbers, row)?;
    }
    cache.rows_are_right();
    Ok(())
}

#[test]
fn a_row_of_every_key(rt: HostRuntime) -> Result<(), Fail> {
    let mut cache = Cached::<MaskGroups>::empty(rt.alloc(), 0)?;
    play_all(&rt, rt.alloc(), &mut cache, &Cell::new(0), rows::NO_ENTRY)
}

#[test]
fn a_row_of_an_entry(rt: HostRuntime) -> Result<(), Fail> {
    let asked = Cell::new(0);
    let inner = Counting {
        inner: MaskGroups::empty(rt.alloc(), 0)?,
        asked: Some(&asked),
    };
    let mut cache = Cached::with_rows(rt.alloc(), inner, 1024, 0)?;
    play_all(&rt, rt.alloc(), &mut cache, &asked, rows::ONE_ENTRY)
}

#[test]
fn the_last_row_goes(rt: HostRuntime) -> Result<(), Fail> {
    let inner = MaskGroups::empty(rt.alloc(), 0)?;
    let mut cache = Cached::with_rows(rt.alloc(), inner, 2, 1)?;
    play_all(&rt, rt.alloc(), &mut cache, &Cell::new(0), rows::TWO_ROWS)
}

/// The ports of the rows of as many look-ups as there are rows, the last one first.
fn last_ports(alloc: Global) -> Result<Vec<u32>, Fail> {
    let mut ports = Vec::new(alloc);
    for port in 2..=1025 {
        ports.push(port)?;
    }
    ports.reverse();
    Ok(ports)
}

fn look_up<L: Lookup>(cache: &mut Cached<L>, in_port: u32) -> Result<(), Fail> {
    let frame = Frame {
        in_port,
        ..rows::PORT_1_88B5
    };
    cache.winner(&key_of(&frame)?);
    Ok(())
}

fn full<L: Lookup>(rt: &impl Abort, alloc: Global, cache: &mut Cached<L>) -> Result<(), Fail> {
    add(alloc, cache, &rows::PORT_1_AT_10)?;
    for port in 1..=1025 {
        look_up(cache, port)?;
    }
    let ports = last_ports(alloc)?;
    keeps(
        rt,
        alloc,
        cache,
        "the last ones",
        (rows::IN_PORT, ports.as_slice()),
        None,
    )
}

#[test]
fn as_many_rows_as_there_may_be(rt: HostRuntime) -> Result<(), Fail> {
    let mut cache = Cached::<MaskGroups>::empty(rt.alloc(), 1)?;
    full(&rt, rt.alloc(), &mut cache)
}

/// Each allocation is refused in turn by tools/fail-alloc.
#[test]
fn winners_without_memory(rt: HostRuntime) -> Result<(), Fail> {
    let mut cache = Cached::<MaskGroups>::empty(rt.alloc(), 1)?;
    play_all(&rt, rt.alloc(), &mut cache, &Cell::new(0), rows::AGAIN)
}
