//! A frame that is changed step by step.
ghost use Rattle.std.specs.Prelude.{◌≡◌, ◌≤◌, ◌<◌, ◌^◌, length};

use crate::checks::same;
use crate::keys::says;
use of_headers::{Known, read_inside};
use of_layers::Field;
use of_rewrite::{Frame, Ttl};
use std::alloc::{AllocError, Global};
use std::process::Abort;
use std::test::Fail;

/// What is done with a frame, or asked of it.
pub(super) enum Step {
    /// Pushes a tag of this type.
    Push(u16),
    Pop,
    Set(Field, u128),
    SetTtl(u8),
    /// Takes one from the hops, and answers so.
    Age(Ttl),
    /// Whether a field is lent.
    Lends(Field, bool),
    /// How many bytes are lent of a field.
    Lent(Field, usize),
    /// Writes this byte over the source address, which is lent.
    FillSource(u8),
    /// Writes these bytes over a field, which is lent.
    Write(Field, &'static [u8]),
    /// Which fields the frame has beside IN_PORT and METADATA, once its headers are read and kept.
    Has(&'static str),
    /// Reads its headers, and keeps them.
    Read,
    /// How much is known of its headers.
    Knows(Kept),
    /// How many bytes the frame has.
    Length(usize),
    /// What the frame is.
    Is(&'static [u8]),
    /// How it begins.
    Begins(&'static [u8]),
    /// How it ends.
    Ends(&'static [u8]),
}

/// How much is known of the headers of a frame.
pub(super) enum Kept {
    Nothing,
    /// Where its layers begin.
    Places,
    /// That, and its fields.
    Fields,
}

/// What a step does or shows, and the step.
pub(super) type Row = (&'static str, Step);

pub(super) fn frame_of(alloc: Global, bytes: &[u8]) -> Result<Frame, AllocError>
    requires long { 14 ≤ length bytes.now }
    requires most { length bytes.now < 2 ^ 61 }
{
    let mut copy = Vec::new(alloc);
    copy.extend_from_slice(bytes)?;
    Ok(Frame::new(copy))
}

fn push(rt: &impl Abort, frame: &mut Frame, what: &str, tag: u16) -> Result<(), Fail> {
    assert!(rt; tag == 0x8100 || tag == 0x88a8, "{what}");
    frame.push_vlan(tag)?;
    Ok(())
}

fn set(rt: &impl Abort, frame: &mut Frame, what: &str, field: Field, value: u128) {
    let row = field.row();
    assert!(rt; row.settable && value <= row.ones, "{what}");
    frame.set(field, value);
}

fn age(rt: &impl Abort, frame: &mut Frame, what: &str, wanted: Ttl) {
    same(rt, what, &frame.dec_ttl(), &wanted);
}

/// Writes over the source address. What the loan's contract says of the bytes behind it is enough for this one.
#[tactic(auto, using(of_rewrite::proofs::Lending::length_with))]
fn fill_source(frame: &mut Frame, byte: u8)
    ensures { length frame.new ≡ length frame.old }
{
    frame.field_mut(Field::EthSrc).fill(byte);
}

/// Writes these bytes over a field.
fn write(rt: &impl Abort, frame: &mut Frame, what: &str, field: Field, bytes: &[u8]) {
    let loan = frame.field_mut(field);
    assert_eq!(rt; loan.len(), bytes.len(), "{what}");
    loan.copy_from_slice(bytes);
}

/// Asserts which fields the frame has, and that they are those of its bytes. What is read of its headers is kept.
fn has(
    rt: &impl Abort,
    alloc: Global,
    frame: &mut Frame,
    what: &str,
    wanted: &str,
) -> Result<(), Fail> {
    frame.read_headers();
    let key = frame.key(7, 9);
    let anew = read_inside(frame.bytes(), 7, 9).expect(rt, what).key();
    same(rt, what, &key, &anew);
    let wanted = format!(in alloc; "InPort=7 Metadata=9 {wanted}")?;
    says(rt, alloc, what, &key, wanted.as_str())
}

/// Whether so much is known of the headers.
fn knows(frame: &Frame, kept: &Kept) -> bool {
    matches!(
        (kept, frame.known()),
        (Kept::Nothing, Known::Nothing)
            | (Kept::Places, Known::Places(_))
            | (Kept::Fields, Known::Fields(_))
    )
}

/// Asserts what a step shows that changes nothing.
fn shows(rt: &impl Abort, frame: &Frame, what: &str, step: &Step) {
    match step {
        Step::Lends(field, wanted) => same(rt, what, &frame.lends(*field), wanted),
        Step::Knows(wanted) => same(rt, what, &knows(frame, wanted), &true),
        Step::Length(wanted) => same(rt, what, &frame.len(), wanted),
        Step::Is(wanted) => same(rt, what, &frame.bytes(), wanted),
        Step::Begins(wanted) => same(rt, what, &frame.bytes().starts_with(wanted), &true),
        Step::Ends(wanted) => same(rt, what, &frame.bytes().ends_with(wanted), &true),
        _ => {}
    }
}

/// Does what a row says, and asserts its answer.
fn play(rt: &impl Abort, alloc: Global, frame: &mut Frame, row: &Row) -> Result<(), Fail> {
    let (what, step) = row;
    match step {
        Step::Push(tag) => return push(rt, frame, what, *tag),
        Step::Pop => frame.pop_vlan(),
        Step::Set(field, value) => set(rt, frame, what, *field, *value),
        Step::SetTtl(value) => frame.set_ttl(*value),
        Step::Age(wanted) => age(rt, frame, what, *wanted),
        Step::Lent(field, wanted) => same(rt, what, &frame.field_mut(*field).len(), wanted),
        Step::FillSource(byte) => fill_source(frame, *byte),
        Step::Write(field, bytes) => write(rt, frame, what, *field, bytes),
        Step::Read => frame.read_headers(),
        Step::Has(wanted) => return has(rt, alloc, frame, what, wanted),
        _ => shows(rt, frame, what, step),
    }
    Ok(())
}

/// Plays rows from a frame of these bytes on.
pub(super) fn play_all(
    rt: &impl Abort,
    alloc: Global,
    bytes: &[u8],
    rows: &[Row],
) -> Result<(), Fail> {
    assert!(rt; bytes.len() >= 14 && bytes.len() < 1000);
    let mut frame = frame_of(alloc, bytes)?;
    for row in rows {
        play(rt, alloc, &mut frame, row)?;
    }
    Ok(())
}
