//! Comments about a text.
ghost use Rattle.std.specs.Prelude.{◌≡◌, ◌++◌, ◌∷◌, filter, length, map, codes, IfOk, OnOk};
ghost use Rattle.std.specs.List.{flat_map};
ghost use Rattle.of_import.specs.Notes.{left_out_action_words, comment, counter_note as counter_note_of, fault_words, is_changed as is_changed_line, mark_notes, notes_of, part_note, part_words, refusal_words, resubmit_note, renumbered_table_words, word_after_space};
ghost use Rattle.of_import.specs.{KeptViews.loses_action, KeptViews.view_kept, KeptViews.view_refusal, ParsedLinesViews.view_faults, ParsedLinesViews.view_flow_line};
ghost use Rattle.of_ovs_lines.specs.PartialFlowViews.{view_word_fault};

use crate::kept::{KeptLines, LineRefusal};
use crate::parsed_lines::{FlowLine, LineFaults};
use of_ovs_lines::WordFault;
use of_text::push_number;
use of_values::push_printable;
use std::alloc::{AllocError, Global};

fn push_comment(out: &mut Vec<u8>, words: &[u8]) -> Result<(), AllocError>
    ensures { OnOk result (out.new.items ≡ out.old.items ++ comment words.now) }
{
    out.extend_from_slice(b"# ")?;
    push_printable(out, words)?;
    out.push(b'\n')?;
    Ok(())
}

// The first line, if lines are left out.
fn push_part(alloc: Global, out: &mut Vec<u8>, count: usize) -> Result<(), AllocError>
    ensures { OnOk result (out.new.items ≡ out.old.items ++ part_note count) }
{
    if count == 0 {
        return Ok(());
    }
    let mut words = Vec::new(alloc);
    words.extend_from_slice(b"part of a table:")?;
    push_number(&mut words, count as u64)?;
    words.extend_from_slice(b" lines left out")?;
    push_comment(out, &words)
}

fn push_move(alloc: Global, out: &mut Vec<u8>, from: u8, to: u8) -> Result<(), AllocError>
    ensures { OnOk result (out.new.items ≡ out.old.items ++ comment (renumbered_table_words (from, to))) }
{
    let mut words = Vec::new(alloc);
    words.extend_from_slice(b"table")?;
    push_number(&mut words, u64::from(from))?;
    words.extend_from_slice(b" is table")?;
    push_number(&mut words, u64::from(to))?;
    push_comment(out, &words)
}

// Tables that have other numbers.
fn push_moves(alloc: Global, out: &mut Vec<u8>, moves: &[(u8, u8)]) -> Result<(), AllocError>
    ensures { OnOk result (out.new.items ≡ out.old.items ++ flat_map (λ m. comment (renumbered_table_words m)) moves.now) }
{
    for it in moves {
        push_move(alloc, out, it.0, it.1)?;
    }
    Ok(())
}

fn push_words(out: &mut Vec<u8>, faults: &[WordFault]) -> Result<(), AllocError>
    ensures { OnOk result (out.new.items ≡ out.old.items ++ flat_map word_after_space (map view_word_fault faults.now)) }
{
    for fault in faults {
        out.push(b' ')?;
        out.extend_from_slice(&fault.word)?;
    }
    Ok(())
}

fn push_fault(alloc: Global, out: &mut Vec<u8>, it: &LineFaults) -> Result<(), AllocError>
    ensures { OnOk result (out.new.items ≡ out.old.items ++ comment (fault_words (view_faults it.now))) }
{
    let mut words = Vec::new(alloc);
    words.extend_from_slice(b"line")?;
    push_number(&mut words, it.line as u64)?;
    words.extend_from_slice(b" left out:")?;
    push_words(&mut words, &it.faults)?;
    push_comment(out, &words)
}

// Lines with words that are refused.
fn push_faults(alloc: Global, out: &mut Vec<u8>, faults: &[LineFaults]) -> Result<(), AllocError>
    ensures { OnOk result (out.new.items ≡ out.old.items ++ flat_map (λ f. comment (fault_words f)) (map view_faults faults.now)) }
{
    for it in faults {
        push_fault(alloc, out, it)?;
    }
    Ok(())
}

fn push_refusal(alloc: Global, out: &mut Vec<u8>, it: LineRefusal) -> Result<(), AllocError>
    ensures { OnOk result (out.new.items ≡ out.old.items ++ comment (refusal_words (view_refusal it))) }
{
    let mut words = Vec::new(alloc);
    words.extend_from_slice(b"line")?;
    push_number(&mut words, it.line as u64)?;
    words.extend_from_slice(b" left out: type")?;
    push_number(&mut words, u64::from(it.code.kind))?;
    words.extend_from_slice(b" code")?;
    push_number(&mut words, u64::from(it.code.code))?;
    push_comment(out, &words)
}

// Lines that the switch refuses.
fn push_refusals(
    alloc: Global,
    out: &mut Vec<u8>,
    refused: &[LineRefusal],
) -> Result<(), AllocError>
    ensures { OnOk result (out.new.items ≡ out.old.items ++ flat_map (λ r. comment (refusal_words r)) (map view_refusal refused.now)) }
{
    for it in refused {
        push_refusal(alloc, out, *it)?;
    }
    Ok(())
}

fn push_action(
    alloc: Global,
    out: &mut Vec<u8>,
    line: usize,
    action: &[u8],
) -> Result<(), AllocError>
    ensures { OnOk result (out.new.items ≡ out.old.items ++ comment (left_out_action_words line action.now)) }
{
    let mut words = Vec::new(alloc);
    words.extend_from_slice(b"line")?;
    push_number(&mut words, line as u64)?;
    words.extend_from_slice(b" without action ")?;
    words.extend_from_slice(action)?;
    push_comment(out, &words)
}

fn push_actions(
    alloc: Global,
    out: &mut Vec<u8>,
    line: usize,
    left: &[Vec<u8>],
) -> Result<(), AllocError>
    ensures { OnOk result (out.new.items ≡ out.old.items ++ flat_map (λ word. comment (left_out_action_words line word)) (map (λ w. w.items) left.now)) }
{
    for action in left {
        push_action(alloc, out, line, action)?;
    }
    Ok(())
}

fn push_resubmit(alloc: Global, out: &mut Vec<u8>, it: &FlowLine) -> Result<(), AllocError>
    ensures { OnOk result (out.new.items ≡ out.old.items ++ resubmit_note (view_flow_line it.now)) }
{
    if !it.marks.resubmits {
        return Ok(());
    }
    let mut words = Vec::new(alloc);
    words.extend_from_slice(b"line")?;
    push_number(&mut words, it.line as u64)?;
    words.extend_from_slice(b": resubmit is goto")?;
    push_comment(out, &words)
}

fn push_mark(alloc: Global, out: &mut Vec<u8>, it: &FlowLine) -> Result<(), AllocError>
    ensures { OnOk result (out.new.items ≡ out.old.items ++ mark_notes (view_flow_line it.now)) }
{
    push_actions(alloc, out, it.line, &it.marks.left)?;
    push_resubmit(alloc, out, it)
}

// Actions that are left out or changed.
fn push_marks(alloc: Global, out: &mut Vec<u8>, flows: &[FlowLine]) -> Result<(), AllocError>
    ensures { OnOk result (out.new.items ≡ out.old.items ++ flat_map mark_notes (map view_flow_line flows.now)) }
{
    for it in flows {
        push_mark(alloc, out, it)?;
    }
    Ok(())
}

/// All comments.
#[tactic(auto, unfolding(crate::specs::Notes::notes_of))]
pub fn notes_for(
    alloc: Global,
    moves: &[(u8, u8)],
    faults: &[LineFaults],
    kept: &KeptLines,
) -> Result<Vec<u8>, AllocError>
    ensures { IfOk result (λ notes. notes.items ≡ notes_of moves.now (map view_faults faults.now) (view_kept kept.now)) }
{
    let mut out = Vec::new(alloc);
    push_part(alloc, &mut out, faults.len() + kept.refused.len())?;
    push_moves(alloc, &mut out, moves)?;
    push_faults(alloc, &mut out, faults)?;
    push_refusals(alloc, &mut out, &kept.refused)?;
    push_marks(alloc, &mut out, &kept.flows)?;
    Ok(out)
}

// Appends words, with a space before each.
fn push_counters(out: &mut Vec<u8>, words: &[Vec<u8>]) -> Result<(), AllocError>
    ensures { OnOk result (out.new.items ≡ out.old.items ++ flat_map (λ word. 32 ∷ word) (map (λ w. w.items) words.now)) }
{
    for word in words {
        out.push(b' ')?;
        out.extend_from_slice(word)?;
    }
    Ok(())
}

/// What a dump counted of a flow, as a comment.
pub fn counter_note(alloc: Global, it: &FlowLine) -> Result<Vec<u8>, AllocError>
    ensures { IfOk result (λ note. note.items ≡ counter_note_of (view_flow_line it.now)) }
{
    let mut note = Vec::new(alloc);
    if it.marks.counters.is_empty() {
        return Ok(note);
    }
    let mut words = Vec::new(alloc);
    words.extend_from_slice(b"counters:")?;
    push_counters(&mut words, &it.marks.counters)?;
    push_comment(&mut note, &words)?;
    Ok(note)
}

#[tactic(auto, unfolding(crate::specs::KeptViews::loses_action))]
fn is_changed(it: &FlowLine) -> bool
    ensures { result ≡ loses_action it.now }
{
    !it.marks.left.is_empty()
}

fn count_lines(flows: &[FlowLine]) -> usize
    ensures { result ≡ length (filter loses_action flows.now) }
{
    flows.iter().filter(|it| is_changed(it)).count()
}

/// How many flows have an action left out.
pub fn count_changed(flows: &[FlowLine]) -> usize
    ensures { result ≡ length (filter is_changed_line (map view_flow_line flows.now)) }
{
    count_lines(flows)
}
