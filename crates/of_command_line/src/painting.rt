//! Texts with colors.
ghost use Rattle.std.specs.Prelude.{◌≡◌, ◌<◌, ◌≤◌, ◌++◌, length, IfOk, OnOk};
ghost use Rattle.std.specs.List.{flat_map};
ghost use Rattle.of_command_line.specs.Painted.{IsPainted, color_on, without_color, with_color};

use crate::rules::{length_of, rule_for};
use std::alloc::{AllocError, Global};

/// The color of some words.
#[derive(Clone, Copy)]
pub enum Color {
    Red,
    Green,
    Yellow,
    Cyan,
}

/// A part of a text, and its color if it has one.
#[derive(Clone, Copy)]
pub struct Part<'a> {
    pub color: Option<Color>,
    pub text: &'a [u8],
}

// What switches a color on (ECMA-48, 8.3.117).
fn begin_of(color: Color) -> &'static [u8]
    ensures { result.now ≡ color_on color }
{
    match color {
        Color::Red => b"\x1b[31m",
        Color::Green => b"\x1b[32m",
        Color::Yellow => b"\x1b[33m",
        Color::Cyan => b"\x1b[36m",
    }
}

// Appends the parts of a line: before, in and behind what a rule has a color for.
fn push_line_parts<'a>(parts: &mut Vec<Part<'a>>, line: &'a [u8]) -> Result<(), AllocError>
    ensures { OnOk result (flat_map without_color parts.new.items ≡ flat_map without_color parts.old.items ++ line.now) }
{
    let Some((place, rule)) = rule_for(line) else {
        parts.push(Part {
            color: None,
            text: line,
        })?;
        return Ok(());
    };
    let (before, rest) = line.split_at(place);
    let (text, behind) = rest.split_at(length_of(rule, rest));
    parts.push(Part {
        color: None,
        text: before,
    })?;
    parts.push(Part {
        color: Some(rule.color),
        text,
    })?;
    parts.push(Part {
        color: None,
        text: behind,
    })?;
    Ok(())
}

// How long the first line is, with its end.
fn line_length(text: &[u8]) -> usize
    requires { 0 < length text.now }
    ensures some { 0 < result }
    ensures within { result ≤ length text.now }
{
    match text.iter().position(|byte| *byte == b'\n') {
        Some(place) if place < text.len() => place + 1,
        _ => text.len(),
    }
}

// The parts of a text.
fn parts_of(alloc: Global, text: &[u8]) -> Result<Vec<Part<'_>>, AllocError>
    ensures { IfOk result (λ parts. flat_map without_color parts.items ≡ text.now) }
{
    let mut parts = Vec::new(alloc);
    let mut rest = text;
    while !rest.is_empty() {
        let (line, after) = rest.split_at(line_length(rest));
        push_line_parts(&mut parts, line)?;
        rest = after;
    }
    Ok(parts)
}

fn push_part(out: &mut Vec<u8>, part: &Part<'_>) -> Result<(), AllocError>
    ensures { OnOk result (out.new.items ≡ out.old.items ++ with_color part.now) }
{
    let Some(color) = part.color else {
        return out.extend_from_slice(part.text);
    };
    out.extend_from_slice(begin_of(color))?;
    out.extend_from_slice(part.text)?;
    out.extend_from_slice(b"\x1b[0m")
}

/// A text with the colors of its words: its bytes in their order, and sequences of SGR around some parts of it.
pub fn paint(alloc: Global, text: &[u8]) -> Result<Vec<u8>, AllocError>
    ensures { IfOk result (λ painted. IsPainted text.now painted.items) }
{
    let parts = parts_of(alloc, text)?;
    let mut painted = Vec::new(alloc);
    for part in &parts {
        push_part(&mut painted, part)?;
    }
    Ok(painted)
}
