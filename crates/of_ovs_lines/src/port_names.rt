//! Names of ports in a table of ovs-ofctl.
ghost use Rattle.std.specs.Prelude.{◌≡◌, ◌<◌, ◌≤◌, ◌-◌, ◌++◌, false, length, IfOk, OnOk};
ghost use Rattle.of_text.specs.Lines.{lines_of};
ghost use Rattle.of_ovs_lines.specs.PortNames.{after_token, comes_before_port as comes_before_port_so, end_in, ends_token as ends_token_so, is_quoted as is_quoted_so, lists_port as lists_port_so, listed_name as listed_name_of, listed_number as listed_number_of, number_or as number_or_of, numbered_token, port_number as port_number_of, quoted_after as quoted_behind, says_port as says_port_so, token_in, tokens, unquoted as unquoted_of, with_port_numbers as with_numbers};

use crate::line::trimmed;
use of_ovs_words::{Why, is_gap, port_in};
use of_text::{cut, is};
use std::alloc::{AllocError, Global};

// Whether a word is the number of a port, or the name of a reserved one.
fn says_port(word: &[u8]) -> bool
    ensures { result ≡ says_port_so word.now }
{
    match port_in(Why::PortName, word) {
        Err(Why::PortName) => false,
        _ => true,
    }
}

fn listed_number(line: &[u8]) -> &[u8]
    ensures { result.now ≡ listed_number_of line.now }
{
    cut(trimmed(line), b'(').0
}

fn listed_name(line: &[u8]) -> &[u8]
    ensures { result.now ≡ listed_name_of line.now }
{
    let (_, rest) = cut(trimmed(line), b'(');
    cut(rest, b')').0
}

// Whether a line lists the port of that name.
fn lists_port(name: &[u8], line: &[u8]) -> bool
    ensures { result ≡ lists_port_so name.now line.now }
{
    !name.is_empty() && says_port(listed_number(line)) && listed_name(line) == name
}

// The number of the first port of a name in a list, or a word instead.
fn number_or<'a>(word: &'a [u8], name: &[u8], list: &'a [u8]) -> &'a [u8]
    ensures { result.now ≡ number_or_of word.now name.now (lines_of list.now) }
{
    let mut rest = list;
    while !rest.is_empty() {
        let (line, after) = cut(rest, b'\n');
        rest = after;
        if lists_port(name, line) {
            return listed_number(line);
        }
    }
    word
}

fn is_quoted(word: &[u8]) -> bool
    ensures { result ≡ is_quoted_so word.now }
{
    1 < word.len() && word[0] == b'"' && word[word.len() - 1] == b'"'
}

fn unquoted(word: &[u8]) -> &[u8]
    requires { 1 < length word.now }
    ensures { result.now ≡ unquoted_of word.now }
{
    &word[1..word.len() - 1]
}

// The number of the port that a word names, or the word.
fn port_number<'a>(list: &'a [u8], word: &'a [u8]) -> &'a [u8]
    ensures { result.now ≡ port_number_of (lines_of list.now) word.now }
{
    if is_quoted(word) {
        number_or(word, unquoted(word), list)
    } else if says_port(word) {
        word
    } else {
        number_or(word, word, list)
    }
}

fn ends_token(quoted: bool, byte: u8) -> bool
    ensures { result ≡ ends_token_so quoted byte }
{
    byte == b'\n'
        || !quoted && (is_gap(byte) || byte == b'=' || byte == b':' || byte == b'(' || byte == b')')
}

fn quoted_after(quoted: bool, byte: u8) -> bool
    ensures { result ≡ quoted_behind quoted byte }
{
    if byte == b'"' { !quoted } else { quoted }
}

// The first word, the byte that ends it if there is one, and what comes after it.
fn cut_token(text: &[u8]) -> (&[u8], &[u8], &[u8])
    ensures word { result.0.now ≡ token_in false text.now }
    ensures end { result.1.now ≡ end_in false text.now }
    ensures rest { result.2.now ≡ after_token false text.now }
    ensures shorter { length result.2.now ≤ length text.now - 1 }
{
    let mut quoted = false;
    for (i, byte) in text.iter().enumerate() {
        if ends_token(quoted, *byte) {
            return (&text[..i], &text[i..i + 1], &text[i + 1..]);
        }
        quoted = quoted_after(quoted, *byte);
    }
    (text, &[], &[])
}

fn comes_before_port(word: &[u8], mark: &[u8]) -> bool
    ensures { result ≡ comes_before_port_so word.now mark.now }
{
    (is(mark, b"=") || is(mark, b":"))
        && (word.eq_ignore_ascii_case(b"in_port")
            || word.eq_ignore_ascii_case(b"output")
            || word.eq_ignore_ascii_case(b"watch_port"))
}

// Appends a word with the byte that ends it; the number of a port if a port is `here`.
fn push_token(
    out: &mut Vec<u8>,
    list: &[u8],
    here: bool,
    word: &[u8],
    end: &[u8],
) -> Result<(), AllocError>
    ensures { OnOk result (out.new.items ≡ out.old.items ++ numbered_token (lines_of list.now) here word.now ++ end.now) }
{
    if here {
        out.extend_from_slice(port_number(list, word))?;
    } else {
        out.extend_from_slice(word)?;
    }
    out.extend_from_slice(end)
}

/// A text of ovs-ofctl with the numbers of ports in place of their names, as `ovs-ofctl dump-ports-desc` lists them. Each line keeps its place.
/// A name that is not in the list stays.
pub fn with_port_numbers(alloc: Global, list: &[u8], text: &[u8]) -> Result<Vec<u8>, AllocError>
    ensures { IfOk result (λ numbered. numbered.items ≡ with_numbers (lines_of list.now) false (tokens false text.now)) }
{
    let mut out = Vec::new(alloc);
    let mut here = false;
    let mut rest = text;
    while !rest.is_empty() {
        let (word, end, after) = cut_token(rest);
        rest = after;
        push_token(&mut out, list, here, word, end)?;
        here = comes_before_port(word, end);
    }
    Ok(out)
}
