//! Lines that are refused, as JSON.
ghost use Rattle.std.specs.{Prelude.◌≡◌, Prelude.◌++◌, Prelude.codes, Prelude.OnOk, Option.option_map};
ghost use Rattle.of_json.specs.{Parts.listed, Strings.array_member};
ghost use Rattle.of_wire.specs.CodeNames.{error_name};
ghost use Rattle.of_import_report.specs.Json.{error_member, fault_object, help_member, keyword_object, import_line_member, refusal_object, refused_members, word_object};
ghost use Rattle.of_import_report.specs.{Keywords.keywords_in, Views.view_names};

use crate::help::{help_of, reason_of};
use crate::keywords::{count_lines_with, keywords};
use of_import::{LineFaults, LineRefusal};
use of_json::{
    begin_array, push_array_member, push_key, push_listed, push_number_member, push_string,
    push_string_member, push_text_member,
};
use of_ovs_lines::WordFault;
use of_values::push_decimal;
use of_wire::Code;
use std::alloc::{AllocError, Global};

/// Appends the first member of an object: a line.
#[tactic(auto, unfolding(crate::specs::Json::import_line_member))]
pub fn push_line_member(out: &mut Vec<u8>, line: usize) -> Result<(), AllocError>
    ensures { OnOk result (out.new.items ≡ out.old.items ++ import_line_member line) }
{
    push_key(out, b"line")?;
    push_decimal(out, line as u128)
}

fn push_help_member(out: &mut Vec<u8>, help: &[u8]) -> Result<(), AllocError>
    ensures { OnOk result (out.new.items ≡ out.old.items ++ help_member help.now) }
{
    if help.is_empty() {
        Ok(())
    } else {
        push_string_member(out, b"help", help)
    }
}

// Appends a word, why it is refused, and what helps.
#[tactic(auto, unfolding(crate::specs::Json::word_object))]
fn push_word(out: &mut Vec<u8>, fault: &WordFault) -> Result<(), AllocError>
    ensures { OnOk result (out.new.items ≡ out.old.items ++ word_object fault.now) }
{
    out.push(b'{')?;
    push_key(out, b"word")?;
    push_string(out, &fault.word)?;
    push_text_member(out, b"why", reason_of(fault))?;
    let help = help_of(*out.allocator(), fault)?;
    push_help_member(out, &help)?;
    out.push(b'}')?;
    Ok(())
}

// Appends a line with words that are refused.
#[tactic(auto, unfolding(crate::specs::Json::fault_object))]
fn push_fault_object(out: &mut Vec<u8>, line: &LineFaults) -> Result<(), AllocError>
    ensures { OnOk result (out.new.items ≡ out.old.items ++ fault_object line.now) }
{
    out.push(b'{')?;
    push_line_member(out, line.line)?;
    push_array_member(out, b"words", &line.faults, push_word)?;
    out.push(b'}')?;
    Ok(())
}

// Appends the name of an error, if the standard names it.
fn push_error_name(out: &mut Vec<u8>, name: Option<&[u8]>) -> Result<(), AllocError>
    ensures { OnOk result (out.new.items ≡ out.old.items ++ error_member (option_map (λ n. n.now) name.entry)) }
{
    match name {
        None => Ok(()),
        Some(name) => push_text_member(out, b"error", name),
    }
}

fn push_error_member(out: &mut Vec<u8>, code: Code) -> Result<(), AllocError>
    ensures { OnOk result (out.new.items ≡ out.old.items ++ error_member (error_name code.kind code.code)) }
{
    push_error_name(out, code.name())
}

// Appends a line that the switch refuses.
#[tactic(auto, unfolding(crate::specs::Json::refusal_object))]
fn push_refusal_object(out: &mut Vec<u8>, it: &LineRefusal) -> Result<(), AllocError>
    ensures { OnOk result (out.new.items ≡ out.old.items ++ refusal_object it.now) }
{
    out.push(b'{')?;
    push_line_member(out, it.line)?;
    push_number_member(out, b"type", u128::from(it.code.kind))?;
    push_number_member(out, b"code", u128::from(it.code.code))?;
    push_error_member(out, it.code)?;
    out.push(b'}')?;
    Ok(())
}

// Appends a keyword, and how many lines have it.
#[tactic(auto, unfolding(crate::specs::Json::keyword_object))]
fn push_keyword(out: &mut Vec<u8>, faults: &[LineFaults], name: &[u8]) -> Result<(), AllocError>
    ensures { OnOk result (out.new.items ≡ out.old.items ++ keyword_object faults.now name.now) }
{
    out.push(b'{')?;
    push_key(out, b"keyword")?;
    push_string(out, name)?;
    push_number_member(out, b"lines", count_lines_with(faults, name) as u128)?;
    out.push(b'}')?;
    Ok(())
}

fn push_keywords(
    out: &mut Vec<u8>,
    faults: &[LineFaults],
    names: &[Vec<u8>],
) -> Result<(), AllocError>
    ensures { OnOk result (out.new.items ≡ out.old.items ++ listed (keyword_object faults.now) (view_names names.now)) }
{
    push_listed(out, names, |out, name| push_keyword(out, faults, name))
}

fn push_keywords_of(
    alloc: Global,
    out: &mut Vec<u8>,
    faults: &[LineFaults],
) -> Result<(), AllocError>
    ensures { OnOk result (out.new.items ≡ out.old.items ++ listed (keyword_object faults.now) (keywords_in faults.now)) }
{
    let names = keywords(alloc, faults)?;
    push_keywords(out, faults, &names)
}

fn push_faults_array(out: &mut Vec<u8>, faults: &[LineFaults]) -> Result<(), AllocError>
    ensures { OnOk result (out.new.items ≡ out.old.items ++ array_member (codes "faults") (listed fault_object faults.now)) }
{
    push_array_member(out, b"faults", faults, push_fault_object)
}

fn push_refused_array(out: &mut Vec<u8>, refused: &[LineRefusal]) -> Result<(), AllocError>
    ensures { OnOk result (out.new.items ≡ out.old.items ++ array_member (codes "refused") (listed refusal_object refused.now)) }
{
    push_array_member(out, b"refused", refused, push_refusal_object)
}

#[tactic(auto, unfolding(of_json::specs::Strings::array_member))]
fn push_keywords_array(
    alloc: Global,
    out: &mut Vec<u8>,
    faults: &[LineFaults],
) -> Result<(), AllocError>
    ensures { OnOk result (out.new.items ≡ out.old.items ++ array_member (codes "keywords") (listed (keyword_object faults.now) (keywords_in faults.now))) }
{
    begin_array(out, b"keywords")?;
    push_keywords_of(alloc, out, faults)?;
    out.push(b']')?;
    Ok(())
}

/// Appends the lines that are refused, and their keywords.
#[tactic(auto, unfolding(crate::specs::Json::refused_members))]
pub fn push_refused_members(
    alloc: Global,
    out: &mut Vec<u8>,
    faults: &[LineFaults],
    refused: &[LineRefusal],
) -> Result<(), AllocError>
    ensures { OnOk result (out.new.items ≡ out.old.items ++ refused_members faults.now refused.now) }
{
    push_faults_array(out, faults)?;
    push_refused_array(out, refused)?;
    push_keywords_array(alloc, out, faults)
}
