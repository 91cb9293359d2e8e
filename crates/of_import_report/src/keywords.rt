//! Which keywords are refused, and in how many lines.
ghost use Rattle.std.specs.{Prelude.◌≡◌, Prelude.map, Prelude.IfOk, Prelude.OnOk, List.fold, List.list_any, Str.bytes_eq};
ghost use Rattle.of_import_report.specs.Keywords.{has_keyword, keyword_of_fault as keyword_of, keywords_in, lines_with, with_keyword, keywords_with_line};
ghost use Rattle.of_import_report.specs.Views.{view_names};

use of_import::{LineFaults, name_of};
use of_ovs_lines::WordFault;
use std::alloc::{AllocError, Global};

fn keyword(fault: &WordFault) -> &[u8]
    ensures { result.now ≡ keyword_of fault.now }
{
    name_of(&fault.word)
}

fn is_among(names: &[Vec<u8>], name: &[u8]) -> bool
    ensures { result ≡ list_any (λ other. bytes_eq other.items name.now) names.now }
{
    names.iter().any(|other| other.as_slice() == name)
}

fn copy_name(alloc: Global, name: &[u8]) -> Result<Vec<u8>, AllocError>
    ensures { IfOk result (λ copy. copy.items ≡ name.now) }
{
    let mut copy = Vec::new(alloc);
    copy.extend_from_slice(name)?;
    Ok(copy)
}

// Adds the keyword of a fault, if it is not there.
fn add_keyword(alloc: Global, names: &mut Vec<Vec<u8>>, fault: &WordFault) -> Result<(), AllocError>
    ensures { OnOk result (view_names names.new.items ≡ with_keyword (view_names names.old.items) fault.now) }
{
    let name = keyword(fault);
    if is_among(names, name) {
        return Ok(());
    }
    names.push(copy_name(alloc, name)?)?;
    Ok(())
}

// Adds the keywords of a line.
fn add_line(alloc: Global, names: &mut Vec<Vec<u8>>, line: &LineFaults) -> Result<(), AllocError>
    ensures { OnOk result (view_names names.new.items ≡ keywords_with_line (view_names names.old.items) line.now) }
{
    for fault in line.faults.iter() {
        add_keyword(alloc, names, fault)?;
    }
    Ok(())
}

/// Each keyword once, in the order of the lines.
#[tactic(auto, unfolding(crate::specs::Keywords::keywords_in))]
pub fn keywords(alloc: Global, faults: &[LineFaults]) -> Result<Vec<Vec<u8>>, AllocError>
    ensures { IfOk result (λ names. view_names names.items ≡ keywords_in faults.now) }
{
    let mut names = Vec::new(alloc);
    for line in faults {
        add_line(alloc, &mut names, line)?;
    }
    Ok(names)
}

fn has(line: &LineFaults, name: &[u8]) -> bool
    ensures { result ≡ has_keyword name.now line.now }
{
    line.faults.iter().any(|fault| keyword(fault) == name)
}

/// How many lines have a keyword.
#[tactic(auto, unfolding(crate::specs::Keywords::lines_with))]
pub fn count_lines_with(faults: &[LineFaults], name: &[u8]) -> usize
    ensures { result ≡ lines_with faults.now name.now }
{
    faults.iter().filter(|line| has(line, name)).count()
}
