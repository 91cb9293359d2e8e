//! What `import --json` answers.
ghost use Rattle.std.specs.Prelude.{◌≡◌, Some, None, false, IfOk, IfErr};
ghost use Rattle.of_text.specs.Lines.{lines_of};
ghost use Rattle.of_import.specs.declared.import.ImportError.TheVariants.{NoMemory};
ghost use Rattle.of_import_report.specs.Json.{import_json, is_memory, lines_left_out as left_out_of, no_import_json, refused_json};
ghost use Rattle.of_import_report.specs.Answers.{IsAnswer};

use crate::document::{import_document, left_out, refused_document};
use of_import::{Import, ImportError, LineFaults, LineRefusal, import_tables};
use of_ovs_lines::Mode;
use std::alloc::Global;

/// What is answered about a table.
#[derive(Drop)]
pub struct Answer {
    /// A document in one line (docs/JSON.md).
    pub json: Vec<u8>,
    /// How many lines are left out or lose an action; None if there is no import.
    pub left_out: Option<u128>,
}

fn answer_on(alloc: Global, done: &Import) -> Result<Answer, ImportError>
    ensures json { IfOk result (λ answer. answer.json.items ≡
        import_json done.now.text.items done.now.faults.items done.now.kept done.now.moves.items done.now.changed) }
    ensures left { IfOk result (λ answer. answer.left_out ≡ Some (left_out_of done.now.faults.items done.now.kept.refused.items done.now.changed)) }
    ensures failed { IfErr result (λ e. e ≡ NoMemory) }
{
    Ok(Answer {
        json: import_document(alloc, done)?,
        left_out: Some(left_out(&done.faults, &done.kept.refused, done.changed)),
    })
}

fn answer_about(
    alloc: Global,
    faults: &[LineFaults],
    refused: &[LineRefusal],
    count: Option<u8>,
) -> Result<Answer, ImportError>
    ensures json { IfOk result (λ answer. answer.json.items ≡ refused_json faults.now refused.now count) }
    ensures left { IfOk result (λ answer. answer.left_out ≡ None) }
    ensures failed { IfErr result (λ e. e ≡ NoMemory) }
{
    Ok(Answer {
        json: refused_document(alloc, faults, refused, count)?,
        left_out: None,
    })
}

#[tactic(auto, unfolding(crate::specs::Json::no_import_json))]
fn answer_without(alloc: Global, error: &ImportError) -> Result<Answer, ImportError>
    ensures json { IfOk result (λ answer. answer.json.items ≡ no_import_json error.now) }
    ensures left { IfOk result (λ answer. answer.left_out ≡ None) }
    ensures memory { IfOk result (λ _. is_memory error.now ≡ false) }
    ensures failed { IfErr result (λ e. e ≡ NoMemory) }
{
    match error {
        ImportError::NoMemory => Err(ImportError::NoMemory),
        ImportError::Faults(faults, refused) => answer_about(alloc, faults, refused, None),
        ImportError::Refused { line, code } => answer_about(
            alloc,
            &[],
            &[LineRefusal {
                line: *line,
                code: *code,
            }],
            None,
        ),
        ImportError::TooMany(count) => answer_about(alloc, &[], &[], Some(*count)),
    }
}

/// The import of a table (`import_tables`) as a JSON document, or why there is none; Err if memory ran out.
pub fn import_as_json(alloc: Global, text: &[u8], mode: Mode) -> Result<Answer, ImportError>
    ensures answer { IfOk result (λ answer. IsAnswer (lines_of text.now) mode answer.json.items answer.left_out) }
    ensures failed { IfErr result (λ e. e ≡ NoMemory) }
{
    match import_tables(alloc, text, mode) {
        Ok(done) => answer_on(alloc, &done),
        Err(error) => answer_without(alloc, &error),
    }
}
