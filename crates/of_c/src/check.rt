//! Reports on flow tables.
ghost use Rattle.std.specs.Prelude.{◌≡◌, [], None, IfErr, IfOk};
ghost use Rattle.of_files.specs.Switches.{AreFlowsOf, HasNoContents, DescribesSwitch, view_contents, whole_mode};
ghost use Rattle.of_files.specs.Contents.{content_of};
ghost use Rattle.of_c.specs.{Answers.AreTablesOf, Answers.Gives, Calls.IsChecked, Calls.report_form as form_for, Calls.status_of_found as status_for};

use crate::answer::{Answer, Outcome, give, sink, unread};
use crate::switch::Lookups;
use crate::trace::status_with;
use of_files::{
    Contents, FileSwitch, NoContents, PortList, WHOLE, file_ports, file_switch, read_contents,
};
use of_replay::memory::MemorySink;
use of_replay::{Ended, status};
use of_report::{Form, write_report};
use std::alloc::{AllocError, Global};

/// A switch with its flow entries, and the ports that are named and that it does not have.
#[derive(Drop)]
pub struct Tables {
    pub of: FileSwitch<Lookups>,
    pub missing: Vec<u32>,
}

/// How a report is written.
pub fn form_of(words: bool) -> Form
    ensures { result ≡ form_for words }
{
    if words { Form::Findings } else { Form::Json }
}

fn tables_of(alloc: Global, contents: Contents<Lookups>) -> Result<Tables, AllocError>
    ensures described { IfOk result (λ t. DescribesSwitch None (view_contents contents) t.of.switch t.missing.items) }
    ensures flows { IfOk result (λ t. AreFlowsOf (view_contents contents) t.of.tables) }
{
    let PortList { ports, missing } = file_ports(alloc, &None, &contents)?;
    let of = file_switch(alloc, contents, &ports)?;
    Ok(Tables { of, missing })
}

fn read_tables(alloc: Global, file: &[u8]) -> Result<Tables, NoContents>
    ensures tables { IfOk result (λ t. AreTablesOf file.now t.of.switch t.missing.items t.of.tables) }
    ensures failed { IfErr result (HasNoContents whole_mode None (content_of file.now) file.now) }
{
    let contents = read_contents(alloc, file, None, None, WHOLE)?;
    match tables_of(alloc, contents) {
        Ok(tables) => Ok(tables),
        Err(_) => Err(NoContents::Ended(Ended::NoMemory)),
    }
}

fn status_of_found(found: &Result<bool, Ended>) -> u8
    ensures { result ≡ status_for found.now }
{
    match found {
        Ok(true) => 4,
        Ok(false) => 0,
        Err(ended) => status(ended),
    }
}

fn reported(alloc: Global, file: &[u8], steps: usize, words: bool, out: &mut MemorySink) -> Outcome
    requires fresh { out.old.bytes.items ≡ [] }
    requires well { out.old.failures ≡ 0 }
    ensures { IsChecked file.now steps words result.status result.line out.new.bytes.items }
{
    match read_tables(alloc, file) {
        Ok(found) => {
            let FileSwitch { switch, tables } = &found.of;
            let result = write_report(
                alloc,
                switch,
                &tables.config,
                &tables.origins,
                steps,
                form_of(words),
                false,
                &[],
                out,
            );
            Outcome {
                status: status_with(&found.missing, status_of_found(&result)),
                line: 0,
            }
        }
        Err(why) => unread(&why),
    }
}

/// The report on the flow tables of a file, as `check --json` gives it (docs/JSON.md), or in the words of `check`: which entries never win, with what
/// shadows them, and remarks.
/// The search for each entry takes so many steps at most.
///
/// Status 4: something is found. 5: ports are named that the switch does not have. 2: the file is at fault, and there is no text. 3: memory ran out.
#[unsafe(no_mangle)]
pub extern "C" fn ofswitch_check(
    alloc: Global,
    file: &[u8],
    steps: usize,
    words: bool,
    text: &mut [u8],
    answer: &mut Answer,
)
    ensures { Gives (IsChecked file.now steps words) answer.new text.old text.new }
{
    let mut out = sink(alloc);
    let outcome = reported(alloc, file, steps, words, &mut out);
    give(out.bytes(), outcome, text, answer);
}
