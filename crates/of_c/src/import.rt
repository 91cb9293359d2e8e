//! Tables of Open vSwitch.
ghost use Rattle.std.specs.Prelude.{◌≡◌};
ghost use Rattle.of_c.specs.{Answers.Gives, Calls.IsImported, Calls.status_of_left_out as status_for};

use crate::answer::{Answer, NO_MEMORY, Outcome, give};
use of_import_report::import_as_json;
use of_ovs_lines::Mode;
use std::alloc::Global;

fn status_of_left_out(left_out: Option<u128>) -> u8
    ensures { result ≡ status_for left_out }
{
    match left_out {
        None => 2,
        Some(count) => { if count == 0 { 0 } else { 4 } }
    }
}

/// A table that ovs-ofctl prints or reads, as `import --json` gives it (docs/JSON.md): its flow text and its flows, or the lines that are refused.
///
/// With `skip`, lines and actions that cannot be imported are left out; with `renumber`, tables get the numbers 0 to 15. Status 4: some are left
/// out. 2: lines are refused, and the document says which. 3: memory ran out, and there is no text.
#[unsafe(no_mangle)]
pub extern "C" fn ofswitch_import(
    alloc: Global,
    table: &[u8],
    skip: bool,
    renumber: bool,
    text: &mut [u8],
    answer: &mut Answer,
)
    ensures { Gives (IsImported table.now (record { skip = skip; renumber = renumber })) answer.new text.old text.new }
{
    match import_as_json(alloc, table, Mode { skip, renumber }) {
        Ok(found) => {
            let status = status_of_left_out(found.left_out);
            give(&found.json, Outcome { status, line: 0 }, text, answer);
        }
        Err(_) => {
            let status = NO_MEMORY;
            give(&[], Outcome { status, line: 0 }, text, answer);
        }
    }
}
