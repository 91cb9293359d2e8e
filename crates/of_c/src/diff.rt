//! Differences of two switches.
ghost use Rattle.std.specs.Prelude.{◌≡◌, [], IfErr, IfOk};
ghost use Rattle.of_files.specs.Switches.{view_contents};
ghost use Rattle.of_c.specs.Answers.{AreBetween, AreSwitchesOf, Gives, LacksSwitch};
ghost use Rattle.of_c.specs.Calls.{IsCompared, compared_of as compared_for, diff_form as form_for, status_of_difference as status_for};

use crate::answer::{Answer, Outcome, give, sink, unread};
use crate::switch::Lookups;
use of_alike::Compared;
use of_diff_report::{DiffForm, DiffSide, DiffVerdict, FileFlows, write_differences};
use of_files::{Contents, FileSwitch, NoContents, WHOLE, both_ports, file_switch, read_contents};
use of_replay::memory::MemorySink;
use of_replay::{Ended, status};
use std::alloc::{AllocError, Global};

/// The switches of two files, and the ports that the files name and that they do not have.
#[derive(Drop)]
struct Switches {
    first: FileSwitch<Lookups>,
    second: FileSwitch<Lookups>,
    missing: Vec<u32>,
}

fn switches_of(
    alloc: Global,
    first: Contents<Lookups>,
    second: Contents<Lookups>,
) -> Result<Switches, AllocError>
    ensures { IfOk result (λ s.
        AreBetween (view_contents first) (view_contents second) s.first.switch s.second.switch s.first.tables s.second.tables s.missing.items) }
{
    let list = both_ports(alloc, &None, &first, &second)?;
    let first = file_switch(alloc, first, &list.ports)?;
    let second = file_switch(alloc, second, &list.ports)?;
    Ok(Switches {
        first,
        second,
        missing: list.missing,
    })
}

fn read_switches(alloc: Global, first: &[u8], second: &[u8]) -> Result<Switches, NoContents>
    ensures switches { IfOk result (λ s. AreSwitchesOf first.now second.now s.first.switch s.second.switch s.first.tables s.second.tables s.missing.items) }
    ensures failed { IfErr result (LacksSwitch first.now second.now) }
{
    let first = read_contents(alloc, first, None, None, WHOLE)?;
    let second = read_contents(alloc, second, None, None, WHOLE)?;
    match switches_of(alloc, first, second) {
        Ok(switches) => Ok(switches),
        Err(_) => Err(NoContents::Ended(Ended::NoMemory)),
    }
}

fn compared_of(frames: bool) -> Compared
    ensures { result ≡ compared_for frames }
{
    if frames {
        Compared::Frames
    } else {
        Compared::All
    }
}

fn form_of(words: bool) -> DiffForm
    ensures { result ≡ form_for words }
{
    if words {
        DiffForm::Words
    } else {
        DiffForm::Json
    }
}

fn status_of_difference(found: &Result<DiffVerdict, Ended>) -> u8
    ensures { result ≡ status_for found.now }
{
    match found {
        Ok(DiffVerdict::Same) => 0,
        Ok(DiffVerdict::Differs | DiffVerdict::OtherPorts) => 4,
        Ok(DiffVerdict::Undecided) => 5,
        Err(ended) => status(ended),
    }
}

fn side_of(of: &FileSwitch<Lookups>) -> DiffSide<'_, Lookups>
    ensures switch { result.switch.now ≡ of.now.switch }
    ensures config { result.flows.config.now ≡ of.now.tables.config }
    ensures origins { result.flows.origins.now ≡ of.now.tables.origins.items }
{
    DiffSide {
        flows: FileFlows {
            config: &of.tables.config,
            origins: &of.tables.origins,
        },
        switch: &of.switch,
    }
}

fn reported(
    alloc: Global,
    first: &[u8],
    second: &[u8],
    frames: bool,
    steps: usize,
    words: bool,
    out: &mut MemorySink,
) -> Outcome
    requires fresh { out.old.bytes.items ≡ [] }
    requires well { out.old.failures ≡ 0 }
    ensures { IsCompared first.now second.now (compared_for frames) steps words result.status result.line out.new.bytes.items }
{
    match read_switches(alloc, first, second) {
        Ok(found) => {
            let result = write_differences(
                alloc,
                &side_of(&found.first),
                &side_of(&found.second),
                &found.missing,
                compared_of(frames),
                steps,
                form_of(words),
                out,
            );
            Outcome {
                status: status_of_difference(&result),
                line: 0,
            }
        }
        Err(why) => unread(&why),
    }
}

/// Which frames the switches of two files treat differently, as `diff --json` gives it (docs/JSON.md), or in the words of `diff`: the frames that leave,
/// and unless `frames` is given also the packets to the controller. The runs of all frames take so many steps together at most, and each search for a
/// frame as many.
///
/// Status 0: they treat all frames alike. 4: they do not, or their ports differ. 5: no difference is found, but it is not known of all frames. 2: a file
/// is at fault, and there is no text: the line is that of the first file that is. 3: memory ran out.
#[unsafe(no_mangle)]
pub extern "C" fn ofswitch_diff(
    alloc: Global,
    first: &[u8],
    second: &[u8],
    frames: bool,
    steps: usize,
    words: bool,
    text: &mut [u8],
    answer: &mut Answer,
)
    ensures { Gives (IsCompared first.now second.now (compared_for frames) steps words) answer.new text.old text.new }
{
    let mut out = sink(alloc);
    let outcome = reported(alloc, first, second, frames, steps, words, &mut out);
    give(out.bytes(), outcome, text, answer);
}
