//! Requirements of the switch of a file.
ghost use Rattle.std.specs.Prelude.{◌≡◌, ◌++◌, [], IfErr, IfOk, OnOk};
ghost use Rattle.std.specs.List.{flat_map};
ghost use Rattle.of_files.specs.Switches.{AreFlowsOf, HasNoContents, ports_named, view_contents, whole_mode};
ghost use Rattle.of_files.specs.{Contents.content_of, NamedPorts.named_by_field, NamedPorts.ports_with};
ghost use Rattle.of_c.specs.Requiring.{AreAnswered, AreTablesWith, DescribesWith, IsRequired, further_text, line_of_refused, missing_with, named_by_line, named_by_place, places_demanded as places_in, status_of_both as status_for, status_of_refused};
ghost use Rattle.of_c.specs.Answers.{Gives};

use crate::answer::{Answer, BAD_FILE, NO_MEMORY, Outcome, give, sink, unread};
use crate::check::{Tables, form_of};
use crate::switch::Lookups;
use crate::trace::status_with;
use of_files::{
    Contents, FileSwitch, NoContents, PortList, WHOLE, file_switch, missing_ports, port_list,
    push_named, push_required_port, read_contents,
};
use of_oxm::MatchField;
use of_paths::Destination;
use of_replay::memory::MemorySink;
use of_replay::{Ended, status};
use of_report::write_report;
use of_require::{
    Demand, Line, NoRequirement, NoRequirements, Verdict, answer_all, read_requirements,
    requirements_as_json, requirements_in_words, worst,
};
use of_values::push_each;
use std::alloc::{AllocError, Global};

const OUT_OF_MEMORY: Outcome = Outcome {
    status: NO_MEMORY,
    line: 0,
};

fn places_of(demand: &Demand) -> &[Destination]
    ensures { result.now ≡ places_in demand.now }
{
    match demand {
        Demand::LeavesBy(places) | Demand::LeavesOnlyBy(places) | Demand::Has { places, .. } => {
            places
        }
        Demand::PassesTable(_) => &[],
    }
}

fn push_place(ports: &mut Vec<u32>, place: &Destination) -> Result<(), AllocError>
    ensures { OnOk result (ports.new.items ≡ ports.old.items ++ named_by_place place.now) }
{
    if let Destination::Port(port) = place {
        ports.push(*port)?;
    }
    Ok(())
}

fn push_within(ports: &mut Vec<u32>, within: &[MatchField]) -> Result<(), AllocError>
    ensures { OnOk result (ports.new.items ≡ ports.old.items ++ flat_map named_by_field within.now) }
{
    push_each(ports, within, |ports, field| {
        push_required_port(ports, field)
    })
}

fn push_line(ports: &mut Vec<u32>, line: &Line) -> Result<(), AllocError>
    ensures { OnOk result (ports.new.items ≡ ports.old.items ++ named_by_line line.now) }
{
    push_within(ports, &line.requirement.within)?;
    push_each(ports, places_of(&line.requirement.demand), push_place)
}

// The ports that requirements name.
fn ports_required(alloc: Global, lines: &[Line]) -> Result<Vec<u32>, AllocError>
    ensures { IfOk result (λ ports. ports.items ≡ flat_map named_by_line lines.now) }
{
    let mut ports = Vec::new(alloc);
    for line in lines {
        push_line(&mut ports, line)?;
    }
    Ok(ports)
}

// The ports of a switch of which requirements name these.
fn ports_with_required(
    alloc: Global,
    contents: &Contents<Lookups>,
    required: &[u32],
) -> Result<PortList, AllocError>
    ensures ports { IfOk result (λ list. list.ports.items ≡ ports_with (ports_named (view_contents contents.now) ++ required.now)) }
    ensures missing { IfOk result (λ list. list.missing.items ≡ missing_with required.now (view_contents contents.now)) }
{
    let mut named = Vec::new(alloc);
    push_named(alloc, &mut named, contents)?;
    let own = named.to_vec(alloc)?;
    named.extend_from_slice(required)?;
    let mut list = port_list(alloc, &None, &named)?;
    if let Contents::Events(_) = contents {
        list.missing = missing_ports(alloc, required, &own)?;
    }
    Ok(list)
}

fn tables_of(
    alloc: Global,
    contents: Contents<Lookups>,
    lines: &[Line],
) -> Result<Tables, AllocError>
    ensures described { IfOk result (λ t. DescribesWith (flat_map named_by_line lines.now) (view_contents contents) t.of.switch t.missing.items) }
    ensures flows { IfOk result (λ t. AreFlowsOf (view_contents contents) t.of.tables) }
{
    let required = ports_required(alloc, lines)?;
    let PortList { ports, missing } = ports_with_required(alloc, &contents, &required)?;
    let of = file_switch(alloc, contents, &ports)?;
    Ok(Tables { of, missing })
}

fn read_tables(alloc: Global, file: &[u8], lines: &[Line]) -> Result<Tables, NoContents>
    ensures tables { IfOk result (λ t. AreTablesWith (flat_map named_by_line lines.now) file.now t.of.switch t.missing.items t.of.tables) }
    ensures failed { IfErr result (HasNoContents whole_mode None (content_of file.now) file.now) }
{
    let contents = read_contents(alloc, file, None, None, WHOLE)?;
    match tables_of(alloc, contents, lines) {
        Ok(tables) => Ok(tables),
        Err(_) => Err(NoContents::Ended(Ended::NoMemory)),
    }
}

fn further_of(
    alloc: Global,
    words: bool,
    answers: &[of_require::Answer],
) -> Result<Vec<u8>, AllocError>
    ensures { IfOk result (λ text. text.items ≡ further_text words answers.now) }
{
    if words {
        requirements_in_words(alloc, false, answers)
    } else {
        requirements_as_json(alloc, answers)
    }
}

fn status_of_both(found: &Result<bool, Ended>, verdict: Verdict) -> u8
    ensures { result ≡ status_for found.now verdict }
{
    match (found, verdict) {
        (Err(ended), _) => status(ended),
        (Ok(true), _) | (Ok(false), Verdict::Fails) => 4,
        (Ok(false), Verdict::Undecided) => 5,
        (Ok(false), Verdict::Holds) => 0,
    }
}

// The report on a switch, and on these requirements.
fn report_on(
    alloc: Global,
    found: &Tables,
    lines: Vec<Line>,
    steps: usize,
    words: bool,
    out: &mut MemorySink,
) -> Outcome
    requires fresh { out.old.bytes.items ≡ [] }
    requires well { out.old.failures ≡ 0 }
    ensures { AreAnswered found.now.of.switch found.now.of.tables found.now.missing.items lines.items steps words result.status result.line
        out.new.bytes.items }
{
    let FileSwitch { switch, tables } = &found.of;
    let Ok(answers) = answer_all(alloc, switch.datapath(), lines, steps) else {
        return OUT_OF_MEMORY;
    };
    let Ok(further) = further_of(alloc, words, &answers) else {
        return OUT_OF_MEMORY;
    };
    let result = write_report(
        alloc,
        switch,
        &tables.config,
        &tables.origins,
        steps,
        form_of(words),
        false,
        &further,
        out,
    );
    Outcome {
        status: status_with(&found.missing, status_of_both(&result, worst(&answers))),
        line: 0,
    }
}

// Why a text has no requirements.
fn refused(why: &NoRequirements) -> Outcome
    ensures status { result.status ≡ status_of_refused why.now }
    ensures line { result.line ≡ line_of_refused why.now }
{
    match &why.why {
        NoRequirement::NoMemory => OUT_OF_MEMORY,
        NoRequirement::Refused(_) => Outcome {
            status: BAD_FILE,
            line: why.line as u64,
        },
    }
}

fn reported(
    alloc: Global,
    file: &[u8],
    requirements: &[u8],
    steps: usize,
    words: bool,
    out: &mut MemorySink,
) -> Outcome
    requires fresh { out.old.bytes.items ≡ [] }
    requires well { out.old.failures ≡ 0 }
    ensures { IsRequired file.now requirements.now steps words result.status result.line out.new.bytes.items }
{
    let lines = match read_requirements(alloc, requirements) {
        Ok(lines) => lines,
        Err(why) => return refused(&why),
    };
    match read_tables(alloc, file, &lines) {
        Ok(found) => report_on(alloc, &found, lines, steps, words, out),
        Err(why) => unread(&why),
    }
}

/// The report on the flow tables of a file and on requirements of its switch (docs/REQUIRE.md), as `check --require --json` gives it (docs/JSON.md), or in
/// the words of `check --require`. Each search for a frame takes so many steps at most, and the runs of all frames as many together.
///
/// Status 4: something is found, or a requirement fails. 5: one is undecided, or ports are named that the switch does not have. 2: a line of the
/// requirements, which are read first, or of the file is at fault, and there is no text. 3: memory ran out.
#[unsafe(no_mangle)]
pub extern "C" fn ofswitch_require(
    alloc: Global,
    file: &[u8],
    requirements: &[u8],
    steps: usize,
    words: bool,
    text: &mut [u8],
    answer: &mut Answer,
)
    ensures { Gives (IsRequired file.now requirements.now steps words) answer.new text.old text.new }
{
    let mut out = sink(alloc);
    let outcome = reported(alloc, file, requirements, steps, words, &mut out);
    give(out.bytes(), outcome, text, answer);
}
