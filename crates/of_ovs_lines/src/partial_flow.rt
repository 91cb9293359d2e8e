//! The meaning of the words of a line for a flow.
ghost use Rattle.std.specs.Prelude.{◌≡◌, ◌≤◌, ◌<◌, ◌^◌, ◌++◌, ◌∷◌, [], map, IfOk, IfErr, OnOk, Ok};
ghost use Rattle.of_ovs_lines.specs.PartialFlows.{without_value as alone_word, begins_actions as begins_actions_so, with_first_action, blank, with_flag as head_with_flag, with_counter, head_after, is_counter as is_counter_name, later_table as later_table_of, may_be_left as may_be_left_out, may_follow as may_follow_so, is_such_port as is_such_port_name, with_action_word, with_applied, with_instruction, mask_of_metadata as metadata_mask_of, metadata_and_mask_in as metadata_of, table_in as table_of, with_flow_word as flow_with_word, with_flow_action, with_head_word, with_other_word, with_write};
ghost use Rattle.of_ovs_lines.specs.PartialFlowViews.{view_partial_flow, view_word_fault};
ghost use Rattle.of_ovs_words.specs.Stops.{IfRefused, Stops};

use crate::mode::Mode;
use crate::word_fault::WordFault;
use of_actions::Action;
use of_ovs_words::{
    ActionWord, FieldWord, HeadWord, Part, ProtocolWord, Stop, Verb, Why, name_of, numbered,
    push_action, push_actions, set_field, set_protocol, value_of,
};
use of_oxm::MatchField;
use of_text::{FlowHead, cut, is};
use of_wire::limits::TABLES;
use std::alloc::{AllocError, Global};

/// What the words of a line say of a flow, so far.
#[derive(Drop)]
pub struct PartialFlow {
    pub mode: Mode,
    pub head: FlowHead,
    pub settings: Vec<MatchField>,
    /// Whether the words are actions.
    pub in_actions: bool,
    pub apply: Vec<Action>,
    /// Whether the only action is `drop`.
    pub dropped: bool,
    pub clears: bool,
    pub writes: bool,
    pub write: Vec<Action>,
    /// A value and a mask.
    pub metadata: Option<(u64, u64)>,
    pub goto: Option<u8>,
    /// Which instruction came last: 0 actions that are applied, then in execution order.
    pub stage: u8,
    /// Actions that are left out.
    pub left: Vec<Vec<u8>>,
    /// Whether the table to go to is that of `resubmit`.
    pub resubmits: bool,
    /// What a dump counted of the flow, as words.
    pub counters: Vec<Vec<u8>>,
    pub faults: Vec<WordFault>,
}

/// OFP_DEFAULT_PRIORITY (OpenFlow 1.3.5, 7.3.4.1).
const DEFAULT_PRIORITY: u16 = 0x8000;

// With this bit of the flags.
fn with_flag(head: FlowHead, bit: u16, value: &[u8]) -> Result<FlowHead, Why>
    ensures { result ≡ head_with_flag head bit value.now }
{
    if value.is_empty() {
        Ok(FlowHead {
            flags: head.flags | bit,
            ..head
        })
    } else {
        Err(Why::Value)
    }
}

// A table that this switch has, or any if tables get other numbers.
fn table_in(mode: Mode, value: &[u8]) -> Result<u8, Why>
    ensures { result ≡ table_of mode value.now }
{
    let table = numbered(0x100, value)? as u8;
    if mode.renumber || table < TABLES {
        Ok(table)
    } else {
        Err(Why::Table)
    }
}

// The head after one more word.
#[tactic(auto, unfolding(crate::specs::PartialFlows::head_after))]
fn head_with(mode: Mode, head: FlowHead, part: Part, value: &[u8]) -> Result<FlowHead, Why>
    ensures { result ≡ head_after mode head part value.now }
{
    match part {
        Part::Cookie => Ok(FlowHead {
            cookie: numbered(0x1_0000_0000_0000_0000, value)? as u64,
            ..head
        }),
        Part::Table => Ok(FlowHead {
            table: table_in(mode, value)?,
            ..head
        }),
        Part::Priority => Ok(FlowHead {
            priority: numbered(0x1_0000, value)? as u16,
            ..head
        }),
        Part::Idle => Ok(FlowHead {
            idle: numbered(0x1_0000, value)? as u16,
            ..head
        }),
        Part::Hard => Ok(FlowHead {
            hard: numbered(0x1_0000, value)? as u16,
            ..head
        }),
        Part::Flag(bit) => with_flag(head, bit, value),
        Part::Passed => Ok(head),
        Part::Command => Err(Why::Command),
    }
}

fn metadata_mask(word: &[u8]) -> Result<u64, Why>
    ensures { result ≡ metadata_mask_of word.now }
{
    if word.is_empty() {
        return Ok(u64::MAX);
    }
    Ok(numbered(0x1_0000_0000_0000_0000, word)? as u64)
}

// VALUE or VALUE/MASK
fn metadata_in(value: &[u8]) -> Result<(u64, u64), Why>
    ensures { result ≡ metadata_of value.now }
{
    let (value, mask) = cut(value, b'/');
    let value = numbered(0x1_0000_0000_0000_0000, value)? as u64;
    let mask = metadata_mask(mask)?;
    Ok((value, mask))
}

fn alone(value: &[u8]) -> Result<(), Why>
    ensures { result ≡ alone_word value.now }
{
    if value.is_empty() {
        Ok(())
    } else {
        Err(Why::Unknown)
    }
}

// Whether the name is that of NORMAL or LOCAL.
fn is_such_port(text: &[u8]) -> bool
    ensures { result ≡ is_such_port_name text.now }
{
    text.eq_ignore_ascii_case(b"normal") || text.eq_ignore_ascii_case(b"local")
}

// Whether the word sends packets to NORMAL or LOCAL.
fn may_be_left(word: &[u8]) -> bool
    ensures { result ≡ may_be_left_out word.now }
{
    if is_such_port(word) {
        return true;
    }
    match ActionWord::named(name_of(word)) {
        Some(named) => matches!(named.verb, Verb::Output) && is_such_port(value_of(word)),
        None => false,
    }
}

// Whether it is what a dump says of the packets of a flow, or of its age.
fn is_counter(name: &[u8]) -> bool
    ensures { result ≡ is_counter_name name.now }
{
    is(name, b"duration") || is(name, b"n_packets") || is(name, b"n_bytes")
}

/// Whether the words after it are actions.
pub fn begins_actions(word: &[u8]) -> bool
    ensures { result ≡ begins_actions_so word.now }
{
    word.starts_with(b"actions=") || word.starts_with(b"action=")
}

impl PartialFlow {
    /// Nothing is said.
    pub fn blank(alloc: Global, mode: Mode) -> PartialFlow
        ensures { view_partial_flow result ≡ blank mode }
    {
        PartialFlow {
            mode,
            head: FlowHead {
                table: 0,
                priority: DEFAULT_PRIORITY,
                cookie: 0,
                idle: 0,
                hard: 0,
                flags: 0,
            },
            settings: Vec::new(alloc),
            in_actions: false,
            apply: Vec::new(alloc),
            dropped: false,
            clears: false,
            writes: false,
            write: Vec::new(alloc),
            metadata: None,
            goto: None,
            stage: 0,
            left: Vec::new(alloc),
            resubmits: false,
            counters: Vec::new(alloc),
            faults: Vec::new(alloc),
        }
    }

    // Whether the instruction of that place may come now.
    fn may_follow(&self, place: u8) -> Result<(), Why>
        ensures { result ≡ may_follow_so (view_partial_flow self.now) place }
    {
        if self.dropped {
            Err(Why::Alone)
        } else if place < self.stage {
            Err(Why::Order)
        } else if place == self.stage {
            Err(Why::Twice)
        } else {
            Ok(())
        }
    }

    // The table of resubmit(,TABLE), as that of GOTO_TABLE. No other instruction comes before this action.
    fn later_table(&self, value: &[u8]) -> Result<u8, Why>
        ensures { result ≡ later_table_of (view_partial_flow self.now) value.now }
    {
        if 0 < self.stage {
            return Err(Why::Order);
        }
        let (port, table) = cut(value, b',');
        if !port.is_empty() {
            return Err(Why::Backward);
        }
        let table = table_in(self.mode, table)?;
        if self.head.table < table {
            Ok(table)
        } else {
            Err(Why::Backward)
        }
    }

    // Leaves an action out.
    fn leave(&mut self, alloc: Global, word: &[u8]) -> Result<(), AllocError>
        ensures { OnOk result (view_partial_flow self.new ≡ record (view_partial_flow self.old) { left = (view_partial_flow self.old).left ++ word.now ∷ [] }) }
    {
        let word = word.to_vec(alloc)?;
        self.left.push(word)?;
        Ok(())
    }

    // An action that is applied.
    fn add_applied(&mut self, alloc: Global, word: &[u8]) -> Result<(), Stop>
        ensures added { IfOk result (λ _. with_applied (view_partial_flow self.old) word.now ≡ Ok (view_partial_flow self.new)) }
        ensures stopped { IfErr result (Stops (with_applied (view_partial_flow self.old) word.now)) }
        ensures same { IfErr result (IfRefused (view_partial_flow self.new ≡ view_partial_flow self.old)) }
    {
        if 0 < self.stage {
            return Err(Stop::Refused(Why::Order));
        }
        if self.mode.skip && may_be_left(word) {
            self.leave(alloc, word)?;
            return Ok(());
        }
        self.dropped = push_action(&self.settings, &[], self.dropped, &mut self.apply, word)?;
        Ok(())
    }

    fn add_write(&mut self, alloc: Global, value: &[u8]) -> Result<(), Stop>
        ensures added { IfOk result (λ _. with_write (view_partial_flow self.old) value.now ≡ Ok (view_partial_flow self.new)) }
        ensures stopped { IfErr result (Stops (with_write (view_partial_flow self.old) value.now)) }
        ensures same { IfErr result (IfRefused (view_partial_flow self.new ≡ view_partial_flow self.old)) }
    {
        self.may_follow(2)?;
        let mut write = Vec::new(alloc);
        push_actions(&self.settings, &self.apply, &mut write, value)?;
        // ovs-ofctl sends no WRITE_ACTIONS without actions
        self.writes = !write.is_empty();
        self.write = write;
        self.stage = 2;
        Ok(())
    }

    // An instruction, or else an action that is applied.
    #[tactic(auto, unfolding(crate::specs::PartialFlows::with_instruction))]
    fn add_instruction(&mut self, alloc: Global, verb: Verb, word: &[u8]) -> Result<(), Stop>
        ensures added { IfOk result (λ _. with_instruction (view_partial_flow self.old) verb word.now ≡ Ok (view_partial_flow self.new)) }
        ensures stopped { IfErr result (Stops (with_instruction (view_partial_flow self.old) verb word.now)) }
        ensures same { IfErr result (IfRefused (view_partial_flow self.new ≡ view_partial_flow self.old)) }
    {
        match verb {
            Verb::Write => self.add_write(alloc, value_of(word)),
            Verb::Clear => {
                self.may_follow(1)?;
                alone(value_of(word))?;
                self.clears = true;
                self.stage = 1;
                Ok(())
            }
            Verb::Metadata => {
                self.may_follow(3)?;
                self.metadata = Some(metadata_in(value_of(word))?);
                self.stage = 3;
                Ok(())
            }
            Verb::Goto => {
                self.may_follow(4)?;
                self.goto = Some(table_in(self.mode, value_of(word))?);
                self.stage = 4;
                Ok(())
            }
            Verb::Resubmit => {
                self.may_follow(4)?;
                self.goto = Some(self.later_table(value_of(word))?);
                self.resubmits = true;
                self.stage = 4;
                Ok(())
            }
            _ => self.add_applied(alloc, word),
        }
    }

    // A word of the actions.
    fn add_action(&mut self, alloc: Global, word: &[u8]) -> Result<(), Stop>
        ensures added { IfOk result (λ _. with_flow_action (view_partial_flow self.old) word.now ≡ Ok (view_partial_flow self.new)) }
        ensures stopped { IfErr result (Stops (with_flow_action (view_partial_flow self.old) word.now)) }
        ensures same { IfErr result (IfRefused (view_partial_flow self.new ≡ view_partial_flow self.old)) }
    {
        match ActionWord::named(name_of(word)) {
            Some(named) => self.add_instruction(alloc, named.verb, word),
            None => self.add_applied(alloc, word),
        }
    }

    // A word before the actions, by its name and its value.
    #[tactic(auto, unfolding(crate::specs::PartialFlows::with_head_word))]
    fn add_head_word(&mut self, name: &[u8], value: &[u8]) -> Result<(), Stop>
        ensures added { IfOk result (λ _. with_head_word (view_partial_flow self.old) name.now value.now ≡ Ok (view_partial_flow self.new)) }
        ensures stopped { IfErr result (Stops (with_head_word (view_partial_flow self.old) name.now value.now)) }
        ensures same { IfErr result (IfRefused (view_partial_flow self.new ≡ view_partial_flow self.old)) }
    {
        if let Some(word) = HeadWord::named(name) {
            self.head = head_with(self.mode, self.head, word.part, value)?;
            Ok(())
        } else if let Some(word) = ProtocolWord::named(name) {
            set_protocol(&mut self.settings, word, value)
        } else if let Some(word) = FieldWord::named(name) {
            set_field(&mut self.settings, word, value)
        } else {
            Err(Stop::Refused(Why::Unknown))
        }
    }

    // A word that is refused.
    fn refuse(&mut self, alloc: Global, word: &[u8], why: Why) -> Result<(), AllocError>
        ensures { OnOk result (view_partial_flow self.new ≡ record (view_partial_flow self.old)
            { faults = (view_partial_flow self.old).faults ++ record { word = word.now; why = why } ∷ [] }) }
    {
        let word = word.to_vec(alloc)?;
        self.faults.push(WordFault { word, why })?;
        Ok(())
    }

    // An action or an instruction, if it is one.
    fn add_action_word(&mut self, alloc: Global, word: &[u8]) -> Result<(), AllocError>
        ensures { OnOk result (view_partial_flow self.new ≡ with_action_word (view_partial_flow self.old) word.now) }
    {
        match self.add_action(alloc, word) {
            Ok(()) => Ok(()),
            Err(Stop::Refused(why)) => self.refuse(alloc, word, why),
            Err(Stop::NoMemory) => Err(AllocError),
        }
    }

    // The first word of the actions stands behind `actions=`.
    fn begin_actions(&mut self, alloc: Global, value: &[u8]) -> Result<(), AllocError>
        ensures { OnOk result (view_partial_flow self.new ≡ with_first_action (view_partial_flow self.old) value.now) }
    {
        self.in_actions = true;
        if value.is_empty() {
            Ok(())
        } else {
            self.add_action_word(alloc, value)
        }
    }

    // Keeps the word, if it is a counter.
    fn count(&mut self, alloc: Global, word: &[u8]) -> Result<(), AllocError>
        ensures { OnOk result (view_partial_flow self.new ≡ with_counter (view_partial_flow self.old) word.now) }
    {
        if is_counter(name_of(word)) {
            let word = word.to_vec(alloc)?;
            self.counters.push(word)?;
        }
        Ok(())
    }

    fn add_other_word(&mut self, alloc: Global, word: &[u8]) -> Result<(), AllocError>
        ensures { OnOk result (view_partial_flow self.new ≡ with_other_word (view_partial_flow self.old) word.now) }
    {
        match self.add_head_word(name_of(word), value_of(word)) {
            Ok(()) => Ok(()),
            Err(Stop::Refused(why)) => self.refuse(alloc, word, why),
            Err(Stop::NoMemory) => Err(AllocError),
        }
    }

    /// Adds what one more word says.
    #[tactic(auto, unfolding(crate::specs::PartialFlows::with_flow_word))]
    pub fn add_word(&mut self, alloc: Global, word: &[u8]) -> Result<(), AllocError>
        ensures { OnOk result (view_partial_flow self.new ≡ flow_with_word (view_partial_flow self.old) word.now) }
    {
        if self.in_actions {
            self.add_action_word(alloc, word)
        } else if begins_actions(word) {
            self.begin_actions(alloc, value_of(word))
        } else {
            self.count(alloc, word)?;
            self.add_other_word(alloc, word)
        }
    }
}
