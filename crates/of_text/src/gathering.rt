//! Groups and flows from lines.
ghost use Rattle.std.specs.Prelude.{◌≡◌, [], ◌∷◌, OnOk, IfOk, reverse};
ghost use Rattle.of_text.specs.{Flows.gather_line as gather_row, Flows.gathered_rows, Flows.nothing_gathered, Views.view_flows, Views.view_groups, Views.view_instruction, Views.seen_gathering};

use crate::flow::{FlowText, InstructionText};
use crate::group::{BucketText, GroupText};
use of_actions::Action;
use of_lines::{BucketHead, FlowHead, GroupHead, Row};
use of_oxm::MatchField;
use std::alloc::{AllocError, Global};

// What the later lines give, each list in reverse order: what comes before any `group` or `flow` line, and the groups and flows after that.
#[derive(Drop)]
struct Gathering {
    actions: Vec<Action>,
    buckets: Vec<BucketText>,
    groups: Vec<GroupText>,
    instructions: Vec<InstructionText>,
    fields: Vec<MatchField>,
    flows: Vec<FlowText>,
}

// Takes a list that is in reverse order.
fn take_turned<T: Drop>(alloc: Global, list: &mut Vec<T>) -> Vec<T>
    ensures taken { result.items ≡ reverse list.old.items }
    ensures left { list.new.items ≡ [] }
{
    let mut taken = std::mem::replace(list, Vec::new(alloc));
    taken.reverse();
    taken
}

impl Gathering {
    fn new(alloc: Global) -> Gathering
        ensures { seen_gathering result ≡ nothing_gathered }
    {
        Gathering {
            actions: Vec::new(alloc),
            buckets: Vec::new(alloc),
            groups: Vec::new(alloc),
            instructions: Vec::new(alloc),
            fields: Vec::new(alloc),
            flows: Vec::new(alloc),
        }
    }

    // The group whose buckets were gathered.
    fn gather_group(&mut self, alloc: Global, head: GroupHead) -> Result<(), AllocError>
        ensures { OnOk result (seen_gathering self.new ≡ gather_row (Row.Group head) (seen_gathering self.old)) }
    {
        let buckets = take_turned(alloc, &mut self.buckets);
        self.actions.clear();
        self.groups.push(GroupText { head, buckets })?;
        Ok(())
    }

    // The bucket whose actions were gathered.
    fn gather_bucket(&mut self, alloc: Global, head: BucketHead) -> Result<(), AllocError>
        ensures { OnOk result (seen_gathering self.new ≡ gather_row (Row.Bucket head) (seen_gathering self.old)) }
    {
        let actions = take_turned(alloc, &mut self.actions);
        self.buckets.push(BucketText { head, actions })?;
        Ok(())
    }

    // The flow whose fields and instructions were gathered.
    fn gather_flow(&mut self, alloc: Global, head: FlowHead) -> Result<(), AllocError>
        ensures { OnOk result (seen_gathering self.new ≡ gather_row (Row.Flow head) (seen_gathering self.old)) }
    {
        let fields = take_turned(alloc, &mut self.fields);
        let instructions = take_turned(alloc, &mut self.instructions);
        self.actions.clear();
        self.flows.push(FlowText {
            head,
            fields,
            instructions,
        })?;
        Ok(())
    }

    // The actions that were gathered, in their order.
    fn take_actions(&mut self, alloc: Global) -> Vec<Action>
        ensures taken { result.items ≡ (seen_gathering self.old).actions }
        ensures left { seen_gathering self.new ≡ record (seen_gathering self.old) { actions = [] } }
    {
        take_turned(alloc, &mut self.actions)
    }

    // An instruction.
    fn push_instruction(&mut self, instruction: InstructionText) -> Result<(), AllocError>
        ensures { OnOk result (seen_gathering self.new ≡
            record (seen_gathering self.old) { instructions = view_instruction instruction ∷ (seen_gathering self.old).instructions }) }
    {
        self.instructions.push(instruction)?;
        Ok(())
    }

    // A field of a match.
    fn push_field(&mut self, e: MatchField) -> Result<(), AllocError>
        ensures { OnOk result (seen_gathering self.new ≡ gather_row (Row.Match e) (seen_gathering self.old)) }
    {
        self.fields.push(e)?;
        Ok(())
    }

    // An action of a bucket or an instruction.
    fn push_action(&mut self, action: Action) -> Result<(), AllocError>
        ensures { OnOk result (seen_gathering self.new ≡ gather_row (Row.Do action) (seen_gathering self.old)) }
    {
        self.actions.push(action)?;
        Ok(())
    }

    // Puts the line first.
    fn gather(&mut self, alloc: Global, row: Row) -> Result<(), AllocError>
        ensures { OnOk result (seen_gathering self.new ≡ gather_row row (seen_gathering self.old)) }
    {
        match row {
            Row::Group(head) => self.gather_group(alloc, head),
            Row::Bucket(head) => self.gather_bucket(alloc, head),
            Row::Flow(head) => self.gather_flow(alloc, head),
            Row::Match(e) => self.push_field(e),
            Row::Apply => {
                let actions = self.take_actions(alloc);
                self.push_instruction(InstructionText::Apply(actions))
            }
            Row::Clear => self.push_instruction(InstructionText::Clear),
            Row::Write => {
                let actions = self.take_actions(alloc);
                self.push_instruction(InstructionText::Write(actions))
            }
            Row::Metadata { value, mask } => self.push_instruction(InstructionText::Metadata {
                value,
                mask,
            }),
            Row::Goto(table) => self.push_instruction(InstructionText::Goto(table)),
            Row::Do(action) => self.push_action(action),
        }
    }
    // Puts lines first, the last of them before the others.
    fn gather_all(&mut self, alloc: Global, rows: Vec<Row>) -> Result<(), AllocError>
        ensures { OnOk result (seen_gathering self.new ≡ gathered_rows (seen_gathering self.old) rows.items) }
    {
        let mut rows = rows;
        while let Some(row) = rows.pop() {
            self.gather(alloc, row)?;
        }
        Ok(())
    }
}

/// The groups and the flows of a text, in their order.
#[derive(Drop)]
pub struct Items {
    pub groups: Vec<GroupText>,
    pub flows: Vec<FlowText>,
}

/// The groups and flows that lines are, where the lines are in order.
pub fn items_of(alloc: Global, rows: Vec<Row>) -> Result<Items, AllocError>
    ensures groups { IfOk result (λ items. view_groups items.groups.items ≡ (gathered_rows nothing_gathered rows.items).groups) }
    ensures flows { IfOk result (λ items. view_flows items.flows.items ≡ (gathered_rows nothing_gathered rows.items).flows) }
{
    let mut gathering = Gathering::new(alloc);
    gathering.gather_all(alloc, rows)?;
    Ok(Items {
        groups: take_turned(alloc, &mut gathering.groups),
        flows: take_turned(alloc, &mut gathering.flows),
    })
}
