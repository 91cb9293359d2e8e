//! What each kind of work does to a packet, for each frame.
ghost use Rattle.std.specs.Prelude.{◌≡◌, ◌++◌, Some, List, false, drop, length, map, ◌<◌, IfOk, OnOk, IsTrue, slice_get};
ghost use Rattle.std.specs.List.{list_all};
ghost use Rattle.of_actions.specs.declared.instruction.Instruction.TheVariants.{Apply, Clear, Goto, Metadata, Write};
ghost use Rattle.of_actions.specs.{Supported.is_supported, declared.action.Action.TheVariants.Output};
ghost use Rattle.of_machine.specs.Rows.{acts};
ghost use Rattle.of_symbolic_run.specs.{declared.advance.Advance.TheVariants.Done, declared.state.Emission.Emission as AnEmission};
ghost use Rattle.of_symbolic_run.specs.{declared.state.Work.TheVariants.Act, declared.state.Work.TheVariants.Do, declared.state.Work.TheVariants.RunSet, Rewriting.rewrites_alike};
ghost use Rattle.of_symbolic_run.specs.States.{TakesRow, answer_to, work_for};

use crate::served::ServedAction;
use crate::state::{Emission, SymbolicTask, Work};
use of_action_set::ActionSet;
use of_actions::{Action, ActionList};
use std::alloc::{AllocError, Global};

fn served_at(actions: &[Action], index: usize) -> ServedAction
    requires inside { index < length actions.now }
    requires served { IsTrue (list_all (is_supported false) actions.now) }
    ensures { slice_get actions.now index ≡ Some result }
{
    ServedAction::new(actions[index])
}

// Actions as work.
fn works_of<'a>(alloc: Global, actions: &[Action]) -> Result<Vec<Work<'a>>, AllocError>
    requires { IsTrue (list_all (is_supported false) actions.now) }
    ensures { IfOk result (λ works. map work_for works.items ≡ acts actions.now) }
{
    let mut works = Vec::new(alloc);
    for index in 0..actions.len() {
        works.push(Work::Act(served_at(actions, index)))?;
    }
    Ok(works)
}

impl<'a> SymbolicTask<'a> {
    // Replaces the first work.
    fn replace_first(&mut self, works: Vec<Work<'a>>) -> Result<(), AllocError>
        requires { 0 < length self.now.work.items }
        ensures work { OnOk result (self.new.work.items ≡ works.entry.items ++ drop 1 self.old.work.items) }
        ensures packet { self.new.packet ≡ self.old.packet }
    {
        let mut works = works;
        self.work.remove(0);
        works.append(&mut self.work)?;
        self.work = works;
        Ok(())
    }

    // An action that rewrites each frame in the same way.
    pub(crate) fn rewrite_frame_by(&mut self, action: ServedAction) -> Result<(), AllocError>
        requires first { slice_get self.now.work.items 0 ≡ Some (Act action) }
        requires alike { IsTrue (rewrites_alike action) }
        ensures answer { answer_to (Act action) ≡ Done }
        ensures takes { OnOk result ((emitted : List AnEmission) → TakesRow self.old emitted self.new emitted) }
    {
        self.packet.rewrites.push(action)?;
        self.work.remove(0);
        Ok(())
    }

    // OUTPUT. No instruction has one to the port TABLE.
    pub(crate) fn output(
        &mut self,
        port: u32,
        max_len: u16,
        emitted: &mut Vec<Emission>,
    ) -> Result<(), AllocError>
        requires first { slice_get self.now.work.items 0 ≡ Some (Act (Output port max_len)) }
        requires served { IsTrue (is_supported false (Output port max_len)) }
        ensures { OnOk result (TakesRow self.old emitted.old.items self.new emitted.new.items) }
    {
        let packet = self.packet.copy()?;
        emitted.push(Emission::Output {
            packet,
            port,
            max_len,
        })?;
        self.work.remove(0);
        Ok(())
    }

    // APPLY_ACTIONS.
    pub(crate) fn apply_actions(
        &mut self,
        alloc: Global,
        actions: &ActionList,
    ) -> Result<(), AllocError>
        requires first { slice_get self.now.work.items 0 ≡ Some (Do (Apply actions.now)) }
        requires served { IsTrue (list_all (is_supported false) actions.now) }
        ensures { OnOk result ((emitted : List AnEmission) → TakesRow self.old emitted self.new emitted) }
    {
        self.replace_first(works_of(alloc, actions.as_slice())?)
    }

    // CLEAR_ACTIONS.
    pub(crate) fn clear_actions(&mut self)
        requires { slice_get self.now.work.items 0 ≡ Some (Do Clear) }
        ensures { (emitted : List AnEmission) → TakesRow self.old emitted self.new emitted }
    {
        self.packet.written.clear();
        self.work.remove(0);
    }

    // WRITE_ACTIONS.
    pub(crate) fn write_into_set(&mut self, actions: &ActionList) -> Result<(), AllocError>
        requires first { slice_get self.now.work.items 0 ≡ Some (Do (Write actions.now)) }
        requires served { IsTrue (list_all (is_supported false) actions.now) }
        ensures { OnOk result ((emitted : List AnEmission) → TakesRow self.old emitted self.new emitted) }
    {
        self.packet.written.write(actions.as_slice())?;
        self.work.remove(0);
        Ok(())
    }

    // WRITE_METADATA.
    pub(crate) fn write_metadata(&mut self, value: u64, mask: u64)
        requires { slice_get self.now.work.items 0 ≡ Some (Do (Metadata value mask)) }
        ensures { (emitted : List AnEmission) → TakesRow self.old emitted self.new emitted }
    {
        self.packet.metadata = (self.packet.metadata & !mask) | (value & mask);
        self.work.remove(0);
    }

    // GOTO_TABLE.
    pub(crate) fn go_to(&mut self, table: u8) -> Result<(), AllocError>
        requires { slice_get self.now.work.items 0 ≡ Some (Do (Goto table)) }
        ensures { OnOk result ((emitted : List AnEmission) → TakesRow self.old emitted self.new emitted) }
    {
        self.work.clear();
        self.work.push(Work::Lookup(table))?;
        Ok(())
    }

    // The action set runs.
    pub(crate) fn run_action_set(&mut self, alloc: Global) -> Result<(), AllocError>
        requires { slice_get self.now.work.items 0 ≡ Some RunSet }
        ensures { OnOk result ((emitted : List AnEmission) → TakesRow self.old emitted self.new emitted) }
    {
        let mut set = ActionSet::new();
        set.write(self.packet.written.as_slice());
        self.replace_first(works_of(alloc, set.in_order())?)?;
        self.packet.written.clear();
        self.packet.cookie = u64::MAX;
        self.packet.miss = false;
        Ok(())
    }
}
