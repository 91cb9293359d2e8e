//! What a run reads, and where its steps go.
ghost use Rattle.std.specs.Prelude.{◌≡◌, ◌≢◌, ◌++◌, ◌∷◌, [], List, Bool, Some, None, true, false, OnOk, OnErr};
ghost use Rattle.of_headers.specs.FieldMap.{value};
ghost use Rattle.of_machine.specs.{TheWorld.TheWorld, Sound.IsSound, declared.data.Step.Step};

use crate::data::Step;
use of_actions::Action;
use of_groups::Chosen;
use of_headers::FieldKey;
use of_ports::Port;
use of_table::Flow;
use std::alloc::{AllocError, Global};

/// The flow tables, the groups and the ports that packets meet.
pub trait World {
    ghost view: { Self → TheWorld };

    ghost Content: { Type 0 };

    // all that a run keeps
    ghost content: { Self → Content };

    /// The number of the entry of the table that wins for these fields (OpenFlow 1.3.5, 5.3).
    /// What helps to find it may be rearranged.
    fn find(&mut self, table: u8, key: &FieldKey) -> Option<usize>
        ensures found { result ≡ (view self.old).winner table (value key.now) }
        ensures kept { view self.new ≡ view self.old }
        ensures content { content self.new ≡ content self.old };

    /// The entry of that number.
    fn flow(&self, table: u8, number: usize) -> &Flow
        requires { (view self.now).flow table number ≢ None }
        ensures { (view self.now).flow table number ≡ Some result.now };

    /// The buckets of the group that run (OpenFlow 1.3.5, 5.6.1). None where there is no such group.
    fn chosen(&self, group: u32) -> Option<Chosen>
        ensures { result ≡ (view self.now).chosen group };

    /// The actions of the bucket of the group at that place.
    fn bucket(&self, group: u32, place: u8) -> &[Action]
        requires { (view self.now).bucket group place ≢ None }
        ensures { (view self.now).bucket group place ≡ Some result.now };

    /// The ports, in ascending order of number.
    fn ports(&self) -> &[Port]
        ensures { result.now ≡ (view self.now).ports };

    /// What each world promises: winners are numbers of entries, instructions are as an entry keeps them, chains of groups are short, and ports are in ascending order.
    fn known(&self)
        ensures { IsSound (view self.now) };
}

/// A list of steps, or none.
pub trait StepLog {
    const KEEPS: bool;

    ghost KEEPS: { Bool };

    ghost list: { Self → List Step };

    /// Where the log keeps steps, the step is its last.
    fn step(&mut self, step: Step) -> Result<(), AllocError>
        ensures ok { OnOk result (KEEPS ≡ true → list self.new ≡ list self.old ++ step ∷ []) }
        ensures err { OnErr result (list self.new ≡ list self.old) };
}

/// Keeps no step.
#[derive(Clone, Copy)]
pub struct NoLog;

impl StepLog for NoLog {
    const KEEPS: bool = false;

    ghost KEEPS = { false };

    ghost list = { λ _. [] };

    fn step(&mut self, _step: Step) -> Result<(), AllocError> {
        Ok(())
    }
}

/// Keeps each step.
#[derive(Drop)]
pub struct Steps {
    pub list: Vec<Step>,
}

impl Steps {
    pub fn new(alloc: Global) -> Steps
        ensures { result.list.items ≡ [] }
    {
        Steps {
            list: Vec::new(alloc),
        }
    }
}

impl StepLog for Steps {
    const KEEPS: bool = true;

    ghost KEEPS = { true };

    ghost list = { λ s. s.list.items };

    fn step(&mut self, step: Step) -> Result<(), AllocError> {
        self.list.push(step)?;
        Ok(())
    }
}
