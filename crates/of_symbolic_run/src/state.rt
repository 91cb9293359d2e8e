//! States of a symbolic run.
ghost use Rattle.std.specs.Prelude.{◌≡◌, ℕ, List, IfOk};
ghost use Rattle.of_machine.specs.TheWorld.{TheWorld};
ghost use Rattle.of_symbolic_run.specs.States.{IsAt, IsStateCopy, IsTaskCopy};

use crate::copying::{copied_emissions, copied_steps, copied_tasks, copied_works};
use crate::rewrites::Rewrites;
use crate::served::{ServedAction, ServedInstruction};
use crate::written::Written;
use of_machine::Step;
use std::alloc::{AllocError, Global};

/// A packet, for each frame that came in: all except its frame and its ingress port is the same for each (OpenFlow 1.3.5, 5.1).
#[derive(Drop)]
pub struct SymbolicPacket {
    pub rewrites: Rewrites,
    pub metadata: u64,
    /// What was written into its action set, which was empty before.
    pub written: Written,
    /// The cookie of the entry whose instructions are followed, and all ones if there is none.
    pub cookie: u64,
    /// The table of the last lookup that found an entry.
    pub table: u8,
    /// Whether the entry whose instructions are followed is the table-miss flow entry.
    pub miss: bool,
}

/// A kind of work of a packet.
#[derive(Drop)]
pub enum Work<'a> {
    /// A lookup in a table.
    Lookup(u8),
    Do(ServedInstruction<'a>),
    /// The action set runs.
    RunSet,
    Act(ServedAction),
}

/// A packet with its work, the first work first.
#[derive(Drop)]
pub struct SymbolicTask<'a> {
    pub packet: SymbolicPacket,
    pub work: Vec<Work<'a>>,
}

/// What a packet emits. What an OUTPUT sends depends on the frame's ingress port, and on the ports of the switch.
#[derive(Drop)]
pub enum Emission {
    Output {
        packet: SymbolicPacket,
        port: u32,
        max_len: u16,
    },
    /// A packet to the controller with the reason INVALID_TTL (OpenFlow 1.3.5, 5.12).
    InvalidTtl(SymbolicPacket),
}

/// A state of a symbolic run: the packets with their work, the first one first, and what they emitted and the steps that they took so far, in order.
#[derive(Drop)]
pub struct SymbolicState<'a> {
    pub tasks: Vec<SymbolicTask<'a>>,
    pub emitted: Vec<Emission>,
    pub steps: Vec<Step>,
}

impl SymbolicPacket {
    pub fn copy(&self) -> Result<SymbolicPacket, AllocError>
        ensures { IfOk result (λ copy. copy ≡ self.now) }
    {
        Ok(SymbolicPacket {
            rewrites: self.rewrites.copy()?,
            metadata: self.metadata,
            written: self.written.copy()?,
            cookie: self.cookie,
            table: self.table,
            miss: self.miss,
        })
    }
}

impl<'a> SymbolicTask<'a> {
    /// A task with the same packet and the same work.
    pub fn copy(&self, alloc: Global) -> Result<SymbolicTask<'a>, AllocError>
        ensures { IfOk result (IsTaskCopy self.now) }
    {
        Ok(SymbolicTask {
            packet: self.packet.copy()?,
            work: copied_works(alloc, &self.work)?,
        })
    }
}

impl<'a> SymbolicState<'a> {
    /// A state with the same packets, which emitted the same and took the same steps.
    ///
    /// `at`: so it says the same about the run of each frame.
    pub fn copy(&self, alloc: Global) -> Result<SymbolicState<'a>, AllocError>
        ensures same { IfOk result (IsStateCopy self.now) }
        ensures at { IfOk result (λ copy. (w : TheWorld) (frame : List ℕ) (port : ℕ) → IsAt w frame port self.now → IsAt w frame port copy) }
    {
        Ok(SymbolicState {
            tasks: copied_tasks(alloc, &self.tasks)?,
            emitted: copied_emissions(alloc, &self.emitted)?,
            steps: copied_steps(alloc, &self.steps)?,
        })
    }
}
