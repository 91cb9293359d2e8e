//! Copies of instructions that are made before the first is needed.

ghost use Rattle.std.specs.Prelude.{◌≡◌, ◌<◌, ◌+◌, ◌-◌, OnOk};

use of_actions::InstructionList;
use std::alloc::{AllocError, Global};
use std::marker::Model;

/// Copies of the instructions of a MODIFY command.
#[derive(Drop)]
pub(crate) struct Copies<'a> {
    pub instructions: &'a InstructionList,
    pub made: Vec<InstructionList>,
}

impl<'a> Model for Copies<'a> {
    ghost use Rattle.std.specs.Prelude.{◌≡◌, replicate, vec_len};
    ghost use Rattle.of_table.specs.Copies.{Supply};

    ghost Value = { Supply };

    ghost view = { λ c. record { instructions = c.instructions.now; count = vec_len c.made } };

    ghost invariant = { λ c. c.made.items ≡ replicate (vec_len c.made) c.instructions.now };
}

impl<'a> Copies<'a> {
    /// One more.
    pub(crate) fn make(&mut self) -> Result<(), AllocError>
        ensures { OnOk result (self.new ≡ record self.old { count = self.old.count + 1 }) }
    {
        self.made.push(self.instructions.copy()?)?;
        Ok(())
    }

    /// One of them.
    pub(crate) fn take(&mut self) -> InstructionList
        requires { 0 < self.old.count }
        ensures copy { result ≡ self.old.instructions }
        ensures rest { self.new ≡ record self.old { count = self.old.count - 1 } }
    {
        match self.made.pop() {
            Some(copy) => copy,
            None => unreachable!(),
        }
    }
}
