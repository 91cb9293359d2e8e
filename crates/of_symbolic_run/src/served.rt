//! Supported actions and instructions.
ghost use Rattle.std.specs.Prelude.{◌≡◌, false, IsTrue};
ghost use Rattle.of_actions.specs.{InstructionLists.is_served_body, Supported.is_supported};

use of_actions::{Action, Instruction};
use std::marker::Model;

/// An action that an instruction or a bucket may have. It is supported.
#[derive(Clone, Copy)]
pub struct ServedAction {
    action: Action,
}

impl Model for ServedAction {
    ghost use Rattle.std.specs.Prelude.{IsTrue, false};
    ghost use Rattle.of_actions.specs.{declared.action.Action.Action, Supported.is_supported};

    ghost Value = { Action };

    ghost view = { λ s. s.action };

    ghost inverse = { λ a. record { action = a } };

    ghost invariant = { λ s. IsTrue (is_supported false s.action) };
}

impl ServedAction {
    pub fn new(action: Action) -> Self
        requires { IsTrue (is_supported false action) }
        ensures { result ≡ action }
    {
        ServedAction { action }
    }

    pub fn get(&self) -> Action
        ensures is { result ≡ self.now }
        ensures served { IsTrue (is_supported false result) }
    {
        self.action
    }
}

/// An instruction of an entry. It is supported.
#[derive(Drop)]
pub struct ServedInstruction<'a> {
    instruction: &'a Instruction,
}

impl<'a> Model for ServedInstruction<'a> {
    ghost use Rattle.std.specs.Prelude.{IsTrue};
    ghost use Rattle.of_actions.specs.{declared.instruction.Instruction.Instruction, InstructionLists.is_served_body};

    ghost Value = { Instruction };

    ghost view = { λ s. s.instruction.now };

    ghost invariant = { λ s. IsTrue (is_served_body s.instruction.now) };
}

impl<'a> ServedInstruction<'a> {
    pub fn new(instruction: &'a Instruction) -> Self
        requires { IsTrue (is_served_body instruction.now) }
        ensures { result ≡ instruction.now }
    {
        ServedInstruction { instruction }
    }

    pub fn get(&self) -> &'a Instruction
        ensures is { result.now ≡ self.now }
        ensures served { IsTrue (is_served_body result.now) }
    {
        self.instruction
    }

    /// The same instruction.
    pub fn copy(&self) -> Self
        ensures { result ≡ self.now }
    {
        ServedInstruction {
            instruction: self.instruction,
        }
    }
}
