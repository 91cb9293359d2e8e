//! What is found about a requirement is what it says.
ghost use Rattle.std.specs.Prelude.{ℕ};
ghost use Rattle.of_machine.specs.TheWorld.{TheWorld};
ghost use Rattle.of_require.specs.{declared.deciding.Decision.Decision as ADecision, declared.requirement.Requirement.Requirement as ARequirement};
ghost use Rattle.of_require.specs.Decisions.{IsDecision, IsRight, verdict_by};

/// The verdict on a requirement is right: if it holds, the switch meets it, for all frames; if it fails, the switch does not.
pub fn verdicts_are_right()
    ensures { (w : TheWorld) (r : ARequirement) (steps : ℕ) (decision : ADecision) → IsDecision w r steps decision →
        IsRight w r (verdict_by r.quantifier decision) }
{}
