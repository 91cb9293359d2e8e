//! The port numbers at which a switch receives frames, and the others.
ghost use Rattle.std.specs.Prelude.{◌≡◌, ◌↔◌, ◌≤◌, ◌<◌, ◌+◌, ◌-◌, ◌*◌, ◌/◌, ◌^◌, ◌∷◌, [], ℕ, None, IfOk, IfSome, IsTrue, OnOk, true};
ghost use Rattle.of_regions.specs.Conditions.{AreConditions};
ghost use Rattle.of_symbolic_run.specs.PortNumbers.{AreAbsences, IsConditionOf, IsNamedNumber, IsReceiverOrNamed, IsReceivingPort, agrees_under, came_in_by, receiver_under};

use of_headers::Field;
use of_oxm::MatchField;
use of_ports::{Port, find_port};
use std::alloc::{AllocError, Global};

/// The condition that a packet came in by this port.
pub fn ingress_condition(port: u32) -> MatchField
    ensures is { result ≡ came_in_by port }
    ensures conditions { AreConditions (result ∷ []) }
{
    MatchField {
        field: Field::InPort,
        value: u128::from(port),
        mask: None,
    }
}

/// Whether there is a port of this number, and frames that arrive at it are received (OpenFlow 1.3.5, 7.2.1).
pub fn receiving_port(ports: &[Port], number: u32) -> bool
    ensures { IsTrue result ↔ IsReceivingPort ports.now number }
{
    match find_port(ports, number) {
        None => false,
        Some(port) => port.may_receive(),
    }
}

// The port numbers that have the bits of a number under a mask.
#[derive(Clone, Copy)]
struct Block {
    number: u64,
    mask: u64,
}

impl Block {
    // Those whose bits but so many of the lowest are a prefix.
    fn of(prefix: u32, low_bits: u32) -> Block
        requires few { low_bits ≤ 32 }
        requires within { (prefix + 1) * 2 ^ low_bits ≤ 2 ^ 32 }
        ensures number { result.number ≡ prefix * 2 ^ low_bits }
        ensures mask { result.mask ≡ 2 ^ 32 - 2 ^ low_bits }
    {
        Block {
            number: u64::from(prefix) << low_bits,
            mask: (1 << 32) - (1 << low_bits),
        }
    }

    fn has(self, number: u32) -> bool
        ensures { result ≡ agrees_under self.mask self.number number }
    {
        u64::from(number) & self.mask == self.number & self.mask
    }

    // The number of a port that receives, if one is in the block.
    fn receiver(self, ports: &[Port]) -> Option<u32>
        ensures is { result ≡ receiver_under self.mask self.number ports.now }
        ensures fits { IfSome result (λ number. number < 2 ^ 32) }
    {
        let port = ports
            .iter()
            .find(|port| port.may_receive() && self.has(port.number))?;
        Some(port.number)
    }

    // The condition that IN_PORT is one of them.
    fn condition(self) -> MatchField
        ensures { IsConditionOf self.number self.mask result }
    {
        MatchField {
            field: Field::InPort,
            value: u128::from(self.number & self.mask),
            mask: Some(u128::from(self.mask)),
        }
    }
}

// Appends the condition that IN_PORT is in a block that has the number of no port that receives.
fn push_block(
    alloc: Global,
    absent: &mut Vec<Vec<MatchField>>,
    ports: &[Port],
    block: Block,
) -> Result<(), AllocError>
    requires none { receiver_under block.mask block.number ports.now ≡ None }
    requires fits { block.mask < 2 ^ 32 }
    ensures absences { OnOk result (AreAbsences ports.now absent.old.items → AreAbsences ports.now absent.new.items) }
    ensures more { OnOk result ((number : ℕ) → IsNamedNumber absent.old.items number → IsNamedNumber absent.new.items number) }
    ensures own { OnOk result ((number : ℕ) → agrees_under block.mask block.number number ≡ true → IsNamedNumber absent.new.items number) }
{
    let mut fields = Vec::new(alloc);
    fields.push(block.condition())?;
    absent.push(fields)?;
    Ok(())
}

// Appends conditions on the numbers of no port that receives, of those whose bits but so many of the lowest are a prefix: a block that has the number of
// such a port is divided in halves. The upper half comes first, so that a search meets large blocks before small ones.
fn push_absent(
    alloc: Global,
    absent: &mut Vec<Vec<MatchField>>,
    ports: &[Port],
    prefix: u32,
    low_bits: u32,
) -> Result<(), AllocError>
    requires few { low_bits ≤ 32 }
    requires within { (prefix + 1) * 2 ^ low_bits ≤ 2 ^ 32 }
    ensures absences { OnOk result (AreAbsences ports.now absent.old.items → AreAbsences ports.now absent.new.items) }
    ensures more { OnOk result ((number : ℕ) → IsNamedNumber absent.old.items number → IsNamedNumber absent.new.items number) }
    ensures all { OnOk result ((number : ℕ) → number < 2 ^ 32 → number / 2 ^ low_bits ≡ prefix → IsReceiverOrNamed ports.now absent.new.items number) }
{
    let block = Block::of(prefix, low_bits);
    if block.receiver(ports).is_none() {
        return push_block(alloc, absent, ports, block);
    }
    if low_bits == 0 {
        return Ok(());
    }
    push_absent(alloc, absent, ports, 2 * prefix + 1, low_bits - 1)?;
    push_absent(alloc, absent, ports, 2 * prefix, low_bits - 1)
}

/// Conditions on IN_PORT, each alone in its list, which name the numbers of all ports but those that receive.
///
/// They are few: they name the other numbers by blocks whose first bits are the same, each as large as it can be, the largest first.
pub fn absent_ports(alloc: Global, ports: &[Port]) -> Result<Vec<Vec<MatchField>>, AllocError>
    ensures absences { IfOk result (λ absent. AreAbsences ports.now absent.items) }
    ensures all { IfOk result (λ absent. (number : ℕ) → number < 2 ^ 32 → IsReceiverOrNamed ports.now absent.items number) }
{
    let mut absent = Vec::new(alloc);
    push_absent(alloc, &mut absent, ports, 0, 32)?;
    Ok(absent)
}
