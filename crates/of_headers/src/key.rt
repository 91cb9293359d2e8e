//! The fields of one frame, each absent or a value.

ghost use Rattle.of_headers.specs.{Numbers.numbers_in, Presence.AreFields, Presence.AbsentAreZero};

use crate::numbers::Numbers;

/// The fields of one frame and of its ingress port (OpenFlow 1.3.5, 5.3).
///
/// An absent field has the value 0, so that keys are equal where their fields are.
#[derive(Clone, Copy, Debug, PartialEq, Eq, Hash)]
pub struct FieldKey {
    pub numbers: Numbers,
    ghost known: { AreFields numbers.present },
    ghost absent: { AbsentAreZero numbers.present (numbers_in numbers) },
}
