//! Matches that go before.
use of_oxm::MatchField;

/// The fields of a match that goes before, and its name.
#[derive(Clone, Copy)]
pub struct Rival<'a> {
    pub name: usize,
    pub fields: &'a [MatchField],
}
