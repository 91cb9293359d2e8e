//! Matches.

ghost use Rattle.std.specs.Prelude.{◌≡◌, ◌==◌, ◌↔◌, [], length, IfOk, IsTrue};
ghost use Rattle.of_oxm.specs.{InPortMatch.in_port_match, NormalForm.IsMatch, SameMatch.is_same_match};

use crate::match_field::MatchField;
use of_layers::Field;
use std::alloc::{AllocError, Global};
use std::marker::Model;

/// What the match of a flow asks of a frame (OpenFlow 1.3.5, 7.2.3).
///
/// It is a normal form: no mask of zeros alone or of ones alone, each field once, in ascending order
/// of number, and the prerequisites of its fields are in it.
#[derive(Drop)]
pub struct Match {
    pub(crate) fields: Vec<MatchField>,
}

impl Model for Match {
    ghost use Rattle.std.specs.Prelude.{List};
    ghost use Rattle.of_oxm.specs.{declared.match_field.MatchField.MatchField, NormalForm.IsMatch};

    ghost Value = { List MatchField };

    ghost view = { λ m. m.fields.items };

    ghost invariant = { λ m. IsMatch m.fields.items };
}

/// Whether two lists of fields are equal.
pub fn same_fields(xs: &[MatchField], ys: &[MatchField]) -> bool
    ensures same { IsTrue result ↔ (xs.now ≡ ys.now) }
    ensures value { result ≡ is_same_match xs.now ys.now }
{
    xs == ys
}

impl Match {
    /// The match of these fields: a normal form, with their prerequisites among them.
    pub fn new(fields: Vec<MatchField>) -> Match
        requires { IsMatch fields.items }
        ensures { result ≡ fields.items }
    {
        Match { fields }
    }

    /// The match of all frames. It takes no memory.
    #[tactic(auto, unfolding(crate::specs::Prerequisites::prerequisites_met))]
    pub fn of_all(alloc: Global) -> Match
        ensures { result ≡ [] }
    {
        Match {
            fields: Vec::new(alloc),
        }
    }

    /// The match of a frame that was received at this port, as a PACKET_IN carries it (OpenFlow 1.3.5, 7.4.1).
    pub fn of_in_port(alloc: Global, port: u32) -> Result<Match, AllocError>
        ensures { IfOk result (λ m. m ≡ in_port_match port) }
    {
        let mut fields = Vec::new(alloc);
        fields.push(MatchField {
            field: Field::InPort,
            value: u128::from(port),
            mask: None,
        })?;
        Ok(Match { fields })
    }

    /// The fields that it looks at, in ascending order of number.
    pub fn fields(&self) -> &[MatchField]
        ensures { result.now ≡ self.now }
    {
        self.fields.as_slice()
    }

    /// How many fields it looks at.
    pub fn len(&self) -> usize
        ensures { result ≡ length self.now }
    {
        self.fields.len()
    }

    /// Whether it looks at no field, and so matches each frame.
    pub fn is_empty(&self) -> bool
        ensures { result ≡ (length self.now == 0) }
    {
        self.fields.is_empty()
    }

    /// The same match again.
    pub fn copy(&self) -> Result<Match, AllocError>
        ensures { IfOk result (λ m. m ≡ self.now) }
    {
        Ok(Match {
            fields: self.fields.clone()?,
        })
    }

    /// Its fields are a normal form, with their prerequisites among them (OpenFlow 1.3.5, 7.2.3.5 and 7.2.3.6).
    pub fn known(&self)
        ensures { IsMatch self.now }
    {
        let _fields = &self.fields;
    }

    /// Whether the two are the same match.
    pub fn equals(&self, other: &Match) -> bool
        ensures same { IsTrue result ↔ (self.now ≡ other.now) }
        ensures value { result ≡ is_same_match self.now other.now }
    {
        same_fields(&self.fields, &other.fields)
    }
}
