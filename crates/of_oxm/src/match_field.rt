use of_layers::Field;

/// A field of a match with its value, and the mask where there is one (OpenFlow 1.3.5, 7.2.3.2).
///
/// Addresses and other values are numbers, in big-endian order on the wire.
#[derive(Clone, Copy, PartialEq, Eq)]
pub struct MatchField {
    pub field: Field,
    pub value: u128,
    /// The bits that are compared; `None` is all of the field's.
    pub mask: Option<u128>,
}
