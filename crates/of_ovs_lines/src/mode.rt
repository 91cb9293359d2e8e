//! How a table is read.

/// How a table is read.
#[derive(Clone, Copy)]
pub struct Mode {
    /// Whether lines and actions that cannot be imported are left out.
    pub skip: bool,
    /// Whether tables get the numbers 0 to 15, in their order.
    pub renumber: bool,
}
