//! Places of entries.

/// Places of entries, from the first to before the end.
#[derive(Drop)]
pub(crate) struct Span {
    pub first: usize,
    pub end: usize,
}
