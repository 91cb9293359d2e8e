use crate::verdict::Verdict;

/// The verdict on the entry of a table at an index by age, from 0.
#[derive(Drop)]
pub struct Finding {
    pub table: u8,
    pub place: usize,
    pub verdict: Verdict,
}
