//! An entry among those of its mask.
ghost use Rattle.std.specs.Ordering.{as_partial_cmp, flip_args, nat_cmp, on, then_cmp};
ghost use Rattle.std.{specs.Cmp.partial_order_from_own_ties, specs.Cmp.Rules.comparing, proofs.Common.rules};

use std::cmp::Ordering;

/// The priority and the number of an entry: what orders the entries of a group, by priority, and of one priority the highest number
/// first. Numbers mostly grow, and a set is searched from its front, where a new entry then goes.
#[derive(Clone, Copy, PartialEq, Eq)]
pub(crate) struct Rank {
    pub(crate) priority: u16,
    pub(crate) number: usize,
}

impl Ord for Rank {
    ghost cmp = { then_cmp (on (λ r. r.priority) nat_cmp) (flip_args (on (λ r. r.number) nat_cmp)) };

    ghost total = { Prim.search (comparing, rules) };

    ghost matches_partial_cmp = { Prim.search (comparing, rules) };

    ghost matches_eq = { Prim.search (comparing, rules) };

    fn cmp(&self, other: &Rank) -> Ordering {
        self.priority
            .cmp(&other.priority)
            .then(other.number.cmp(&self.number))
    }
}

impl PartialOrd for Rank {
    ghost partial_cmp = { as_partial_cmp (then_cmp (on (λ r. r.priority) nat_cmp) (flip_args (on (λ r. r.number) nat_cmp))) };

    ghost laws = { partial_order_from_own_ties (Prim.search (comparing, rules)) (Prim.search (comparing, rules)) };

    fn partial_cmp(&self, other: &Rank) -> Option<Ordering> {
        Some(self.cmp(other))
    }
}
