//! Laws of groups.
ghost use Rattle.std.specs.Prelude.{◌≡◌, ◌≤◌, ◌<◌, ◌↔◌, ℕ, suc, min, Bool, true, List, Some, length};
ghost use Rattle.of_groups.specs.{declared.group.Group.Group as AGroup, Groups.find_group as group_of_number, Chains.is_chain, Chains.AreShort, Chains.chain, Chains.is_long};
ghost use Rattle.of_groups.specs.Liveness.{is_live_group as group_lives, is_live_kind};

/// `chain` is how many groups the longest chain that begins at a group has, and 4 where one has more; and there is a
/// chain of more than three groups exactly where `is_long` says so (OpenFlow 1.3.5, 6.5).
pub fn chain_is_longest()
    ensures longest { (groups : List AGroup) (n : ℕ) (behind : List ℕ) → is_chain groups n behind ≡ true → min 4 (suc (length behind)) ≤ chain groups n }
    ensures there { (groups : List AGroup) (n : ℕ) → 0 < chain groups n →
        (behind : List ℕ) × (is_chain groups n behind ≡ true) × (suc (length behind) ≡ chain groups n) }
    ensures long { (groups : List AGroup) → (is_long groups ≡ true) ↔ ((n : ℕ) × (behind : List ℕ) × (is_chain groups n behind ≡ true) × (3 ≤ length behind)) }
{}

/// Where no chain has more than three groups, a group is live by its type, and by what its buckets watch (OpenFlow 1.3.5, 5.6.1).
pub fn liveness_is_by_kind()
    ensures { (groups : List AGroup) (port : ℕ → Bool) (n : ℕ) (g : AGroup) → AreShort groups → group_of_number n groups ≡ Some g →
        group_lives groups port n ≡ is_live_kind port (group_lives groups port) g.kind g.buckets }
{}
