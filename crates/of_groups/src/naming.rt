//! Which groups a group names (OpenFlow 1.3.5, 6.5).
ghost use Rattle.std.specs.{Prelude.◌≡◌, Prelude.◌==◌, Prelude.ℕ, Prelude.Bool, List.list_any};
ghost use Rattle.of_groups.specs.Buckets.{sends, any_sends as some_sends, watches as is_watching};
ghost use Rattle.of_groups.specs.Groups.{any_watches as some_watches, any_named as some_named, names as is_naming, sends_to as is_sending};

use crate::bucket::Bucket;
use crate::group::{Group, GroupKind};
use of_actions::Action;
use of_wire::limits::OFPG_ANY;

/// A test of the number of a group.
pub(crate) trait NumberTest {
    ghost holds: { Self → ℕ → Bool };

    fn holds(&self, number: u32) -> bool
        ensures { result ≡ holds self.now number };
}

/// Whether it is this number.
#[derive(Drop)]
pub(crate) struct IsNumber(pub(crate) u32);

impl NumberTest for IsNumber {
    ghost holds = { λ test. λ n. n == test.0 };

    fn holds(&self, number: u32) -> bool {
        number == self.0
    }
}

fn sends_so<T: NumberTest>(action: &Action, test: &T) -> bool
    ensures { result ≡ sends (T.holds test.now) action.now }
{
    match action {
        Action::Group(group) => test.holds(*group),
        _ => false,
    }
}

fn any_sends_so<T: NumberTest>(actions: &[Action], test: &T) -> bool
    ensures { result ≡ list_any (sends (T.holds test.now)) actions.now }
{
    actions.iter().any(|action| sends_so(action, test))
}

/// Whether some action sends the packet to a group whose number passes the test.
pub(crate) fn any_sends<T: NumberTest>(buckets: &[Bucket], test: &T) -> bool
    ensures { result ≡ some_sends (T.holds test.now) buckets.now }
{
    buckets
        .iter()
        .any(|bucket| any_sends_so(bucket.actions.as_slice(), test))
}

fn watches<T: NumberTest>(bucket: &Bucket, test: &T) -> bool
    ensures { result ≡ is_watching (T.holds test.now) bucket.now }
{
    bucket.watch_group != OFPG_ANY && test.holds(bucket.watch_group)
}

fn any_watches_so<T: NumberTest>(buckets: &[Bucket], test: &T) -> bool
    ensures { result ≡ list_any (is_watching (T.holds test.now)) buckets.now }
{
    buckets.iter().any(|bucket| watches(bucket, test))
}

/// Whether some bucket of FAST-FAILOVER watches a group whose number passes the test.
pub(crate) fn any_watches<T: NumberTest>(kind: GroupKind, buckets: &[Bucket], test: &T) -> bool
    ensures { result ≡ some_watches (T.holds test.now) kind buckets.now }
{
    match kind {
        GroupKind::All | GroupKind::Indirect => false,
        GroupKind::FastFailover => any_watches_so(buckets, test),
    }
}

/// Whether the group names one whose number passes the test.
pub(crate) fn any_named<T: NumberTest>(group: &Group, test: &T) -> bool
    ensures { result ≡ some_named (T.holds test.now) group.now }
{
    let buckets = group.buckets.as_slice();
    any_sends(buckets, test) || any_watches(group.kind, buckets, test)
}

/// Whether the group names that one: by an action of a bucket, or where it is of FAST-FAILOVER by what a bucket watches.
pub fn names(group: &Group, number: u32) -> bool
    ensures { result ≡ is_naming number group.now }
{
    any_named(group, &IsNumber(number))
}

/// Whether an action of a bucket sends packets to that group, for the number of references (OpenFlow 1.3.5, 7.3.5.6).
pub fn sends_to(group: &Group, number: u32) -> bool
    ensures { result ≡ is_sending number group.now }
{
    any_sends(group.buckets.as_slice(), &IsNumber(number))
}
