//! The groups of a switch.
ghost use Rattle.std.specs.Prelude.{◌≡◌, ◌≢◌, ◌<◌, [], Some, None, length, slice_get, count_by, OnOk, OnErr};
ghost use Rattle.std.specs.{Option.option_copied, Option.option_map, Result.result_err};
ghost use Rattle.of_groups.specs.Groups.{new_group, modified_group, with_group, groups_left, counted, bucket_counted, bucket_at, find_group as group_of_number, sends_to as is_sending};
ghost use Rattle.of_groups.specs.{Faults.fault_in, Faults.add_fault, Faults.modify_fault, Faults.delete_fault, Sound.AreSound, Liveness.chosen};

use crate::bucket::Bucket;
use crate::buckets::Buckets;
use crate::changing::{insert_group, is_named, make_group, moment_of, remove_group, replace_group};
use crate::checking::{check_add, check_modify};
use crate::chosen::Chosen;
use crate::counting::{count_group, count_use_of};
use crate::group::{Group, GroupKind};
use crate::group_fault::GroupFault;
use crate::liveness::{LivePorts, choose};
use crate::lookup::find_group;
use crate::naming::sends_to;
use of_actions::Action;
use std::alloc::Global;
use std::marker::Model;

/// The groups of a switch, in ascending order of number: at most 256 (OpenFlow 1.3.5, 5.6 and 6.5).
///
/// Each group that one of them names exists, and no chain of them has more than three.
#[derive(Drop)]
pub struct Groups {
    groups: Vec<Group>,
}

impl Model for Groups {
    ghost use Rattle.std.specs.Prelude.{List};
    ghost use Rattle.of_groups.specs.{declared.group.Group.Group, Sound.AreSound, Liveness.chosen};

    ghost Value = { List Group };

    ghost view = { λ g. g.groups.items };

    ghost invariant = { λ g. AreSound g.groups.items };
}

impl Groups {
    /// Without groups.
    pub fn new(alloc: Global) -> Groups
        ensures { result ≡ [] }
    {
        Groups {
            groups: Vec::new(alloc),
        }
    }

    /// Groups that satisfy the invariants of a switch's groups.
    pub fn of(groups: Vec<Group>) -> Groups
        requires { AreSound groups.items }
        ensures { result ≡ groups.items }
    {
        Groups { groups }
    }

    /// Adds a group, at that moment in nanoseconds (OpenFlow 1.3.5, 6.5). Its counters begin at 0.
    ///
    /// A call that fails changes nothing.
    pub fn add(
        &mut self,
        id: u32,
        kind: GroupKind,
        buckets: Buckets,
        now: u64,
    ) -> Result<(), GroupFault>
        ensures fault { fault_in result ≡ add_fault (new_group id kind buckets now) self.old }
        ensures ok { OnOk result (self.new ≡ with_group (new_group id kind buckets now) self.old) }
        ensures err { OnErr result (self.new ≡ self.old) }
    {
        let group = make_group(id, kind, buckets, now);
        check_add(&self.groups, &group)?;
        match insert_group(&mut self.groups, group) {
            Ok(()) => Ok(()),
            Err(_) => Err(GroupFault::NoMemory),
        }
    }

    /// Gives a group that exists another type and other buckets (OpenFlow 1.3.5, 6.5). Its counters begin at 0 again, and its time goes on.
    ///
    /// It needs no memory. A call that fails changes nothing.
    pub fn modify(&mut self, id: u32, kind: GroupKind, buckets: Buckets) -> Result<(), GroupFault>
        ensures fault { result_err result ≡ modify_fault (modified_group id kind buckets self.old) self.old }
        ensures ok { OnOk result (self.new ≡ with_group (modified_group id kind buckets self.old) self.old) }
        ensures err { OnErr result (self.new ≡ self.old) }
    {
        let group = make_group(id, kind, buckets, moment_of(&self.groups, id));
        check_modify(&self.groups, &group)?;
        replace_group(&mut self.groups, group);
        Ok(())
    }

    /// Deletes the group of that number, or all groups (OpenFlow 1.3.5, 6.5). Where there is none, nothing changes.
    ///
    /// One that another names is not deleted alone. It needs no memory. A call that fails changes nothing.
    pub fn delete(&mut self, id: Option<u32>) -> Result<(), GroupFault>
        ensures fault { result_err result ≡ delete_fault id self.old }
        ensures ok { OnOk result (self.new ≡ groups_left id self.old) }
        ensures err { OnErr result (self.new ≡ self.old) }
    {
        match id {
            None => self.groups.clear(),
            Some(id) => {
                if is_named(&self.groups, id) {
                    return Err(GroupFault::Named);
                }
                remove_group(&mut self.groups, id);
            }
        }
        Ok(())
    }

    /// The groups, in ascending order of number.
    pub fn groups(&self) -> &[Group]
        ensures groups { result.now ≡ self.now }
        ensures sound { AreSound self.now }
    {
        self.groups.as_slice()
    }

    /// The group of that number.
    pub fn group(&self, id: u32) -> Option<&Group>
        ensures { option_copied result ≡ group_of_number id self.now }
    {
        find_group(&self.groups, id)
    }

    /// The places of the buckets that run for a packet, where the group of that number exists (OpenFlow 1.3.5, 5.6.1).
    ///
    /// Of ALL each runs, of INDIRECT its one, of FAST-FAILOVER the first that is live, or none. It needs no memory.
    pub fn buckets_for<P: LivePorts>(&self, id: u32, ports: &P) -> Option<Chosen>
        ensures { result ≡ chosen self.now (P.live ports.now) id }
    {
        choose(&self.groups, ports, id)
    }

    /// The actions of the bucket of the group of that number, by its place, from 0.
    pub fn bucket(&self, id: u32, place: u8) -> &[Action]
        requires { bucket_at self.now id place ≢ None }
        ensures { bucket_at self.now id place ≡ Some result.now }
    {
        match find_group(&self.groups, id) {
            Some(group) => actions_at(group.buckets.as_slice(), place as usize),
            None => unreachable!(),
        }
    }

    /// Counts a packet of this many bytes for the group of that number (OpenFlow 1.3.5, 5.8); where there is none, nothing changes. Counters wrap.
    pub fn count(&mut self, id: u32, bytes: usize)
        ensures { self.new ≡ counted id bytes self.old }
    {
        count_group(&mut self.groups, id, bytes);
    }

    /// Counts a packet of this many bytes for the bucket at that place of the group of that number; where there is none, nothing changes. Counters wrap.
    pub fn count_bucket(&mut self, id: u32, place: u8, bytes: usize)
        ensures { self.new ≡ bucket_counted id place bytes self.old }
    {
        count_use_of(&mut self.groups, id, place, bytes);
    }

    /// How many groups have an action that sends packets to the group of that number (OpenFlow 1.3.5, 7.3.5.6).
    pub fn references(&self, id: u32) -> usize
        ensures { result ≡ count_by (is_sending id) self.now }
    {
        self.groups
            .iter()
            .filter(|group| sends_to(group, id))
            .count()
    }
}

fn actions_at(buckets: &[Bucket], place: usize) -> &[Action]
    requires { place < length buckets.now }
    ensures { option_map (λ b. b.actions) (slice_get buckets.now place) ≡ Some result.now }
{
    buckets[place].actions.as_slice()
}
