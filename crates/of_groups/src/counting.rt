//! Counters of groups (OpenFlow 1.3.5, 5.8).
ghost use Rattle.std.specs.Prelude.{◌≡◌, IsTrue};
ghost use Rattle.of_actions.specs.Rising.{is_ascending};
ghost use Rattle.of_groups.specs.Groups.{group_number, counted, bucket_counted};

use crate::group::Group;
use crate::lookup::place_of;

/// A packet of so many bytes for the group of that number; where there is none, nothing changes.
pub(crate) fn count_group(groups: &mut Vec<Group>, id: u32, bytes: usize)
    requires { IsTrue (is_ascending group_number groups.old.items) }
    ensures { groups.new.items ≡ counted id bytes groups.old.items }
{
    match place_of(groups, id) {
        Some(place) => {
            let group = &mut groups[place];
            group.packets = group.packets.wrapping_add(1);
            group.bytes = group.bytes.wrapping_add(bytes as u64);
        }
        None => return,
    }
}

/// The same for one of its buckets, by its place.
pub(crate) fn count_use_of(groups: &mut Vec<Group>, id: u32, place: u8, bytes: usize)
    requires { IsTrue (is_ascending group_number groups.old.items) }
    ensures { groups.new.items ≡ bucket_counted id place bytes groups.old.items }
{
    match place_of(groups, id) {
        Some(at) => groups[at].buckets.count(place, bytes),
        None => return,
    }
}
