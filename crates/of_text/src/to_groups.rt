//! Groups of a configuration as a switch keeps them.
ghost use Rattle.std.specs.{Prelude.◌≡◌, Prelude.true, Prelude.IfOk, List.list_all};
ghost use Rattle.of_groups.specs.Sound.{is_fit_group};
ghost use Rattle.of_text.specs.{Groups.groups_at, Views.view_groups};

use crate::config::Config;
use crate::group::GroupText;
use of_groups::{Group, Groups};
use std::alloc::{AllocError, Global};

fn groups_from(alloc: Global, groups: &[GroupText], created: u64) -> Result<Vec<Group>, AllocError>
    requires { list_all is_fit_group (groups_at created (view_groups groups.now)) ≡ true }
    ensures { IfOk result (λ made. made.items ≡ groups_at created (view_groups groups.now)) }
{
    let mut made = Vec::new(alloc);
    for group in groups {
        made.push(group.to_group(created)?)?;
    }
    Ok(made)
}

impl Config {
    /// The groups, as a switch has them that adds them at that moment in nanoseconds: nothing is counted so far.
    pub fn to_groups(&self, created: u64) -> Result<Groups, AllocError>
        ensures { IfOk result (λ groups. groups ≡ groups_at created self.now.groups) }
    {
        self.known();
        let groups = groups_from(*self.groups.allocator(), &self.groups, created)?;
        Ok(Groups::of(groups))
    }
}
