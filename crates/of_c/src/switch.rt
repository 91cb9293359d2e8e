//! The switch of a file.
ghost use Rattle.std.specs.Prelude.{◌≡◌, IfErr, IfOk, None};
ghost use Rattle.of_files.specs.{Contents.content_of, Switches.HasNoContents, Switches.whole_mode};
ghost use Rattle.of_c.specs.Answers.{IsSwitchOf, has_port_asked as has_port_of};

use of_cache::Cached;
use of_files::{Described, NoContents, WHOLE, describe, read_contents};
use of_mask_groups::MaskGroups;
use of_replay::Ended;
use of_switch::Switch;
use std::alloc::Global;

/// How the switch looks entries up, as the program's does.
pub type Lookups = Cached<MaskGroups>;

/// The switch of a file: what its content says, with ports 1 to 4 and those that it names.
pub fn switch_in(alloc: Global, file: &[u8]) -> Result<Described<Lookups>, NoContents>
    ensures described { IfOk result (λ d. IsSwitchOf file.now d.switch d.missing.items) }
    ensures failed { IfErr result (HasNoContents whole_mode None (content_of file.now) file.now) }
{
    let contents = read_contents(alloc, file, None, None, WHOLE)?;
    match describe(alloc, contents, &None) {
        Ok(described) => Ok(described),
        Err(_) => Err(NoContents::Ended(Ended::NoMemory)),
    }
}

/// Whether a switch has a port, if one is asked for.
pub fn has_port_asked(switch: &Switch<Lookups>, port: Option<u32>) -> bool
    ensures { result ≡ has_port_of port switch.now }
{
    match port {
        None => true,
        Some(port) => switch.datapath().ports.contains(port),
    }
}
