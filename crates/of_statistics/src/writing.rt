//! Numbers and times as bytes.
ghost use Rattle.std.specs.Prelude.{◌≡◌, ◌++◌, OnOk};
ghost use Rattle.of_statistics.specs.Durations.{duration};

use of_table::NANOS;
use of_wire::put_u32;
use std::alloc::AllocError;

/// The time since a moment: seconds, cut to 32 bits, and the nanoseconds beyond them.
pub(crate) fn put_duration(out: &mut Vec<u8>, now: u64, since: u64) -> Result<(), AllocError>
    ensures { OnOk result (out.new.items ≡ out.old.items ++ duration now since) }
{
    let passed = now.saturating_sub(since);
    put_u32(out, (passed / NANOS % (1 << 32)) as u32)?;
    put_u32(out, (passed % NANOS) as u32)
}
