//! DESC (OpenFlow 1.3.5, 7.3.5.1).
ghost use Rattle.std.specs.Prelude.{◌≡◌, ◌≤◌, ◌++◌, length, OnOk, IfOk};
ghost use Rattle.of_statistics.specs.Descriptions.{description, description_bytes, padded_text};

use crate::replies::{begun, sealed};
use of_messages::MessageBytes;
use std::alloc::{AllocError, Global};

/// OFPMP_DESC.
const DESC: u16 = 0;

// A text, padded with zeros.
fn put_padded(out: &mut Vec<u8>, text: &[u8], size: usize) -> Result<(), AllocError>
    requires short { length text.now ≤ size }
    requires fits { size ≤ 256 }
    ensures { OnOk result (out.new.items ≡ out.old.items ++ padded_text size text.now) }
{
    out.extend_from_slice(text)?;
    let zeros = [0; 256];
    out.extend_from_slice(&zeros[..size - text.len()])
}

fn put_description(out: &mut Vec<u8>) -> Result<(), AllocError>
    ensures { OnOk result (out.new.items ≡ out.old.items ++ description) }
{
    put_padded(out, b"ofswitch", 256)?;
    put_padded(out, b"software", 256)?;
    put_padded(out, b"1", 256)?;
    put_padded(out, b"0", 32)?;
    put_padded(out, b"ofswitch", 256)
}

/// What the switch is, in words (OpenFlow 1.3.5, 7.3.5.1).
pub fn description_reply(alloc: Global, xid: u32) -> Result<MessageBytes, AllocError>
    ensures { IfOk result (λ r. r ≡ description_bytes xid) }
{
    let mut out = begun(alloc)?;
    put_description(&mut out)?;
    Ok(sealed(out, xid, DESC, 0))
}
