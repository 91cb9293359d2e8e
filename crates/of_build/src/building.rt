//! Event files that build a configuration.
ghost use Rattle.std.specs.{Prelude.◌≡◌, Prelude.◌++◌, Prelude.IfOk, Prelude.OnOk, List.flat_map};
ghost use Rattle.hex.specs.Hex.{encode_lower};
ghost use Rattle.of_build.specs.Building.{build_text, chunk_line};

use crate::listing::messages;
use of_text::Config;
use of_wire::Bytes;
use std::alloc::{AllocError, Global};

/// A HELLO of version 4 without elements (OpenFlow 1.3.5, 7.5.1).
const HELLO: [u8; 8] = [4, 0, 0, 8, 0, 0, 0, 0];

/// Appends bytes as hex digits in lower case.
pub fn push_hex(alloc: Global, out: &mut Vec<u8>, bytes: &[u8]) -> Result<(), AllocError>
    ensures { OnOk result (out.new.items ≡ out.old.items ++ encode_lower bytes.now) }
{
    let text = hex::encode(alloc, bytes)?;
    out.extend_from_slice(text.as_bytes())
}

// Appends the row of a chunk of the controller's bytes.
fn push_chunk(alloc: Global, out: &mut Vec<u8>, bytes: &[u8]) -> Result<(), AllocError>
    ensures { OnOk result (out.new.items ≡ out.old.items ++ chunk_line bytes.now) }
{
    out.extend_from_slice(b"c ")?;
    push_hex(alloc, out, bytes)?;
    out.push(b'\n')?;
    Ok(())
}

// Appends the rows of these messages.
fn push_chunks(alloc: Global, out: &mut Vec<u8>, messages: &[Bytes]) -> Result<(), AllocError>
    ensures { OnOk result (out.new.items ≡ out.old.items ++ flat_map chunk_line messages.now) }
{
    for message in messages {
        push_chunk(alloc, out, message.as_slice())?;
    }
    Ok(())
}

/// The event file that builds a configuration on a new switch.
#[tactic(auto, unfolding(crate::specs::Building::build_text))]
pub fn build(alloc: Global, config: &Config) -> Result<Vec<u8>, AllocError>
    ensures { IfOk result (λ text. text.items ≡ build_text config.now) }
{
    let mut out = Vec::new(alloc);
    out.extend_from_slice(b"connect\n")?;
    push_chunk(alloc, &mut out, &HELLO)?;
    push_chunks(alloc, &mut out, &messages(alloc, config)?)?;
    Ok(out)
}
