//! Where flow entries come from.
ghost use Rattle.std.specs.{Prelude.◌≡◌, Prelude.◌++◌, Prelude.OnOk, List.flat_map};
ghost use Rattle.of_values.specs.Origins.{further_counter, view_words};

use crate::characters::push_printable;
use std::alloc::AllocError;

/// Where a flow entry comes from.
#[derive(Drop)]
pub struct Origin {
    /// The line of a file that it begins at, from 1.
    pub line: usize,
    /// What a dump counted of it, as words such as `n_packets=12`.
    pub counters: Vec<Vec<u8>>,
}

fn push_counter(out: &mut Vec<u8>, word: &[u8]) -> Result<(), AllocError>
    ensures { OnOk result (out.new.items ≡ out.old.items ++ further_counter word.now) }
{
    out.extend_from_slice(b", ")?;
    push_printable(out, word)
}

/// Appends what a dump counted of a flow entry, behind its match.
pub fn push_counter_words(out: &mut Vec<u8>, words: &[Vec<u8>]) -> Result<(), AllocError>
    ensures { OnOk result (out.new.items ≡ out.old.items ++ flat_map further_counter (view_words words.now)) }
{
    for word in words {
        push_counter(out, word)?;
    }
    Ok(())
}
