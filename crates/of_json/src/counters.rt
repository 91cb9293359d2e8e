//! What a dump counted of a flow.
ghost use Rattle.std.specs.Prelude.{◌≡◌, ◌++◌, OnOk};
ghost use Rattle.of_values.specs.Origins.{view_words};
ghost use Rattle.of_json.specs.{Parts.listed, Strings.counter_member, Strings.counters_member};

use crate::listing::push_listed;
use crate::parts::push_key;
use crate::strings::push_string;
use of_ovs_words::{name_of, value_of};
use std::alloc::AllocError;

// Appends a name and a value.
#[tactic(auto, unfolding(crate::specs::Strings::counter_member))]
fn push_counter(out: &mut Vec<u8>, word: &[u8]) -> Result<(), AllocError>
    ensures { OnOk result (out.new.items ≡ out.old.items ++ counter_member word.now) }
{
    push_string(out, name_of(word))?;
    out.push(b':')?;
    push_string(out, value_of(word))
}

fn push_counter_members(out: &mut Vec<u8>, words: &[Vec<u8>]) -> Result<(), AllocError>
    ensures { OnOk result (out.new.items ≡ out.old.items ++ listed counter_member (view_words words.now)) }
{
    push_listed(out, words, |out, word| push_counter(out, word))
}

/// Appends a further member: words that a dump counts, such as `n_packets=12`, as an object.
#[tactic(auto, unfolding(crate::specs::Strings::counters_member))]
pub fn push_counters_member(out: &mut Vec<u8>, words: &[Vec<u8>]) -> Result<(), AllocError>
    ensures { OnOk result (out.new.items ≡ out.old.items ++ counters_member (view_words words.now)) }
{
    out.push(b',')?;
    push_key(out, b"counters")?;
    out.push(b'{')?;
    push_counter_members(out, words)?;
    out.push(b'}')?;
    Ok(())
}
