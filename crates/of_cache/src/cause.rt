//! Why rows go.
ghost use Rattle.std.specs.Prelude.{◌≡◌};
ghost use Rattle.of_headers.specs.FieldMap.{value};
ghost use Rattle.of_oxm.specs.Masks.{mask_at};
ghost use Rattle.of_cache.specs.{Regions.meets_seen, Kept.is_answer as answers, Kept.is_beaten as beaten, Causes.goes as does_go};

use crate::dropping::Answer;
use crate::region::Region;
use of_headers::FieldKey;
use of_oxm::FieldMask;

/// Why rows go.
#[derive(Drop)]
pub(crate) enum Cause {
    /// They answer the entry of this number.
    Answers(usize),
    /// An entry is added whose match looks at these bits and asks for these values, of this priority.
    Added(FieldMask, FieldKey, u16),
}

// Whether a match of this mask and these values matches a field map of the region.
fn meets(mask: &FieldMask, key: &FieldKey, region: &Region) -> bool
    ensures { result ≡ meets_seen (mask_at mask.now) (value key.now) region.now }
{
    region.mask.masked(key) == mask.masked(&region.key)
}

fn is_answer(number: usize, answer: &Answer) -> bool
    ensures { result ≡ answers number answer.now }
{
    match answer {
        Some((winner, _)) => *winner == number,
        None => false,
    }
}

// Whether an entry of that priority would win over an answer.
fn is_beaten(priority: u16, answer: &Answer) -> bool
    ensures { result ≡ beaten priority answer.now }
{
    match answer {
        Some((_, held)) => *held < priority,
        None => true,
    }
}

/// Whether a row goes.
pub(crate) fn goes(cause: &Cause, region: &Region, answer: &Answer) -> bool
    ensures { result ≡ does_go cause.now (region.now, answer.now) }
{
    match cause {
        Cause::Answers(number) => is_answer(*number, answer),
        Cause::Added(mask, key, priority) => {
            is_beaten(*priority, answer) && meets(mask, key, region)
        }
    }
}
