//! The flows that leave one fewer packets.
ghost use Rattle.std.specs.Prelude.{◌≡◌, ◌↔◌, ℕ, Some, IfNone, IfOk, IfSome, IsTrue, false, true, slice_get};
ghost use Rattle.std.specs.{List.list_all, List.list_any, Str.bytes_eq};
ghost use Rattle.of_oxm.specs.{NormalForm.IsMatch, Relations.overlaps_match};
ghost use Rattle.of_shadowing.specs.{Shadows.AreFlowRivals, Shadows.FlowCovers, Shadows.Precedes, Shadows.is_covering_flow, Worlds.all_hold, Worlds.says_word};

use crate::listed_flow::ListedFlow;
use of_oxm::{covers, overlaps};
use of_regions::Rival;
use of_text::is;
use std::alloc::{AllocError, Global};

// Whether a text is one of these words.
fn is_one_of(words: &[Vec<u8>], text: &[u8]) -> bool
    ensures { result ≡ list_any (λ w. bytes_eq w.items text.now) words.now }
{
    words.iter().any(|word| is(word, text))
}

/// Whether each of these words is among others.
pub fn are_among(words: &[Vec<u8>], others: &[Vec<u8>]) -> bool
    ensures { result ≡ list_all (λ w. list_any (λ o. bytes_eq o.items w.items) others.now) words.now }
{
    words.iter().all(|word| is_one_of(others, word))
}

// Whether a flow goes before another of its table: it has a higher priority, or the same and is older (OpenFlow 1.3.5, 5.3).
fn precedes(other: &ListedFlow, at: usize, own: &ListedFlow, place: usize) -> bool
    ensures { IsTrue result ↔ Precedes other.now at own.now place }
{
    other.table == own.table
        && (own.priority < other.priority || other.priority == own.priority && at < place)
}

// Whether a flow takes each packet that its match matches, where only the words of another hold.
fn needs_no_more(other: &ListedFlow, own: &ListedFlow) -> bool
    ensures { result ≡ all_hold (says_word own.now) other.now }
{
    are_among(&other.words, &own.words)
}

// A flow, if it goes before another, asks for no words but those of the other, and a packet may have both matches (OpenFlow 1.3.5, 5.3 and 6.4).
fn rival_at<'a>(
    at: usize,
    other: &'a ListedFlow,
    place: usize,
    own: &ListedFlow,
) -> Option<Rival<'a>>
    ensures some { IfSome result (λ r. (r.name ≡ at) × (r.fields.now ≡ other.now.fields) × Precedes other.now at own.now place ×
        (all_hold (says_word own.now) other.now ≡ true) × IsMatch other.now.fields) }
    ensures none { IfNone result (Precedes other.now at own.now place → all_hold (says_word own.now) other.now ≡ true →
        overlaps_match other.now.fields own.now.fields ≡ false) }
{
    if !precedes(other, at, own, place) || !needs_no_more(other, own) {
        return None;
    }
    if !overlaps(&other.fields, &own.fields) {
        return None;
    }
    other.fields.known();
    Some(Rival {
        name: at,
        fields: other.fields.fields(),
    })
}

/// The flows that go before the one at a place, ask for no words but its own, and may match some of what it matches, oldest first, each named by
/// its place.
pub fn rivals_of<'a>(
    alloc: Global,
    flows: &'a [ListedFlow],
    place: usize,
    own: &ListedFlow,
) -> Result<Vec<Rival<'a>>, AllocError>
    requires { slice_get flows.now place ≡ Some own.now }
    ensures { IfOk result (λ rivals. AreFlowRivals flows.now place own.now rivals.items) }
{
    let mut rivals = Vec::new(alloc);
    for (at, other) in flows.iter().enumerate() {
        if let Some(rival) = rival_at(at, other, place, own) {
            rivals.push(rival)?;
        }
    }
    Ok(rivals)
}

// Whether the match of the flow at a place covers that of another.
fn covers_own(flows: &[ListedFlow], at: usize, own: &ListedFlow) -> bool
    ensures { result ≡ is_covering_flow (slice_get flows.now at) own.now.fields }
{
    match flows.get(at) {
        None => false,
        Some(other) => covers(&other.fields, &own.fields),
    }
}

/// The oldest flow that covers the one at a place.
pub fn first_cover(
    flows: &[ListedFlow],
    place: usize,
    own: &ListedFlow,
    rivals: &[Rival<'_>],
) -> Option<usize>
    requires there { slice_get flows.now place ≡ Some own.now }
    requires is_match { IsMatch own.now.fields }
    requires are { AreFlowRivals flows.now place own.now rivals.now }
    ensures found { IfSome result (λ j. FlowCovers flows.now j place) }
    ensures none { IfNone result ((j : ℕ) → ¬ (FlowCovers flows.now j place)) }
{
    for rival in rivals {
        if covers_own(flows, rival.name, own) {
            return Some(rival.name);
        }
    }
    None
}
