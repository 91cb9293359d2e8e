//! Parts of texts.
ghost use Rattle.std.specs.{Prelude.◌≡◌, Prelude.◌<◌, Prelude.length, Prelude.IfSome, Option.option_map};
ghost use Rattle.of_wire.specs.Parts.{before_place, divided, keyword, nth_part};

// The place of the first separator.
fn place_of(separator: u8, text: &[u8]) -> Option<usize>
    ensures place { result ≡ divided separator text.now }
    ensures within { IfSome result (λ place. place < length text.now) }
{
    text.iter().position(|byte| *byte == separator)
}

// The bytes before that place, or all.
fn front_at(text: &[u8], place: Option<usize>) -> &[u8]
    requires { IfSome place (λ place. place < length text.now) }
    ensures { result.now ≡ before_place text.now place }
{
    match place {
        None => text,
        Some(place) => &text[..place],
    }
}

// The part before the first separator, or all.
fn first_part(text: &[u8], separator: u8) -> &[u8]
    ensures { result.now ≡ before_place text.now (divided separator text.now) }
{
    front_at(text, place_of(separator, text))
}

/// The part of a text with that number, from 0 on: parts are between separators. None if there are not so many.
pub fn part_at(text: &[u8], separator: u8, number: usize) -> Option<&[u8]>
    ensures { option_map (λ part. part.now) result ≡ nth_part separator number text.now }
{
    if number == 0 {
        return Some(first_part(text, separator));
    }
    match place_of(separator, text) {
        None => None,
        Some(place) => part_at(&text[place + 1..], separator, number - 1),
    }
}

/// The word in a row of a table, which spaces fill up. (A definition can compute on a constant that holds arrays, but not on one that
/// holds references.)
pub fn keyword(padded: &[u8]) -> &[u8]
    ensures { result.now ≡ keyword padded.now }
{
    first_part(padded, b' ')
}
