//! Words in the rows of tables.
ghost use Rattle.std.specs.Prelude.{◌≡◌, ◌≤◌, ◌<◌, ◌==◌, get_or, length, true};
ghost use Rattle.std.specs.{Char.to_ascii_lowercase, Str.bytes_eq, Str.str_eq_ignore_ascii_case};
ghost use Rattle.of_wire.specs.Parts.{keyword};

use of_wire::keyword;

/// A word of 1 to 20 bytes as an array, which spaces fill up. The check refuses another one: it has no byte at that index.
macro_rules! padded {
    ($word:expr) => {
        [
            $word[if 20 < $word.len() { $word.len() } else { 0 }],
            if 1 < $word.len() { $word[1] } else { b' ' },
            if 2 < $word.len() { $word[2] } else { b' ' },
            if 3 < $word.len() { $word[3] } else { b' ' },
            if 4 < $word.len() { $word[4] } else { b' ' },
            if 5 < $word.len() { $word[5] } else { b' ' },
            if 6 < $word.len() { $word[6] } else { b' ' },
            if 7 < $word.len() { $word[7] } else { b' ' },
            if 8 < $word.len() { $word[8] } else { b' ' },
            if 9 < $word.len() { $word[9] } else { b' ' },
            if 10 < $word.len() { $word[10] } else { b' ' },
            if 11 < $word.len() { $word[11] } else { b' ' },
            if 12 < $word.len() { $word[12] } else { b' ' },
            if 13 < $word.len() { $word[13] } else { b' ' },
            if 14 < $word.len() { $word[14] } else { b' ' },
            if 15 < $word.len() { $word[15] } else { b' ' },
            if 16 < $word.len() { $word[16] } else { b' ' },
            if 17 < $word.len() { $word[17] } else { b' ' },
            if 18 < $word.len() { $word[18] } else { b' ' },
            if 19 < $word.len() { $word[19] } else { b' ' },
        ]
    };
}

pub(crate) use padded;

// Whether both have the same letter there, in any case.
fn is_alike_at(padded: &[u8], word: &[u8], place: usize) -> bool
    requires within { place < length word.now }
    requires long { length word.now ≤ length padded.now }
    ensures { result ≡ (to_ascii_lowercase (get_or padded.now place 0) == to_ascii_lowercase (get_or word.now place 0)) }
{
    padded[place].eq_ignore_ascii_case(&word[place])
}

// Whether the word may be the one in the array: both begin and end with the same letters. That spares most comparisons of all letters.
fn is_alike(padded: &[u8], word: &[u8]) -> bool
    ensures { str_eq_ignore_ascii_case (keyword padded.now) word.now ≡ true → result ≡ true }
{
    if word.is_empty() {
        return true;
    }
    if padded.len() < word.len() {
        return false;
    }
    is_alike_at(padded, word, 0) && is_alike_at(padded, word, word.len() - 1)
}

/// Whether the word is the one in the array.
pub fn is_keyword(padded: &[u8], word: &[u8]) -> bool
    ensures { result ≡ bytes_eq (keyword padded.now) word.now }
{
    is_alike(padded, word) && keyword(padded) == word
}

/// Whether the word is the one in the array, in any case.
pub fn is_keyword_in_any_case(padded: &[u8], word: &[u8]) -> bool
    ensures { result ≡ str_eq_ignore_ascii_case (keyword padded.now) word.now }
{
    is_alike(padded, word) && keyword(padded).eq_ignore_ascii_case(word)
}
