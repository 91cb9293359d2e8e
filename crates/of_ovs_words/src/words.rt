//! A line as words.
ghost use Rattle.std.specs.Prelude.{◌≡◌, ◌≤◌, ◌<◌, ◌^◌, ◌-◌, ◌==◌, ◌||◌, length, take, drop};
ghost use Rattle.of_ovs_words.specs.Words.{after_word, depth_after as depth_behind, enclosed as enclosed_in, is_gap as is_gap_byte, is_mark as is_mark_byte, marked_in, word_name as name_in, unmarked as unmarked_in, word_value as value_in, word_in};

/// Whether it stands between words.
pub fn is_gap(byte: u8) -> bool
    ensures { result ≡ is_gap_byte byte }
{
    byte == b',' || byte == b' ' || byte == b'\t' || byte == b'\r'
}

fn is_mark(byte: u8) -> bool
    ensures { result ≡ is_mark_byte byte }
{
    byte == b'=' || byte == b':' || byte == b'('
}

// How many parentheses are open after the byte, of so many that were.
fn depth_after(depth: usize, byte: u8) -> usize
    requires { depth < 2 ^ 63 }
    ensures { result ≡ depth_behind depth byte }
{
    match byte {
        b'(' => depth + 1,
        b')' => depth.saturating_sub(1),
        _ => depth,
    }
}

/// The first word, and what comes after the byte that ends it.
pub fn cut_word(bytes: &[u8]) -> (&[u8], &[u8])
    ensures first { result.0.now ≡ word_in 0 bytes.now }
    ensures rest { result.1.now ≡ after_word 0 bytes.now }
    ensures shorter { length result.1.now ≤ length bytes.now - 1 }
{
    let mut depth = 0;
    for (i, byte) in bytes.iter().enumerate() {
        if depth == 0 && is_gap(*byte) {
            return (&bytes[..i], &bytes[i + 1..]);
        }
        depth = depth_after(depth, *byte);
    }
    (bytes, &[])
}

// Where the name of a word ends.
fn name_end(word: &[u8]) -> usize
    ensures name { take result word.now ≡ name_in word.now }
    ensures value { drop result word.now ≡ marked_in word.now }
    ensures small { result ≤ length word.now }
{
    for (i, byte) in word.iter().enumerate() {
        if is_mark(*byte) {
            return i;
        }
    }
    word.len()
}

/// The name of a word: what comes before `=`, `:` or `(`.
pub fn name_of(word: &[u8]) -> &[u8]
    ensures { result.now ≡ name_in word.now }
{
    &word[..name_end(word)]
}

// The closing parenthesis may be missing at the end of a line, as for ovs-ofctl.
fn enclosed(value: &[u8]) -> &[u8]
    ensures { result.now ≡ enclosed_in value.now }
{
    match value {
        [inner @ .., b')'] => inner,
        _ => value,
    }
}

fn unmarked(marked: &[u8]) -> &[u8]
    ensures { result.now ≡ unmarked_in marked.now }
{
    match marked {
        [] => marked,
        [mark, value @ ..] => {
            if *mark == b'(' {
                enclosed(value)
            } else {
                value
            }
        }
    }
}

/// The value of a word: what comes after `=` or `:`, or within the parentheses.
pub fn value_of(word: &[u8]) -> &[u8]
    ensures { result.now ≡ value_in word.now }
{
    unmarked(&word[name_end(word)..])
}
