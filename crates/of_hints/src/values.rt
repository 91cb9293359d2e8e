//! Values that are written as people write them elsewhere, where a flow text has hexadecimal digits.

/// The value of decimal digits, or None where it is above 64 bits.
pub fn value_of(digits: &[u8]) -> Option<u64> {
    let mut value = 0_u64;
    for digit in digits {
        value = value
            .checked_mul(10)?
            .checked_add(u64::from(digit.wrapping_sub(b'0')))?;
    }
    Some(value)
}

/// Whether it is a decimal number without leading zeros.
pub fn is_decimal(word: &[u8]) -> bool {
    !word.is_empty()
        && word.iter().all(|byte| byte.is_ascii_digit())
        && (word.len() == 1 || word.first() != Some(&b'0'))
}

// One of the four numbers of an IPv4 address.
fn dotted_byte(part: &[u8]) -> Option<u64> {
    if !is_decimal(part) {
        return None;
    }
    value_of(part).filter(|byte| *byte <= 255)
}

// An IPv4 address such as 10.0.0.1.
fn dotted(word: &[u8]) -> Option<u64> {
    if word.split(|byte| *byte == b'.').count() != 4 {
        return None;
    }
    let mut value = 0_u64;
    for part in word.split(|byte| *byte == b'.') {
        value = value.checked_mul(256)?.checked_add(dotted_byte(part)?)?;
    }
    Some(value)
}

fn hex_digit(digit: u8) -> Option<u64> {
    match digit {
        b'0'..=b'9' => Some(u64::from(digit.wrapping_sub(b'0'))),
        b'a'..=b'f' => Some(u64::from(digit.wrapping_sub(b'a').wrapping_add(10))),
        b'A'..=b'F' => Some(u64::from(digit.wrapping_sub(b'A').wrapping_add(10))),
        _ => None,
    }
}

// One or two hexadecimal digits.
fn hex_byte(part: &[u8]) -> Option<u64> {
    match part {
        [digit] => hex_digit(*digit),
        [high, low] => hex_digit(*high)?
            .checked_mul(16)?
            .checked_add(hex_digit(*low)?),
        _ => None,
    }
}

// An Ethernet address such as 02:00:00:00:00:01.
fn with_colons(word: &[u8]) -> Option<u64> {
    if word.split(|byte| *byte == b':').count() != 6 {
        return None;
    }
    let mut value = 0_u64;
    for part in word.split(|byte| *byte == b':') {
        value = value.checked_mul(256)?.checked_add(hex_byte(part)?)?;
    }
    Some(value)
}

// The value of hexadecimal digits: capital ones, fewer than there have to be, or all of them without 0x.
fn hexadecimal(word: &[u8], digits: usize) -> Option<u64> {
    let rest = match word.strip_prefix(b"0x") {
        Some(rest) => rest,
        None if word.len() == digits && (digits == 12 || !is_decimal(word)) => word,
        None => return None,
    };
    if rest.is_empty() || rest.len() > digits {
        return None;
    }
    let mut value = 0_u64;
    for digit in rest {
        value = value.checked_mul(16)?.checked_add(hex_digit(*digit)?)?;
    }
    Some(value)
}

// The largest number of so many hexadecimal digits.
fn largest_of(digits: usize) -> Option<u64> {
    match digits {
        2 => Some(0xff),
        4 => Some(0xffff),
        8 => Some(0xffff_ffff),
        12 => Some(0xffff_ffff_ffff),
        16 => Some(u64::MAX),
        _ => None,
    }
}

/// The value of a field of so many digits that is written as a number in another form, or as an address.
pub fn value_in(word: &[u8], digits: usize) -> Option<u64> {
    let largest = largest_of(digits)?;
    if let Some(value) = hexadecimal(word, digits) {
        return Some(value);
    }
    if is_decimal(word) {
        return value_of(word).filter(|value| *value <= largest);
    }
    match digits {
        8 => dotted(word),
        12 => with_colons(word),
        _ => None,
    }
}

/// The value and the mask of a prefix such as 10.0.0.0/8 or 0x0a000000/8.
pub fn prefix_in(word: &[u8]) -> Option<(u64, u64)> {
    let place = word.iter().position(|byte| *byte == b'/')?;
    let (address, rest) = word.split_at(place);
    let bits = rest.strip_prefix(b"/")?;
    if !is_decimal(bits) {
        return None;
    }
    let bits = value_of(bits).filter(|bits| 1 <= *bits && *bits <= 31)?;
    let free = 32_u64.checked_sub(bits)?;
    let all = u32::MAX.checked_shl(u32::try_from(free).ok()?)?;
    Some((value_in(address, 8)?, u64::from(all)))
}
