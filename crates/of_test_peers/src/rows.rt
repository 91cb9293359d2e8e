//! Tests as rows of a text: each has two sides with ` | ` between them; lines that are empty or begin with `#` are no rows.
use std::alloc::Global;
use std::test::Fail;

/// The two sides of a line; nothing for one that is no row.
pub fn sides(line: &str) -> Result<Option<(&str, &str)>, Fail> {
    if line.is_empty() || line.starts_with('#') {
        return Ok(None);
    }
    Ok(Some(line.split_once(" | ").ok_or("a row has two sides")?))
}

/// The bytes that words of hexadecimal digits encode, one word after the other.
pub fn bytes_of(alloc: Global, words: &str) -> Result<Vec<u8>, Fail> {
    let mut bytes = Vec::new(alloc);
    for word in words.split_whitespace() {
        let part = hex::decode(alloc, word).ok().ok_or("hexadecimal digits")?;
        bytes.extend_from_slice(&part)?;
    }
    Ok(bytes)
}

/// The number that decimal digits encode.
pub fn number_of(digits: &str) -> Result<usize, Fail> {
    let number = usize::from_str_radix(digits, 10).ok();
    Ok(number.ok_or("decimal digits")?)
}
