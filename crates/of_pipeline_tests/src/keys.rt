//! Keys of frames as texts: each field with its value in hexadecimal digits, as `EthType=800 Ipv4Dst=a000002`.
ghost use Rattle.std.specs.Prelude.{◌≤◌, IfOk};
ghost use Rattle.of_layers.specs.Fields.{ones_of};

use crate::checks::same;
use of_headers::FieldKey;
use of_layers::Field;
use std::alloc::Global;
use std::process::Abort;
use std::test::Fail;

fn is_named(alloc: Global, field: Field, name: &str) -> Result<bool, Fail> {
    Ok(format!(in alloc; "{field:?}")?.as_str() == name)
}

/// The field of a name.
fn field_of(alloc: Global, name: &str) -> Result<Field, Fail> {
    for field in Field::ALL {
        if is_named(alloc, field, name)? {
            return Ok(field);
        }
    }
    Err("a field's name".into())
}

/// A field and its value.
pub(crate) fn value_of(rt: &impl Abort, alloc: Global, word: &str) -> Result<(Field, u128), Fail>
    ensures { IfOk result (λ set. set.1 ≤ ones_of set.0) }
{
    let (name, value) = word.split_once('=').ok_or("a field and its value")?;
    let field = field_of(alloc, name)?;
    let value = u128::from_str_radix(value, 16).ok().ok_or("a value")?;
    assert!(rt; value <= field.row().ones, "{word}");
    Ok((field, value))
}

/// The key that a text says.
pub(crate) fn key_of(rt: &impl Abort, alloc: Global, text: &str) -> Result<FieldKey, Fail> {
    let mut key = FieldKey::empty();
    for word in text.split_whitespace() {
        let (field, value) = value_of(rt, alloc, word)?;
        key = key.with(field, value);
    }
    Ok(key)
}

fn add_value(alloc: Global, text: &mut String, field: Field, value: u128) -> Result<(), Fail> {
    let space = if text.is_empty() { "" } else { " " };
    text.push_str(&format!(in alloc; "{space}{field:?}={value:x}")?)?;
    Ok(())
}

/// What is said of a key, in the order of the fields' numbers.
fn text_of(alloc: Global, key: &FieldKey) -> Result<String, Fail> {
    let mut text = String::new(alloc);
    for field in Field::ALL {
        if let Some(value) = key.get(field) {
            add_value(alloc, &mut text, field, value)?;
        }
    }
    Ok(text)
}

/// Asserts what is said of a key.
pub(crate) fn says(
    rt: &impl Abort,
    alloc: Global,
    what: &str,
    key: &FieldKey,
    wanted: &str,
) -> Result<(), Fail> {
    same(rt, what, &text_of(alloc, key)?.as_str(), &wanted);
    Ok(())
}
