//! The rows of event files and the lines of flow texts, each by the words that it has.

use std::fmt::{self, Display, Formatter, Write};

/// What a word has to be.
#[derive(Clone, Copy, PartialEq, Eq)]
pub enum Word {
    /// A decimal number up to this one.
    Decimal(u64),
    /// `0x` and two digits for each of this many bytes.
    Hex(usize),
    /// Bytes, two digits each, or `-`.
    Bytes,
    /// 12 hexadecimal digits.
    Hardware,
    PortName,
    /// `up` or `down`.
    State,
    /// `all`, `indirect` or `ff`.
    GroupKind,
    /// A match field, by its name.
    Field,
    /// A value of the field before it.
    Value,
    /// A mask of that field, which may be left out.
    Mask,
}

/// A row or a line: how it begins, its other words, and all as people write it.
#[derive(Clone, Copy)]
pub struct Form {
    pub name: &'static [u8],
    pub words: &'static [Word],
    pub usage: &'static str,
}

pub const BYTE: Word = Word::Decimal(0xff);

pub const HALF: Word = Word::Decimal(0xffff);

pub const NUMBER: Word = Word::Decimal(0xffff_ffff);

/// The rows of event files.
pub const EVENT_ROWS: [Form; 8] = [
    Form {
        name: b"connect",
        words: &[],
        usage: "connect",
    },
    Form {
        name: b"lost",
        words: &[],
        usage: "lost",
    },
    Form {
        name: b"c",
        words: &[Word::Bytes],
        usage: "c HEX",
    },
    Form {
        name: b"f",
        words: &[NUMBER, Word::Bytes],
        usage: "f PORT HEX",
    },
    Form {
        name: b"t",
        words: &[Word::Decimal(u64::MAX)],
        usage: "t NANOSECONDS",
    },
    Form {
        name: b"port add",
        words: &[NUMBER, Word::Hardware, Word::PortName, Word::State],
        usage: "port add N ADDRESS NAME up|down",
    },
    Form {
        name: b"port remove",
        words: &[NUMBER],
        usage: "port remove N",
    },
    Form {
        name: b"port link",
        words: &[NUMBER, Word::State],
        usage: "port link N up|down",
    },
];

/// The lines of flow texts other than those of actions.
pub const FLOW_LINES: [Form; 9] = [
    Form {
        name: b"group",
        words: &[NUMBER, Word::GroupKind],
        usage: "group N all|indirect|ff",
    },
    Form {
        name: b"bucket",
        words: &[HALF, NUMBER, NUMBER],
        usage: "bucket WEIGHT PORT GROUP",
    },
    Form {
        name: b"flow",
        words: &[BYTE, HALF, Word::Hex(8), HALF, HALF, HALF],
        usage: "flow TABLE PRIORITY COOKIE IDLE HARD FLAGS",
    },
    Form {
        name: b"match",
        words: &[Word::Field, Word::Value, Word::Mask],
        usage: "match NAME VALUE, or match NAME VALUE MASK",
    },
    Form {
        name: b"apply",
        words: &[],
        usage: "apply",
    },
    Form {
        name: b"clear",
        words: &[],
        usage: "clear",
    },
    Form {
        name: b"write",
        words: &[],
        usage: "write",
    },
    Form {
        name: b"metadata",
        words: &[Word::Hex(8), Word::Hex(8)],
        usage: "metadata VALUE MASK",
    },
    Form {
        name: b"goto",
        words: &[BYTE],
        usage: "goto TABLE",
    },
];

/// Writes letters.
pub fn write_letters<W: Write>(f: &mut Formatter<W>, letters: &[u8]) -> fmt::Result {
    for letter in letters {
        f.write_char(char::from(*letter))?;
    }
    Ok(())
}

// Writes the names of forms, with commas between them.
fn write_names<W: Write>(f: &mut Formatter<W>, forms: &[Form]) -> fmt::Result {
    let mut comma = "";
    for form in forms {
        f.write_str(comma)?;
        write_letters(f, form.name)?;
        comma = ", ";
    }
    Ok(())
}

/// The names of all rows of event files.
#[derive(Clone, Copy, Debug)]
pub struct RowNames;

impl Display for RowNames {
    fn fmt<W: Write>(&self, f: &mut Formatter<W>) -> fmt::Result {
        write_names(f, &EVENT_ROWS)
    }
}

/// The names of all lines of flow texts, except for those of actions.
#[derive(Clone, Copy, Debug)]
pub struct LineNames;

impl Display for LineNames {
    fn fmt<W: Write>(&self, f: &mut Formatter<W>) -> fmt::Result {
        write_names(f, &FLOW_LINES)
    }
}

/// The words after a name, where a line begins with it.
pub fn behind<'a>(line: &'a [u8], name: &[u8]) -> Option<Option<&'a [u8]>> {
    let rest = line.strip_prefix(name)?;
    match rest.split_first() {
        None => Some(None),
        Some((b' ', words)) => Some(Some(words)),
        Some(_) => None,
    }
}

/// The form that a line begins like, and its other words.
pub fn form_of<'a>(line: &'a [u8], forms: &[Form]) -> Option<(Form, Option<&'a [u8]>)> {
    for form in forms {
        if let Some(words) = behind(line, form.name) {
            return Some((*form, words));
        }
    }
    None
}
