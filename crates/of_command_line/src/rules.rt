//! Which words of a report have a color.
ghost use Rattle.std.specs.Prelude.{IfSome, ◌≤◌, length};

use crate::painting::Color;

/// How far the color of some words goes.
#[derive(Clone, Copy)]
enum Extent {
    /// To their end.
    Words,
    /// To the next comma or colon, or to the end of the line.
    Item,
    /// To the end of the line.
    Line,
}

/// Words that have a color where they stand.
#[derive(Clone, Copy)]
pub struct Rule {
    words: &'static [u8],
    extent: Extent,
    pub color: Color,
}

/// The words of reports that have a color. Of a line it is those of the first rule that it has.
const RULES: [Rule; 26] = [
    // histories
    Rule {
        words: b"    - ",
        extent: Extent::Line,
        color: Color::Red,
    },
    Rule {
        words: b"    + ",
        extent: Extent::Line,
        color: Color::Green,
    },
    // checks
    Rule {
        words: b" never wins",
        extent: Extent::Words,
        color: Color::Red,
    },
    Rule {
        words: b" wins: ",
        extent: Extent::Words,
        color: Color::Green,
    },
    Rule {
        words: b" is undecided",
        extent: Extent::Words,
        color: Color::Yellow,
    },
    Rule {
        words: b" is unreachable",
        extent: Extent::Words,
        color: Color::Yellow,
    },
    Rule {
        words: b" has no table-miss entry",
        extent: Extent::Words,
        color: Color::Yellow,
    },
    Rule {
        words: b" which has no entries",
        extent: Extent::Words,
        color: Color::Yellow,
    },
    Rule {
        words: b" that nothing sees",
        extent: Extent::Words,
        color: Color::Yellow,
    },
    Rule {
        words: b" is unused",
        extent: Extent::Words,
        color: Color::Yellow,
    },
    Rule {
        words: b" has no buckets",
        extent: Extent::Words,
        color: Color::Yellow,
    },
    Rule {
        words: b" the switch does not have it",
        extent: Extent::Words,
        color: Color::Yellow,
    },
    // requirements
    Rule {
        words: b"requirement fails",
        extent: Extent::Words,
        color: Color::Red,
    },
    Rule {
        words: b"requirement holds",
        extent: Extent::Words,
        color: Color::Green,
    },
    Rule {
        words: b"requirement undecided",
        extent: Extent::Words,
        color: Color::Yellow,
    },
    // differences and paths
    Rule {
        words: b"differs by ",
        extent: Extent::Item,
        color: Color::Red,
    },
    Rule {
        words: b"same: ",
        extent: Extent::Words,
        color: Color::Green,
    },
    Rule {
        words: b"path: ",
        extent: Extent::Words,
        color: Color::Green,
    },
    Rule {
        words: b"undecided: ",
        extent: Extent::Words,
        color: Color::Yellow,
    },
    Rule {
        words: b"the switches have different ports",
        extent: Extent::Words,
        color: Color::Red,
    },
    // what wins in a trace, and what leaves
    Rule {
        words: b": entry ",
        extent: Extent::Item,
        color: Color::Green,
    },
    Rule {
        words: b"): wins",
        extent: Extent::Words,
        color: Color::Green,
    },
    Rule {
        words: b": no entry matches",
        extent: Extent::Words,
        color: Color::Yellow,
    },
    Rule {
        words: b"out by port",
        extent: Extent::Item,
        color: Color::Cyan,
    },
    Rule {
        words: b"to the controller",
        extent: Extent::Words,
        color: Color::Cyan,
    },
    Rule {
        words: b"nothing leaves",
        extent: Extent::Words,
        color: Color::Yellow,
    },
];

// Whether words begin at a place of a line.
fn begin_at(words: &[u8], line: &[u8], place: usize) -> bool {
    match line.split_at_checked(place) {
        Some((_, rest)) => rest.starts_with(words),
        None => false,
    }
}

// Where words stand in a line.
fn place_of(words: &[u8], line: &[u8]) -> Option<usize>
    ensures { IfSome result (λ place. place ≤ length line.now) }
{
    for place in 0..line.len() {
        if begin_at(words, line, place) {
            return Some(place);
        }
    }
    None
}

/// The first rule whose words a line has, and where they stand.
pub fn rule_for(line: &[u8]) -> Option<(usize, Rule)>
    ensures { IfSome result (λ found. found.0 ≤ length line.now) }
{
    for rule in &RULES {
        if let Some(place) = place_of(rule.words, line) {
            return Some((place, *rule));
        }
    }
    None
}

// Whether a color ends before a byte behind its words.
fn ends_before(extent: Extent, byte: u8) -> bool {
    match extent {
        Extent::Words => true,
        Extent::Item => byte == b',' || byte == b':' || byte == b'\n',
        Extent::Line => byte == b'\n',
    }
}

/// How far the color of a rule goes in what begins with its words.
pub fn length_of(rule: Rule, text: &[u8]) -> usize
    ensures { result ≤ length text.now }
{
    let mut end = rule.words.len();
    for byte in text.iter().skip(rule.words.len()) {
        if ends_before(rule.extent, *byte) {
            break;
        }
        end = end.saturating_add(1);
    }
    end.min(text.len())
}
