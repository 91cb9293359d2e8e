//! How much the text of a trace says.

/// Of which entries a trace says why they won or did not, of the tables that were looked at.
#[derive(Clone, Copy, PartialEq, Eq)]
pub enum Asked {
    Nothing,
    All,
    /// Those of that table and priority.
    Priority { table: u8, priority: u16 },
}

/// How the text of a trace says it.
#[derive(Clone, Copy, PartialEq, Eq)]
pub enum Style {
    /// In the rows of flow text and of event output, for programs.
    Lines,
    /// In words: the frame first, addresses with dots and colons, numbers in decimal, ports and entries by what they are.
    Words,
}

/// What is written of a trace.
#[derive(Clone, Copy, PartialEq, Eq)]
pub enum Output {
    /// Text in lines for programs.
    Lines(Form),
    /// Text in words for people.
    Words(Form),
    /// One JSON document (RFC 8259), without notes.
    Json,
}

/// How much the text of a trace says.
#[derive(Clone, Copy, PartialEq, Eq)]
pub enum Form {
    /// The steps and the effects, a line each.
    Plain,
    /// The same with notes (`explain`).
    Explained,
    /// And why these entries won or did not.
    Why(Asked),
}
