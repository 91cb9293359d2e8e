//! The tables to which actions lead.
ghost use Rattle.std.specs.{Prelude.◌≡◌, Prelude.◌||◌, Prelude.◌==◌, Prelude.OnOk, Str.str_eq_ignore_ascii_case};
ghost use Rattle.of_shadowing.specs.Leads.{ends_piece as ends_piece_so, no_scan, piece_ended, view_scan, with_action_led, with_byte, with_name, with_next_piece, with_table_led, with_table_if};

use of_ovs_words::{is_gap, name_of, numbered, value_of};
use std::alloc::{AllocError, Global};
use std::mem;

/// What the next piece of an action is: a name, perhaps with its value; a port, behind which is a table; or a table.
#[derive(Clone, Copy)]
pub enum Next {
    Name,
    Port,
    Table,
}

/// The tables to which the actions of a flow lead.
#[derive(Drop)]
pub struct Leads {
    pub tables: Vec<u8>,
    /// Whether some action may lead to any table: it has the name of a table, or sends to a group.
    pub anywhere: bool,
}

/// The text of actions, which is read piece by piece.
#[derive(Drop)]
pub struct Scan {
    pub leads: Leads,
    pub next: Next,
    /// The bytes since the last separator.
    pub piece: Vec<u8>,
}

fn is_called(name: &[u8], word: &[u8]) -> bool
    ensures { result ≡ str_eq_ignore_ascii_case name.now word.now }
{
    name.eq_ignore_ascii_case(word)
}

// Whether it stands between pieces.
fn ends_piece(byte: u8) -> bool
    ensures { result ≡ ends_piece_so byte }
{
    is_gap(byte) || byte == b'(' || byte == b')'
}

impl Scan {
    /// Of no action.
    pub fn new(alloc: Global) -> Scan
        ensures { view_scan result ≡ no_scan }
    {
        let leads = Leads {
            tables: Vec::new(alloc),
            anywhere: false,
        };
        Scan {
            leads,
            next: Next::Name,
            piece: Vec::new(alloc),
        }
    }

    fn add_table(&mut self, digits: &[u8]) -> Result<(), AllocError>
        ensures { OnOk result (view_scan self.new ≡ with_table_led (view_scan self.old) digits.now) }
    {
        self.next = Next::Name;
        match numbered(255, digits) {
            Ok(table) => self.leads.tables.push(table as u8)?,
            Err(_) => self.leads.anywhere = true,
        }
        Ok(())
    }

    fn add_table_if(&mut self, digits: &[u8]) -> Result<(), AllocError>
        ensures { OnOk result (view_scan self.new ≡ with_table_if (view_scan self.old) digits.now) }
    {
        if digits.is_empty() {
            self.next = Next::Table;
            return Ok(());
        }
        self.add_table(digits)
    }

    fn add_name(&mut self, name: &[u8], value: &[u8]) -> Result<(), AllocError>
        ensures { OnOk result (view_scan self.new ≡ with_name (view_scan self.old) name.now value.now) }
    {
        if is_called(name, b"group") {
            self.leads.anywhere = true;
        } else if is_called(name, b"resubmit") && value.is_empty() {
            self.next = Next::Port;
        } else if is_called(name, b"goto_table") || is_called(name, b"table") {
            return self.add_table_if(value);
        }
        Ok(())
    }

    fn add_piece(&mut self, piece: &[u8]) -> Result<(), AllocError>
        ensures { OnOk result (view_scan self.new ≡ with_next_piece (view_scan self.old) self.old.next piece.now) }
    {
        match self.next {
            Next::Name => self.add_name(name_of(piece), value_of(piece)),
            Next::Port => {
                self.next = Next::Table;
                Ok(())
            }
            Next::Table => self.add_table(piece),
        }
    }

    fn end_piece(&mut self, alloc: Global) -> Result<(), AllocError>
        ensures { OnOk result (view_scan self.new ≡ piece_ended (view_scan self.old)) }
    {
        let piece = mem::replace(&mut self.piece, Vec::new(alloc));
        self.add_piece(&piece)
    }

    fn add_byte(&mut self, alloc: Global, byte: u8) -> Result<(), AllocError>
        ensures { OnOk result (view_scan self.new ≡ with_byte (view_scan self.old) byte) }
    {
        if ends_piece(byte) {
            return self.end_piece(alloc);
        }
        self.piece.push(byte)?;
        Ok(())
    }

    /// Adds an action.
    pub fn add(&mut self, alloc: Global, action: &[u8]) -> Result<(), AllocError>
        ensures { OnOk result (view_scan self.new ≡ with_action_led (view_scan self.old) action.now) }
    {
        if is_called(name_of(action), b"learn") {
            return Ok(());
        }
        for byte in action {
            self.add_byte(alloc, *byte)?;
        }
        self.end_piece(alloc)
    }
}
