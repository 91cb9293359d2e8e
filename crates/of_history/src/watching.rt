//! The history of a view of a switch.
ghost use Rattle.std.specs.Prelude.{◌≡◌, ◌++◌, [], IfErr, IfOk, OnOk};
ghost use Rattle.of_text.specs.Lines.{lines_of};
ghost use Rattle.of_switch.specs.{declared.switch_error.SwitchError.TheVariants.NoMemory, State.start, declared.event.Event.Event, declared.event.Event.TheVariants.Chunk};
ghost use Rattle.of_switch.specs.Runs.{drained, happened};
ghost use Rattle.of_replay.specs.{Rows.with_bytes, RowTexts.row_happened, RowTexts.told};
ghost use Rattle.of_history.specs.Turns.{HandlesFirst, all_message_turns, event_turns, first_handled, turn_of};
ghost use Rattle.of_history.specs.Changes.{bad_from, told_change, history_of, row_cause, row_expiring, turns_told};
ghost use Rattle.of_history.specs.{Causes.Row as ARow, Causes.by_row as caused_by, Sights.sight_text};

use crate::cause::{By, Cause, by_row};
use crate::reason::reason_of;
use crate::sight::Sight;
use crate::telling::ChangeTeller;
use crate::view::View;
use of_classifier::Lookup;
use of_replay::{Row, play_row, read_row};
use of_switch::{Switch, SwitchError};
use of_text::{cut, is};
use of_wire::front_part;
use std::alloc::{AllocError, Global};

/// How many bytes a message's header has (OpenFlow 1.3.5, 7.1).
const HEADER: usize = 8;

// The bytes that are handled first.
fn handled_first(pending: &[u8]) -> &[u8]
    ensures { result.now ≡ first_handled pending.now }
{
    let size = match pending {
        [_, _, high, low, ..] => usize::from(*high) * 256 + usize::from(*low),
        _ => 0,
    };
    front_part(pending, size.max(HEADER))
}

/// A switch whose rows are played, and how a view of it has changed.
#[derive(Drop)]
struct Watching<L: Lookup, V: View<L> + Drop, T: ChangeTeller + Drop> {
    alloc: Global,
    switch: Switch<L>,
    view: V,
    teller: T,
    // the view of the switch
    seen: Sight,
    // what was said of its changes
    out: Vec<u8>,
}

impl<L: Lookup, V: View<L> + Drop, T: ChangeTeller + Drop> Watching<L, V, T> {
    // Says what changed, if something did.
    fn tell(&mut self, cause: &Cause<'_>, seen: &Sight) -> Result<(), AllocError>
        ensures said { OnOk result (self.new.out.items ≡ self.old.out.items
            ++ told_change T.text cause.now (sight_text self.old.seen) (sight_text seen.now)) }
        ensures kept { (self.new.switch ≡ self.old.switch) × (self.new.view ≡ self.old.view) × (self.new.seen ≡ self.old.seen) }
    {
        let (old, new) = (self.seen.text(), seen.text());
        if is(old, new) {
            return Ok(());
        }
        let reason = reason_of(self.alloc, cause, old, new)?;
        self.teller
            .tell(self.alloc, &mut self.out, cause, reason, old, new)
    }

    // Looks at the switch after a turn, and says what that changed.
    fn look_again(&mut self, cause: &Cause<'_>) -> Result<(), AllocError>
        ensures said { OnOk result (self.new.out.items ≡ self.old.out.items
            ++ told_change T.text cause.now (sight_text self.old.seen) (sight_text self.new.seen)) }
        ensures seen { OnOk result (sight_text self.new.seen ≡ V.seen self.old.view self.old.switch.core.forwarding) }
        ensures kept { (self.new.switch ≡ self.old.switch) × (self.new.view ≡ self.old.view) }
    {
        let Some(seen) = self.view.look(self.alloc, &self.switch, &self.seen)? else {
            return Ok(());
        };
        self.tell(cause, &seen)?;
        self.seen = seen;
        Ok(())
    }

    // Handles the first message, whose bytes it keeps; false where there is none.
    fn handle(&mut self, message: &mut Vec<u8>) -> Result<bool, SwitchError>
        ensures handles { IfOk result (λ some. HandlesFirst some self.old.switch self.new.switch message.new.items) }
        ensures kept { (self.new.view ≡ self.old.view) × (self.new.seen ≡ self.old.seen) × (self.new.out ≡ self.old.out) }
        ensures err { IfErr result (λ e. e ≡ NoMemory) }
    {
        message.clear();
        message.extend_from_slice(handled_first(self.switch.pending()))?;
        Ok(self.switch.next()?.is_some())
    }

    // Handles all messages that are there, and says what each of them changed.
    fn tell_messages(&mut self, number: u64, line: &[u8]) -> Result<(), SwitchError>
        requires { sight_text self.old.seen ≡ V.seen self.old.view self.old.switch.core.forwarding }
        ensures said { OnOk result (self.new.out.items ≡ self.old.out.items
            ++ turns_told T.text (V.seen self.old.view) (row_cause number line.now ARow) 1 self.old.switch (all_message_turns self.old.switch)) }
        ensures switch { OnOk result (self.new.switch ≡ (drained self.old.switch).state) }
        ensures seen { OnOk result (sight_text self.new.seen ≡ V.seen self.old.view self.new.switch.core.forwarding) }
        ensures view { self.new.view ≡ self.old.view }
        ensures err { IfErr result (λ e. e ≡ NoMemory) }
    {
        // no more messages than bytes
        let _most = self.switch.pending().len();
        let mut turn = 0;
        let mut message = Vec::new(self.alloc);
        while self.handle(&mut message)? {
            turn += 1;
            self.look_again(&Cause {
                number,
                line,
                by: By::Message(turn),
                text: &message,
            })?;
        }
        Ok(())
    }

    // A row of the controller's bytes.
    fn tell_chunk(&mut self, number: u64, line: &[u8], chunk: &[u8]) -> Result<(), SwitchError>
        requires { sight_text self.old.seen ≡ V.seen self.old.view self.old.switch.core.forwarding }
        ensures said { OnOk result (self.new.out.items ≡ self.old.out.items
            ++ turns_told T.text (V.seen self.old.view) (row_cause number line.now ARow) 1 self.old.switch (event_turns (Chunk chunk.now) self.old.switch)) }
        ensures switch { OnOk result (self.new.switch ≡ (happened (Chunk chunk.now) self.old.switch).state) }
        ensures seen { OnOk result (sight_text self.new.seen ≡ V.seen self.old.view self.new.switch.core.forwarding) }
        ensures view { self.new.view ≡ self.old.view }
        ensures err { IfErr result (λ e. e ≡ NoMemory) }
    {
        match self.switch.feed(chunk) {
            Ok(()) => self.tell_messages(number, line),
            Err(SwitchError::NoMemory) => Err(SwitchError::NoMemory),
            Err(_) => Ok(()),
        }
    }

    // What expires in a row.
    fn expiring(&self, row: Row, bytes: &[u8]) -> Result<Vec<u8>, AllocError>
        ensures { IfOk result (λ lines. lines.items ≡ row_expiring (V.expiring self.now.view) self.now.switch (with_bytes bytes.now row)) }
    {
        match row {
            Row::Moment { nanos } => {
                let moment = self.switch.datapath().tables.latest().max(nanos);
                self.view.look_ahead(self.alloc, &self.switch, moment)
            }
            Row::Passed
            | Row::Connect
            | Row::Lost
            | Row::Chunk
            | Row::Frame { .. }
            | Row::Ports(_) => Ok(Vec::new(self.alloc)),
        }
    }

    // A row that is one turn.
    fn tell_whole(&mut self, cause: &Cause<'_>, row: Row, bytes: &[u8]) -> Result<(), SwitchError>
        requires { sight_text self.old.seen ≡ V.seen self.old.view self.old.switch.core.forwarding }
        ensures said { (event : Event) → with_bytes bytes.now row ≡ Some event → OnOk result (self.new.out.items ≡ self.old.out.items
            ++ turns_told T.text (V.seen self.old.view) cause.now 1 self.old.switch
            (turn_of (happened event self.old.switch).report (happened event self.old.switch).state)) }
        ensures switch { OnOk result (self.new.switch ≡ (row_happened self.old.switch (with_bytes bytes.now row)).state) }
        ensures seen { OnOk result (sight_text self.new.seen ≡ V.seen self.old.view self.new.switch.core.forwarding) }
        ensures view { self.new.view ≡ self.old.view }
        ensures err { IfErr result (λ e. e ≡ NoMemory) }
    {
        match play_row(self.alloc, &mut self.switch, row, bytes) {
            Ok(_) => Ok(self.look_again(cause)?),
            Err(SwitchError::NoMemory) => Err(SwitchError::NoMemory),
            Err(_) => Ok(()),
        }
    }

    // The same, with what expires in it.
    fn tell_single(
        &mut self,
        number: u64,
        line: &[u8],
        row: Row,
        bytes: &[u8],
    ) -> Result<(), SwitchError>
        requires { sight_text self.old.seen ≡ V.seen self.old.view self.old.switch.core.forwarding }
        ensures said { (event : Event) → with_bytes bytes.now row ≡ Some event → OnOk result (self.new.out.items ≡ self.old.out.items
            ++ turns_told T.text (V.seen self.old.view) (row_cause number line.now
            (caused_by (row_expiring (V.expiring self.old.view) self.old.switch (with_bytes bytes.now row)) (with_bytes bytes.now row)))
            1 self.old.switch (turn_of (happened event self.old.switch).report (happened event self.old.switch).state)) }
        ensures switch { OnOk result (self.new.switch ≡ (row_happened self.old.switch (with_bytes bytes.now row)).state) }
        ensures seen { OnOk result (sight_text self.new.seen ≡ V.seen self.old.view self.new.switch.core.forwarding) }
        ensures view { self.new.view ≡ self.old.view }
        ensures err { IfErr result (λ e. e ≡ NoMemory) }
    {
        let expired = self.expiring(row, bytes)?;
        let cause = Cause {
            number,
            line,
            by: by_row(row),
            text: &expired,
        };
        self.tell_whole(&cause, row, bytes)
    }

    // Plays the row of a line, and says what its turns changed.
    fn tell_row(
        &mut self,
        number: u64,
        line: &[u8],
        row: Row,
        bytes: &[u8],
    ) -> Result<(), SwitchError>
        requires { sight_text self.old.seen ≡ V.seen self.old.view self.old.switch.core.forwarding }
        ensures said { OnOk result (self.new.out.items ≡ self.old.out.items
            ++ history_of T.text (V.seen self.old.view) (V.expiring self.old.view) number self.old.switch line.now (with_bytes bytes.now row)) }
        ensures switch { OnOk result (self.new.switch ≡ (row_happened self.old.switch (with_bytes bytes.now row)).state) }
        ensures seen { OnOk result (sight_text self.new.seen ≡ V.seen self.old.view self.new.switch.core.forwarding) }
        ensures view { self.new.view ≡ self.old.view }
        ensures err { IfErr result (λ e. e ≡ NoMemory) }
    {
        match row {
            Row::Passed => Ok(()),
            Row::Chunk => self.tell_chunk(number, line, bytes),
            Row::Connect | Row::Lost | Row::Frame { .. } | Row::Moment { .. } | Row::Ports(_) => {
                self.tell_single(number, line, row, bytes)
            }
        }
    }

    // Plays the rows of lines up to a bad one, whose number from 1 it returns.
    fn tell_lines(&mut self, file: &[u8]) -> Result<Option<u64>, SwitchError>
        requires { sight_text self.old.seen ≡ V.seen self.old.view self.old.switch.core.forwarding }
        ensures said { OnOk result (self.new.out.items ≡ self.old.out.items
            ++ told self.old.switch (history_of T.text (V.seen self.old.view) (V.expiring self.old.view)) (lines_of file.now)) }
        ensures bad { IfOk result (λ bad. bad ≡ bad_from 1 (lines_of file.now)) }
        ensures err { IfErr result (λ e. e ≡ NoMemory) }
    {
        let mut bytes = Vec::new(self.alloc);
        let mut rest = file;
        let mut number = 1;
        while !rest.is_empty() {
            let (line, after) = cut(rest, b'\n');
            let Some(row) = read_row(line, &mut bytes)? else {
                return Ok(Some(number));
            };
            self.tell_row(number, line, row, &bytes)?;
            rest = after;
            number += 1;
        }
        Ok(None)
    }
}

/// How a view of a switch changed while the rows of a file were played.
#[derive(Drop)]
pub struct LogHistory {
    pub text: Vec<u8>,
    /// The number of the line, from 1, that is a bad row: no further line was played.
    pub bad: Option<u64>,
}

/// Plays the rows of an event file (docs/EVENTS.md) on a new switch without a connection, flows and ports, and says at which of them a view of
/// the switch changes: after which message of the controller, which change of a port, or which time.
///
/// It fails only where memory runs out.
pub fn history<L: Lookup, V: View<L> + Drop, T: ChangeTeller + Drop>(
    alloc: Global,
    dpid: u64,
    view: V,
    teller: T,
    file: &[u8],
) -> Result<LogHistory, SwitchError>
    ensures text { IfOk result (λ h. h.text.items ≡ told (start dpid) (history_of T.text (V.seen view) (V.expiring view)) (lines_of file.now)) }
    ensures bad { IfOk result (λ h. h.bad ≡ bad_from 1 (lines_of file.now)) }
    ensures err { IfErr result (λ e. e ≡ NoMemory) }
{
    let switch = Switch::<L>::new(alloc, dpid)?;
    let nothing = Sight::Plain(Vec::new(alloc));
    let seen = view.look(alloc, &switch, &nothing)?.unwrap_or(nothing);
    let mut watching = Watching {
        alloc,
        switch,
        view,
        teller,
        seen,
        out: Vec::new(alloc),
    };
    let bad = watching.tell_lines(file)?;
    Ok(LogHistory {
        text: watching.out,
        bad,
    })
}
