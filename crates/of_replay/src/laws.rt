//! Laws of rows and of whole files.
ghost use Rattle.std.specs.Prelude.{◌≡◌, ◌<◌, ◌++◌, ◌∷◌, ℕ, List, [], None, Option, Some, codes};
ghost use Rattle.std.specs.{List.AllByRecursion, List.flat_map, Io.KnownBytes.Appends};
ghost use Rattle.of_build.specs.Building.{build_text};
ghost use Rattle.of_switch.specs.{State.State, Runs.IsRefused, declared.switch_error.SwitchError.TheVariants.BadPortNumber, declared.port_change.PortChange.TheVariants.Remove};
ghost use Rattle.of_switch.specs.{declared.event.Event.Event, declared.event.Event.TheVariants.Ports};
ghost use Rattle.of_replay.specs.FileRuns.{Runs, TextOf, event_file, flow_text, is_text, switch_text};
ghost use Rattle.of_replay.specs.{Told.Known, Told.Left, Lexing.lines_of_file, Play.PrintsLines, declared.event_file.Ended.TheVariants.Done, Rows.events_in, Rows.row_of_line, Rows.rows_of_lines};
ghost use Rattle.of_replay.specs.{WrittenRows.HasLine, WrittenRows.file_text, WrittenRows.row_text, RowTexts.plain_row_text, RowTexts.row_happened};

/// `port remove 0` changes nothing and always prints `refused 8`: where rows are sent one by one, it marks the end of what the rows
/// before it print.
pub fn mark_changes_nothing()
    ensures row { row_of_line (codes "port remove 0") ≡ Some (Some (Ports (Remove 0))) }
    ensures same { (s : State) → row_happened s (Some (Ports (Remove 0))) ≡ record { report = IsRefused BadPortNumber; state = s } }
    ensures text { (n : ℕ) (s : State) → plain_row_text n s (codes "port remove 0") (Some (Ports (Remove 0))) ≡ codes "refused 8" ++ 10 ∷ [] }
{}

/// From the bytes of a file to the bytes of the output, where no read and no write fails and memory suffices: where a reader has `file` left, and all of
/// it is read, what a writer holds grows by the text of the file's lines, or by that of the configuration or of the switch that it says.
///
/// What a reader has left (std's `remaining`) is what is known of a [`ReaderSource`](crate::streams::ReaderSource), and what a writer
/// holds (std's `contents`) of a [`WriterSink`](crate::streams::WriterSink).
pub fn files_come_whole()
    ensures lines { (text_of : List (List ℕ) → List ℕ) (file : List ℕ) (known : Known) (ends ends' : ℕ) (old new : Option (List ℕ)) →
        PrintsLines text_of Done (Left (Some file)) known ends ends' old new → Appends old new (text_of (lines_of_file file)) }
    ensures asm { (file : List ℕ) (known : Known) (ends ends' : ℕ) (old new : Option (List ℕ)) →
        Runs flow_text (is_text build_text) Done (Left (Some file)) known ends ends' old new → ends < ends' →
        TextOf flow_text (is_text build_text) file old new }
    ensures dis { (file : List ℕ) (known : Known) (ends ends' : ℕ) (old new : Option (List ℕ)) →
        Runs event_file (is_text switch_text) Done (Left (Some file)) known ends ends' old new → ends < ends' →
        TextOf event_file (is_text switch_text) file old new }
{}

/// The text of each row of an event file is read as that row, if it is no longer than a line may be; and the text of a file of
/// such rows as their events, in their order.
pub fn written_rows_are_read()
    ensures row { (row : Option Event) → HasLine row → row_of_line (row_text row) ≡ Some row }
    ensures file { (rows : List (Option Event)) → AllByRecursion HasLine rows →
        rows_of_lines (lines_of_file (file_text rows)) ≡ record { events = flat_map events_in rows; bad = None } }
{}
