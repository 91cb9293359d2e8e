//! Laws of traces.
ghost use Rattle.std.specs.Prelude.{◌≡◌, ◌≤◌, ◌<◌, ◌∷◌, ℕ, List, [], Option, Some, length};
ghost use Rattle.of_rewrite.specs.Frames.{IsFrame};
ghost use Rattle.of_machine.specs.{declared.data.Step.Step, TheWorld.TheWorld, Sound.IsSound, Rows.Lookup, Rows.entering, Runs.after, Runs.starting};
ghost use Rattle.of_datapath.specs.{declared.effect.Effect.Effect, Datapath.Forwarding};
ghost use Rattle.of_replay.specs.{Told.Known, Told.Left, FileRuns.Runs, FileRuns.TextOf, FileRuns.flow_text, FileRuns.is_text, declared.event_file.Ended.TheVariants.Done};
ghost use Rattle.of_trace.specs.{Files.trace_of, declared.form.Output.Output, declared.form.Style.Style, declared.form.Form.Form, Notes.plain_trace, Notes.styled, OnlyNotes.OnlyNotesAdded};
ghost use Rattle.of_trace.specs.Sights.{all_stepped, sight_of, sights_of};

/// The steps of a frame tell its packets: after any number of steps of the machine, the packets that are left are, as tables see
/// them and in turn, those that the lines of these steps tell.
pub fn steps_tell_packets()
    ensures { (w : TheWorld) (frame : List ℕ) (port k : ℕ) → IsSound w → IsFrame frame → length frame ≤ 9216 →
        sights_of (after w k (starting (entering frame port) (Lookup 0 ∷ []))).tasks ≡
        all_stepped w (after w k (starting (entering frame port) (Lookup 0 ∷ []))).lines (sight_of (entering frame port) ∷ []) }
{}

/// The text of a trace in any of its forms is the plain text of the same style with notes inserted below its lines: nothing else is
/// added, and nothing is left out.
pub fn notes_only_add()
    ensures { (style : Style) (form : Form) (f : Forwarding) (port : ℕ) (frame : List ℕ) (steps : List Step) (effects : List Effect) →
        OnlyNotesAdded (plain_trace style f port frame steps effects) (styled style form f port frame steps effects) }
{}

/// From the bytes of a file to the bytes of the output, where no read and no write fails and memory suffices: where a reader has `file` left,
/// and its end is read, what a writer holds grows by the text of the trace on the switch of the flow text.
///
/// What is left of a reader and held by a writer is as `files_come_whole` of of_replay says.
pub fn traces_come_whole()
    ensures { (output : Output) (port : ℕ) (frame file : List ℕ) (known : Known) (ends ends' : ℕ) (old new : Option (List ℕ)) →
        Runs flow_text (is_text (trace_of output port frame)) Done (Left (Some file)) known ends ends' old new → ends < ends' →
        TextOf flow_text (is_text (trace_of output port frame)) file old new }
{}
