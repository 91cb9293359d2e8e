//! Calls on a living switch, which is in memory of the caller.
//!
//! The caller lends that memory to each call: what a call owns there is the switch before it, and what it leaves there is the switch after it.
ghost use Rattle.std.specs.{Prelude.◌≡◌, Prelude.Option, Prelude.Some, Borrow.sem, Mem.type_size, Ptr.points_to, Ptr.uninit_at};
ghost use Rattle.of_switch.specs.{declared.event.Event.Event, State.State};
ghost use Rattle.of_replay.specs.Rows.{row_of_line};
ghost use Rattle.of_c.specs.contracts.live.Live as of_live;
ghost use Rattle.of_c.specs.{Answers.Gives, Living.IsNew, Living.IsLiveRow, Living.IsLiveStep};

use crate::answer::Answer;
use crate::live::{Live, bytes_in, end, frame_in, moment_in, row_in};
use std::alloc::Global;

/// How many bytes of memory a switch takes. They are aligned to 16.
#[unsafe(no_mangle)]
pub extern "C" fn ofswitch_size() -> usize
    ensures { result ≡ type_size of_live.the_row }
{
    std::mem::size_of::<Live>()
}

/// A new switch with that datapath id begins in this memory (OpenFlow 1.3.5, 7.3.1).
#[unsafe(no_mangle)]
pub unsafe extern "C" fn ofswitch_begin(alloc: Global, dpid: u64, at: *mut u8)
    requires* { sem 𝓛 (uninit_at of_live.the_row at) }
    ensures* { ∃ₛ (λ (after : Option State). sem 𝓛 (points_to of_live.the_row at after) ∗ ⌜ IsNew dpid after ⌝) }
{
    let live = Live::new(alloc, dpid);
    let at = at as *mut Live;
    unsafe { at.write(live) };
}

/// A row of an event file happens, without the end of its line, and gives what `replay` prints for it (docs/EVENTS.md).
///
/// Status 2: it is none, and nothing happened. 3: memory ran out, and the switch is lost.
#[unsafe(no_mangle)]
pub unsafe extern "C" fn ofswitch_row(at: *mut u8, row: &[u8], text: &mut [u8], answer: &mut Answer)
    ghost before: { Option State }
    requires* { sem 𝓛 (points_to of_live.the_row at before) }
    ensures* { ∃ₛ (λ (after : Option State). sem 𝓛 (points_to of_live.the_row at after) ∗
        ⌜ Gives (IsLiveRow (row_of_line row.now) before after) answer.new text.old text.new ⌝) }
{
    let live = unsafe { &mut *(at as *mut Live) };
    row_in(live, row, text, answer)
}

/// Bytes of the controller are received, cut anywhere: a row `c`.
///
/// Status 3: memory ran out, and the switch is lost.
#[unsafe(no_mangle)]
pub unsafe extern "C" fn ofswitch_feed(
    at: *mut u8,
    bytes: &[u8],
    text: &mut [u8],
    answer: &mut Answer,
)
    ghost before: { Option State }
    requires* { sem 𝓛 (points_to of_live.the_row at before) }
    ensures* { ∃ₛ (λ (after : Option State). sem 𝓛 (points_to of_live.the_row at after) ∗
        ⌜ Gives (IsLiveStep (Some (Event.Chunk bytes.now)) before after) answer.new text.old text.new ⌝) }
{
    let live = unsafe { &mut *(at as *mut Live) };
    bytes_in(live, bytes, text, answer)
}

/// A frame is received at a port: a row `f`.
///
/// Status 3: memory ran out, and the switch is lost.
#[unsafe(no_mangle)]
pub unsafe extern "C" fn ofswitch_frame(
    at: *mut u8,
    port: u32,
    frame: &[u8],
    text: &mut [u8],
    answer: &mut Answer,
)
    ghost before: { Option State }
    requires* { sem 𝓛 (points_to of_live.the_row at before) }
    ensures* { ∃ₛ (λ (after : Option State). sem 𝓛 (points_to of_live.the_row at after) ∗
        ⌜ Gives (IsLiveStep (Some (Event.Frame port frame.now)) before after) answer.new text.old text.new ⌝) }
{
    let live = unsafe { &mut *(at as *mut Live) };
    frame_in(live, port, frame, text, answer)
}

/// The time is this many nanoseconds after the start: a row `t`.
///
/// Status 3: memory ran out, and the switch is lost.
#[unsafe(no_mangle)]
pub unsafe extern "C" fn ofswitch_moment(
    at: *mut u8,
    nanos: u64,
    text: &mut [u8],
    answer: &mut Answer,
)
    ghost before: { Option State }
    requires* { sem 𝓛 (points_to of_live.the_row at before) }
    ensures* { ∃ₛ (λ (after : Option State). sem 𝓛 (points_to of_live.the_row at after) ∗
        ⌜ Gives (IsLiveStep (Some (Event.Moment nanos)) before after) answer.new text.old text.new ⌝) }
{
    let live = unsafe { &mut *(at as *mut Live) };
    moment_in(live, nanos, text, answer)
}

/// Gives back the memory of a switch, except that in which it is.
#[unsafe(no_mangle)]
pub unsafe extern "C" fn ofswitch_end(at: *mut u8)
    ghost before: { Option State }
    requires* { sem 𝓛 (points_to of_live.the_row at before) }
    ensures* { sem 𝓛 (uninit_at of_live.the_row at) }
{
    let at = at as *mut Live;
    let live = unsafe { at.read() };
    end(live);
}
