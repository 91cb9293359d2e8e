//! Each call of a switch is one of a list of calls, as of_switch's law on such lists has it: its contract is the step's premise.
ghost use Rattle.of_switch.specs.Calling.{IsMade, Connected, Lost, Fed, Next, Frame, Moment, Changed, Loaded};

use of_classifier::Lookup;
use of_switch::{
    Effects, PortChange, Switch, SwitchError, chunk_handles_its_messages, refusal_changes_nothing,
    two_chunks,
};
use of_text::Config;

/// `connected`.
pub fn connect<L: Lookup>(switch: &mut Switch<L>) -> Result<Effects, SwitchError>
    ensures { IsMade (Connected result) switch.old switch.new }
{
    switch.connected()
}

/// `lost`.
pub fn lose<L: Lookup>(switch: &mut Switch<L>)
    ensures { IsMade Lost switch.old switch.new }
{
    switch.lost();
}

/// `feed`.
pub fn feed<L: Lookup>(switch: &mut Switch<L>, chunk: &[u8]) -> Result<(), SwitchError>
    ensures { IsMade (Fed chunk.now result) switch.old switch.new }
{
    switch.feed(chunk)
}

/// `next`.
pub fn handle<L: Lookup>(switch: &mut Switch<L>) -> Result<Option<Effects>, SwitchError>
    ensures { IsMade (Next result) switch.old switch.new }
{
    switch.next()
}

/// `frame`.
pub fn receive<L: Lookup>(
    switch: &mut Switch<L>,
    port: u32,
    frame: &[u8],
) -> Result<Effects, SwitchError>
    ensures { IsMade (Frame port frame.now result) switch.old switch.new }
{
    switch.frame(port, frame)
}

/// `moment`.
pub fn wait<L: Lookup>(switch: &mut Switch<L>, nanos: u64) -> Result<Effects, SwitchError>
    ensures { IsMade (Moment nanos result) switch.old switch.new }
{
    switch.moment(nanos)
}

/// `port_change`.
pub fn change<L: Lookup>(switch: &mut Switch<L>, change: PortChange) -> Result<Effects, SwitchError>
    ensures { IsMade (Changed change result) switch.old switch.new }
{
    switch.port_change(change)
}

/// `load`.
pub fn load<L: Lookup>(switch: &mut Switch<L>, config: &Config) -> Result<(), SwitchError>
    ensures { IsMade (Loaded config.now result) switch.old switch.new }
{
    switch.load(config)
}

#[test]
fn laws() {
    two_chunks();
    chunk_handles_its_messages();
    refusal_changes_nothing();
}
