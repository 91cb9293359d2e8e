use of_import::Why;
use of_import_report::{import_as_json, why_words};
use of_ovs_lines::Mode;
use std::test::Fail;

/// A line that is left out, and a flow that loses an action.
const SKIPPED: &[u8] = b"actions=ct(commit)
actions=NORMAL,2
";

const SKIPPED_JSON: &str =
    r##"{"version":1,"command":"import","imported":true,"left_out":2,"faults":[{"line":1,"words":[{"word":"ct(commit)","why":"not supported by this switch, or not an ovs-ofctl keyword"}]}],"refused":[],"keywords":[{"keyword":"ct","lines":1}],"tables":[],"groups":[],"flows":[{"line":2,"table":0,"priority":32768,"match":{},"counters":{},"without":["NORMAL"],"resubmit":false}],"text":["# part of a table: 1 lines left out","# line 1 left out: ct(commit)","# line 2 without action NORMAL","flow 0 32768 0x0000000000000000 0 0 0","apply","output 2 0"]}
"##;

const SKIP: Mode = Mode {
    skip: true,
    renumber: false,
};

#[test]
fn what_is_left_out_is_in_json(rt: HostRuntime) -> Result<(), Fail> {
    let found = import_as_json(rt.alloc(), SKIPPED, SKIP)
        .ok()
        .ok_or("no memory")?;
    assert!(rt; found.json.as_slice() == SKIPPED_JSON.as_bytes());
    assert!(rt; found.left_out == Some(2));
    Ok(())
}

const WHYS: [Why; 22] = [
    Why::Unknown,
    Why::Value,
    Why::PortName,
    Why::Protocol,
    Why::Missing,
    Why::Again,
    Why::Alone,
    Why::Order,
    Why::Twice,
    Why::Truncates,
    Why::Command,
    Why::Table,
    Why::Backward,
    Why::NeedsTag,
    Why::NeedsIp,
    Why::NeedsIpv4,
    Why::NeedsIpv6,
    Why::NeedsArp,
    Why::NeedsTcp,
    Why::NeedsUdp,
    Why::NeedsIcmp,
    Why::NeedsIcmp6,
];

// JSON and standard error say the same.
#[test]
fn reasons_are_those_that_are_displayed(rt: HostRuntime) -> Result<(), Fail> {
    for why in WHYS {
        assert!(rt; format!(in rt.alloc(); "{why}")?.as_bytes() == why_words(why));
    }
    Ok(())
}
