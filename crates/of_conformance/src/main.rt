//! Replays the event files of data/ by the public `replay`, and says whether each prints what the standard wants: by the
//! classifier of the running switch, by the one below its cache, and by the plain one that walks a list.
#![tactic(auto)]

use of_cache::Cached;
use of_classifier::{Lookup, Scan};
use of_mask_groups::MaskGroups;
use of_replay::memory::{MemorySink, MemorySource};
use of_replay::{Ended, replay};
use std::{fs, io};

/// The event files, each beside the text that it is to print.
const NAMES: &[&str] = &[
    "hello",
    "wrong-version",
    "first-path",
    "three-chunks",
    "single-bytes",
    "one-chunk",
    "two-messages-in-one-chunk",
    "bad-header-length",
    "replaced-flow",
    "frame-lengths",
    "short-flow-mod",
    "bad-flow-mod-length",
    "bad-match-type",
    "bad-instruction-length",
    "bad-action-one",
    "bad-action-two",
    "tag-bit-under-a-mask",
    "fields-of-a-tag",
    "cut-tag",
    "missing-prerequisite",
    "value-bit-outside-mask",
    "first-and-later-fragments",
    "checked-overlap",
    "stale-misses",
    "idle-timeout",
    "hard-before-idle",
    "moment-below-the-latest",
    "second-tag-pushed",
    "vlan-set",
    "absent-layers-left-alone",
    "ttl-of-two-lowered",
    "ttl-and-checksum",
    "udp-port-and-checksum",
    "action-set-order",
    "ttl-expires-between-outputs",
    "table-miss-to-controller",
    "packet-in-whole-without-buffer",
    "packet-out-to-table",
    "packet-out-bad-action",
    "packet-out-bad-length",
    "three-tables",
    "idle-and-hard-timeout",
    "reserved-ports",
    "output-to-ingress-or-absent-port",
    "refused-packet-outs",
    "refused-flow-mods",
    "packet-ins-before-and-after-hello",
    "packet-in-reasons",
    "cleared-set-and-late-miss",
    "frames-in-and-out",
    "hard-timeout-told",
    "packet-out-of-an-absent-buffer",
    "group-deleted-with-its-flow",
    "group-chains",
    "group-of-all",
    "failover-to-the-live-port",
    "group-features",
    "group-references",
    "stale-election",
    "slave",
    "hello-of-version-six",
    "hello-of-version-one-with-bitmap",
    "port-statistics",
    "match-fields-in-another-order",
    "zero-mask",
    "flow-statistics",
    "features",
    "failover-to-no-port",
    "link-down-twice",
    "no-fwd-leaves-a-port-live",
    "watched-groups",
    "bad-buckets",
    "groups-to-the-limit",
    "experimenter",
    "values-above-their-width",
    "refused-port-and-table-mods",
    "full-table",
    "longest-message",
    "seventeen-replies",
    "held-frame-sent-by-packet-out",
    "held-frame-begins-after-an-add",
    "oldest-held-frame-given-up",
    "limits-of-a-packet-in",
    "held-frames-end-with-the-connection",
    "refused-messages-leave-frames-held",
    "packet-ins-not-sent-hold-nothing",
    "limit-of-an-expired-ttl",
    "held-frame-begins-after-a-modify",
    "held-again-under-a-new-id",
    "longest-frame-that-is-held",
];

/// So many event files more were made at random; what they are to print was computed by a model that shares nothing with this code.
const RANDOM: u32 = 80;

/// How many bytes a read gives at most.
const CHUNK: usize = 1000;

/// How the running switch looks entries up.
type Lookups = Cached<MaskGroups>;

const AS_EXPECTED: &str = "as expected";

fn main(rt: HostRuntime) -> io::Result<()> {
    for name in NAMES {
        tell(&rt, name)?;
    }
    for number in 1..=RANDOM {
        tell(&rt, &format!(in rt.alloc(); "random-{number}")?)?;
    }
    Ok(())
}

fn tell(rt: &HostRuntime, name: &str) -> io::Result<()> {
    let events = fs::read_to_string(rt, &format!(in rt.alloc(); "{name}.events")?)?;
    let expected = fs::read_to_string(rt, &format!(in rt.alloc(); "{name}.expected")?)?;
    println!(rt;
        "{name}: {}",
        verdicts(rt, events.as_bytes(), expected.as_bytes())
    )
}

fn verdicts(rt: &HostRuntime, events: &[u8], expected: &[u8]) -> &'static str {
    let by_cache = verdict::<Lookups>(rt, events, expected);
    if by_cache != AS_EXPECTED {
        return by_cache;
    }
    let by_masks = verdict::<MaskGroups>(rt, events, expected);
    if by_masks != AS_EXPECTED {
        return by_masks;
    }
    verdict::<Scan>(rt, events, expected)
}

fn verdict<L: Lookup>(rt: &HostRuntime, events: &[u8], expected: &[u8]) -> &'static str {
    let Ok(mut source) = MemorySource::new(rt.alloc(), events, CHUNK, 0) else {
        return "no memory";
    };
    let mut sink = MemorySink::new(rt.alloc(), CHUNK, 0);
    match replay::<L, _, _>(rt.alloc(), 1, &mut source, &mut sink) {
        Ended::Done if sink.bytes() == expected => AS_EXPECTED,
        Ended::Done => "other output",
        Ended::BadRow(_) => "bad row",
        Ended::Text(_) => "a fault of a text",
        Ended::ReadFault => "read fault",
        Ended::WriteFault => "write fault",
        Ended::NoMemory => "no memory",
    }
}
