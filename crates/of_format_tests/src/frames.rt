use crate::checks::{is_written, same};
use of_frame_words::{is_frame_words, read_conditions, read_frame};
use std::alloc::Global;
use std::test::Fail;

/// Words and, in the order of the headers, the bytes of the frame that they say.
const WORDS: &str = "udp,in_port=2,nw_src=10.0.0.1,tp_dst=53";

const FRAME: &str =
    "0000000000000000000000000800 4500001c00000000401170d10a00000100000000 000000350008f5a8";

/// Words of a match, and how many fields it has.
const CONDITIONS: &[(&str, usize)] = &[
    ("ip,nw_dst=10.0.0.0/8", 2),
    ("in_port=3,tcp,tp_dst=80,dl_vlan=5,dl_vlan_pcp=2", 6),
    ("nw_dst=0.0.0.0/0", 0),
];

fn count_of(alloc: Global, words: &str) -> Result<usize, Fail> {
    let fields = read_conditions(alloc, words.as_bytes()).ok();
    Ok(fields.ok_or("conditions")?.len())
}

#[test]
fn frame_in_words(rt: HostRuntime) -> Result<(), Fail> {
    let received = read_frame(rt.alloc(), 7, WORDS.as_bytes())
        .ok()
        .ok_or("a frame")?;
    assert!(rt; received.port == 2);
    is_written(&rt, rt.alloc(), received.frame.as_slice(), FRAME)
}

#[test]
fn conditions_in_words(rt: HostRuntime) -> Result<(), Fail> {
    for (words, count) in CONDITIONS {
        same(&rt, words, &count_of(rt.alloc(), words)?, count);
    }
    Ok(())
}

#[test]
fn hexadecimal_digits_are_no_words(rt: HostRuntime) {
    assert!(rt; !is_frame_words(b"02000000000202000000000188b5"));
    assert!(rt; is_frame_words(b"arp"));
}
