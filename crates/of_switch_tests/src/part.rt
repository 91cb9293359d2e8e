use crate::checks::same;
use crate::events::given_at_once;
use of_cache::{Cached, Row};
use of_mask_groups::MaskGroups;
use of_switch::Switch;
use std::alloc::Global;
use std::process::Abort;
use std::test::Fail;

/// How the program's switch looks entries up.
type Lookups = Cached<MaskGroups>;

/// A FLOW_MOD for table 0 of priority 10, IN_PORT 1 and APPLY_ACTIONS of OUTPUT to port 2, and a frame of a type that no field of
/// IPv4 or ARP goes with (OpenFlow 1.3.5, 7.3.4.1).
const ROWS: &str = "\
port | 1
port | 2
connect | -
c | 0400000800000001
c | 040e005800000002 0000000000000000 0000000000000000 00000000 0000000a ffffffff ffffffff ffffffff 00000000 0001000c 80000004 00000001 00000000 00040018 00000000 00000010 00000002 0000000000000000
f | 1 020000000002 020000000001 88b5
";

/// The HELLO, and the frame by port 2.
const GIVEN: &[u8] = &[
    4, 0, 0, 16, 0, 0, 0, 0, 0, 1, 0, 8, 0, 0, 0, 0x10, 0, 0, 0, 2, 2, 0, 0, 0, 0, 2, 2, 0, 0, 0,
    0, 1, 0x88, 0xb5,
];

fn looks_at_in_port(rt: &impl Abort, rows: &[Row]) {
    assert!(rt; rows.len() == 1);
    let Row { region, answer } = &rows[0];
    let looks_at = (
        region.mask.masks.numbers.present,
        region.key.numbers.in_port,
    );
    same(rt, "the row", &looks_at, &(1, 1));
    same(rt, "its answer", &answer.is_some(), &true);
}

fn one_row(rt: &impl Abort, alloc: Global, switch: &mut Switch<Lookups>) -> Result<(), Fail> {
    let given = given_at_once(alloc, switch, ROWS)?;
    same(rt, "what is given", &given.as_slice(), &GIVEN);
    looks_at_in_port(rt, &switch.datapath().part(0).rows(alloc)?);
    Ok(())
}

/// A frame leaves a row in the classifier of its table.
#[test]
fn row_of_a_frame(rt: HostRuntime) -> Result<(), Fail> {
    let mut switch = Switch::<Lookups>::new(rt.alloc(), 1)?;
    one_row(&rt, rt.alloc(), &mut switch)
}
