//! Frames whose headers are read and kept: the fields are those of the bytes after each change.
use crate::rewrite::steps::{Kept, Row, Step};
use of_layers::Field;

/// A frame of 60 bytes: addresses, a type that is not read, and zeros.
pub const PADDED: &[u8] = &[
    2, 0, 0, 0, 0, 2, 2, 0, 0, 0, 0, 1, 0x88, 0xb5, 0, 0, 0, 0, 0, 0, 0, 0, 0, 0, 0, 0, 0, 0, 0, 0,
    0, 0, 0, 0, 0, 0, 0, 0, 0, 0, 0, 0, 0, 0, 0, 0, 0, 0, 0, 0, 0, 0, 0, 0, 0, 0, 0, 0, 0, 0,
];

/// Its fields (OpenFlow 1.3.5, 7.2.3.7).
const UNTAGGED: &str = "EthDst=20000000002 EthSrc=20000000001 EthType=88b5 VlanVid=0";

/// Its fields behind a tag of PCP 0 and VID 0.
const TAGGED: &str = "EthDst=20000000002 EthSrc=20000000001 EthType=88b5 VlanVid=1000 VlanPcp=0";

pub const TAGS: &[Row] = &[
    ("no tag", Step::Has(UNTAGGED)),
    ("push of a customer tag", Step::Push(0x8100)),
    ("it has the VID 0", Step::Has(TAGGED)),
    ("push of a service tag", Step::Push(0x88a8)),
    ("it has the VID of the tag behind it", Step::Has(TAGGED)),
    ("pop of it", Step::Pop),
    ("one tag is left", Step::Has(TAGGED)),
    ("pop of that", Step::Pop),
    ("no tag is left", Step::Has(UNTAGGED)),
    ("the frame is as before", Step::Is(PADDED)),
];

pub const FIELDS: &[Row] = &[
    ("push of a customer tag", Step::Push(0x8100)),
    ("it has the VID 0", Step::Has(TAGGED)),
    ("set VLAN_VID", Step::Set(Field::VlanVid, 0x1005)),
    (
        "VLAN_VID is set",
        Step::Has("EthDst=20000000002 EthSrc=20000000001 EthType=88b5 VlanVid=1005 VlanPcp=0"),
    ),
    ("push of a service tag", Step::Push(0x88a8)),
    ("set VLAN_PCP", Step::Set(Field::VlanPcp, 3)),
    (
        "VLAN_PCP is set, and the VID is that of the tag behind it",
        Step::Has("EthDst=20000000002 EthSrc=20000000001 EthType=88b5 VlanVid=1005 VlanPcp=3"),
    ),
];

pub const LOAN: &[Row] = &[
    ("no tag", Step::Has(UNTAGGED)),
    (
        "the type of a tag",
        Step::Write(Field::EthType, &[0x81, 0x00]),
    ),
    (
        "there is a tag",
        Step::Has("EthDst=20000000002 EthSrc=20000000001 EthType=0 VlanVid=1000 VlanPcp=0"),
    ),
];

/// What is known after each call: a frame is read again only where its fields may have changed, and its layers are looked for
/// again only after a loan.
pub const KNOWN: &[Row] = &[
    ("a new frame", Step::Knows(Kept::Nothing)),
    ("it is read", Step::Read),
    ("all is known", Step::Knows(Kept::Fields)),
    ("a pop without a tag", Step::Pop),
    ("all is known still", Step::Knows(Kept::Fields)),
    ("push", Step::Push(0x8100)),
    ("the layers moved", Step::Knows(Kept::Places)),
    ("it is read", Step::Read),
    ("set", Step::Set(Field::VlanVid, 0x1005)),
    ("the layers stay", Step::Knows(Kept::Places)),
    ("it is read", Step::Read),
    ("set the hops", Step::SetTtl(9)),
    ("the layers stay", Step::Knows(Kept::Places)),
    ("pop", Step::Pop),
    ("the layers moved back", Step::Knows(Kept::Places)),
    (
        "a type is written",
        Step::Write(Field::EthType, &[0x81, 0x00]),
    ),
    ("nothing is known", Step::Knows(Kept::Nothing)),
    ("set", Step::Set(Field::VlanVid, 0x1006)),
    ("the layers were looked for", Step::Knows(Kept::Places)),
];
