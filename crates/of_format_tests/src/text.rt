use crate::checks::same;
use of_text::{Config, assemble, assemble_again, disassemble};
use of_wire::Code;
use std::alloc::Global;
use std::process::Abort;
use std::test::Fail;

/// Groups of each kind, which name each other, and flows that name one.
const GROUPS: &[u8] = b"group 1 all
bucket 0 4294967295 4294967295
output 2 0
bucket 0 4294967295 4294967295
output 3 0
group 2 indirect
bucket 0 4294967295 4294967295
push_vlan 0x8100
set vlan_vid 0x1005
output 2 0
group 3 ff
bucket 0 2 4294967295
output 2 0
bucket 7 4294967295 2
to_group 1
flow 0 10 0x0000000000000000 0 0 0
match in_port 0x00000001
apply
output 2 0
flow 0 10 0x0000000000000000 0 0 0
match eth_type 0x88b5
write
to_group 3
";

fn is_written(rt: &impl Abort, alloc: Global, config: &Config) -> Result<(), Fail> {
    same(rt, "groups", &config.groups().len(), &3);
    same(rt, "flows of table 0", &config.flows(0).len(), &2);
    let written = disassemble(alloc, config)?;
    same(rt, "its text", &written.as_slice(), &GROUPS);
    Ok(())
}

#[test]
fn text_with_groups(rt: HostRuntime) -> Result<(), Fail> {
    let config = assemble(rt.alloc(), GROUPS).ok().ok_or("a configuration")?;
    is_written(&rt, rt.alloc(), &config)?;
    let again = assemble_again(rt.alloc(), &config)
        .ok()
        .ok_or("so is its text")?;
    is_written(&rt, rt.alloc(), &again)
}

/// Types and codes of errors, and their names.
const NAMES: &[(u16, u16, Option<&[u8]>)] = &[
    (0, 0, Some(b"OFPHFC_INCOMPATIBLE")),
    (1, 10, Some(b"OFPBRC_IS_SLAVE")),
    (4, 9, Some(b"OFPBMC_BAD_PREREQ")),
    (13, 5, Some(b"OFPTFFC_EPERM")),
    (4, 12, None),
    (14, 0, None),
];

#[test]
fn names_of_errors(rt: HostRuntime) {
    for (kind, code, name) in NAMES {
        let code = Code {
            kind: *kind,
            code: *code,
        };
        same(&rt, "a name", &code.name(), name);
    }
}
