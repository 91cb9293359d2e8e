use of_import::import_tables;
use of_ovs_lines::Mode;
use std::test::Fail;

/// Lines as ovs-ofctl 3.1 prints them of a dump, and one for add-flows.
const DUMP: &[u8] = b"OFPST_GROUP_DESC reply (OF1.3) (xid=0x2):
 group_id=3,type=ff,bucket=watch_port:1,actions=output:1,bucket=watch_port:2,actions=output:2
 group_id=1,type=all,bucket=actions=output:1,bucket=actions=output:2
OFPST_FLOW reply (OF1.3) (xid=0x2):
 cookie=0xff, duration=5.2s, table=0, n_packets=0, n_bytes=0, idle_timeout=5, hard_timeout=10, send_flow_rem priority=10,ip,in_port=1,nw_dst=10.0.0.0/8 actions=set_field:02:00:00:00:00:02->eth_dst,dec_ttl,output:2,goto_table:3

 cookie=0x0, duration=1.4s, table=0, n_packets=0, n_bytes=0, priority=11,udp,tp_dst=53 actions=CONTROLLER:128
 cookie=0x0, duration=1.5s, table=0, n_packets=0, n_bytes=0, priority=13,ipv6,ipv6_src=2001:db8::/32,ipv6_dst=2001:db8::1 actions=FLOOD
 cookie=0x0, duration=1.1s, table=0, n_packets=0, n_bytes=0, priority=40,ip,nw_tos=184 actions=group:1
 cookie=0x0, duration=0.9s, table=0, n_packets=0, n_bytes=0, priority=27,dl_vlan=5,dl_vlan_pcp=3 actions=write_actions(pop_vlan,output:2)
table=0,priority=11,udp,tp_dst=53,actions=mod_vlan_vid:7,2 # in place of the one above
";

/// The same as flow text: what FLOWTEXT.md says of each word, with the counters of the dump.
const WRITTEN: &[u8] = b"group 1 all
bucket 0 4294967295 4294967295
output 1 0
bucket 0 4294967295 4294967295
output 2 0
group 3 ff
bucket 0 1 4294967295
output 1 0
bucket 0 2 4294967295
output 2 0
flow 0 10 0x00000000000000ff 5 10 1
# counters: duration=5.2s n_packets=0 n_bytes=0
match in_port 0x00000001
match eth_type 0x0800
match ipv4_dst 0x0a000000 0xff000000
apply
set eth_dst 0x020000000002
dec_nw_ttl
output 2 0
goto 3
flow 0 13 0x0000000000000000 0 0 0
# counters: duration=1.5s n_packets=0 n_bytes=0
match eth_type 0x86dd
match ipv6_src 0x20010db8000000000000000000000000 0xffffffff000000000000000000000000
match ipv6_dst 0x20010db8000000000000000000000001
apply
output 4294967291 0
flow 0 40 0x0000000000000000 0 0 0
# counters: duration=1.1s n_packets=0 n_bytes=0
match eth_type 0x0800
match ip_dscp 0x2e
apply
to_group 1
flow 0 27 0x0000000000000000 0 0 0
# counters: duration=0.9s n_packets=0 n_bytes=0
match vlan_vid 0x1005
match vlan_pcp 0x03
write
pop_vlan
output 2 0
flow 0 11 0x0000000000000000 0 0 0
match eth_type 0x0800
match ip_proto 0x11
match udp_dst 0x0035
apply
push_vlan 0x8100
set vlan_vid 0x1007
output 2 0
";

const PLAIN: Mode = Mode {
    skip: false,
    renumber: false,
};

#[test]
fn a_dump_is_imported(rt: HostRuntime) -> Result<(), Fail> {
    let done = import_tables(rt.alloc(), DUMP, PLAIN)
        .ok()
        .ok_or("refused")?;
    assert!(rt; done.text.as_slice() == WRITTEN);
    assert!(rt; done.faults.is_empty());
    assert!(rt; done.kept.refused.is_empty());
    Ok(())
}
