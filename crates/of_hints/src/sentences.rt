//! What an error of OpenFlow means for a line.
ghost use Rattle.std.specs.{Prelude.◌≡◌, Prelude.map, Option.option_map};
ghost use Rattle.of_hints.specs.Sentences.{sentence_of, sentences_of};

use of_wire::Code;

// OFPET_BAD_ACTION
const BAD_ACTION: &[&str] = &[
    "this switch does not have the action",
    "the length of an action is not that of its type",
    "this switch has no actions of experimenters",
    "this switch has no actions of experimenters",
    "output: a port has a number from 1 to 4294967040, or is 4294967288 (IN_PORT), 4294967291 (FLOOD), 4294967292 (ALL) or 4294967293 (CONTROLLER)",
    "push_vlan: the type of a tag is 0x8100 or 0x88a8",
    "the action is not permitted",
    "a list has at most 64 actions",
    "this switch has no queues",
    "no group has this number: define the group before the flows (import: add the output of dump-groups)",
    "set: the match does not have what the field needs, such as eth_type 0x0800 (ip) for ipv4_dst, or ip_proto 6 (tcp) for tcp_dst",
    "the actions cannot be applied in this order",
    "the tag is not supported",
    "set: this field can be matched, but not set",
    "set: the length of the value is not that of the field",
    "set: the value has bits that the field does not have",
];

// OFPET_BAD_INSTRUCTION
const BAD_INSTRUCTION: &[&str] = &[
    "OpenFlow 1.3 does not have the instruction",
    "this switch has the instructions apply, clear, write, metadata and goto",
    "goto: it leads to a later table, up to 15",
    "metadata: these bits cannot be written",
    "metadata: this mask cannot be used",
    "this switch has no instructions of experimenters",
    "this switch has no instructions of experimenters",
    "the length of an instruction is not that of its type",
    "the instruction is not permitted",
];

// OFPET_BAD_MATCH
const BAD_MATCH: &[&str] = &[
    "the match is not a list of OXM fields",
    "the length of the match or of one of its fields is wrong",
    "the match has a tag that is not supported",
    "an Ethernet address cannot have this mask",
    "an IP address cannot have this mask",
    "match: the value has bits outside its mask, which must be 0",
    "this switch does not have the field",
    "match: the value has bits that the field does not have",
    "match: this field has no mask in OpenFlow 1.3; match each value with a flow of its own",
    "match: a field needs others before it, such as eth_type 0x0800 (ip) for ipv4_dst, or ip_proto 6 (tcp) for tcp_dst",
    "match: the field is there twice",
    "the match is not permitted",
];

// OFPET_FLOW_MOD_FAILED
const FLOW_MOD_FAILED: &[&str] = &[
    "the flow cannot be added",
    "a table holds 4096 flows, and this is one more",
    "this switch has the tables 0 to 15 (import: --renumber gives them numbers)",
    "an earlier flow of this table has the same priority and match: remove one of the two, or change a priority",
    "the flow is not permitted",
    "the timeout is not supported",
    "the commands for flows are add, modify, modify_strict, delete and delete_strict",
    "the flags of a flow are a sum of 1 (send_flow_rem), 8 (no_packet_counts) and 16 (no_byte_counts)",
];

// OFPET_GROUP_MOD_FAILED
const GROUP_MOD_FAILED: &[&str] = &[
    "a group with this number already exists",
    "a group has a number up to 4294967040, and an indirect group has one bucket",
    "weights are for SELECT groups, which this switch does not have",
    "a switch holds 256 groups",
    "a group holds 16 buckets",
    "the group cannot send packets to other groups",
    "the switch cannot watch this",
    "a chain has at most three groups: a group sends packets to a second, this one to a third, and none back",
    "no group has this number",
    "another group sends packets to this one: change it first",
    "this switch has the types all, indirect and ff",
    "the commands for groups are add, modify and delete",
    "the bucket is malformed",
    "each bucket of a fast failover group watches a port, or a group that exists",
    "the group is not permitted",
];

// The sentences of a type's codes, from code 0 on.
fn sentences(kind: u16) -> &'static [&'static str]
    ensures { map (λ sentence. sentence.now) result.now ≡ sentences_of kind }
{
    match kind {
        2 => BAD_ACTION,
        3 => BAD_INSTRUCTION,
        4 => BAD_MATCH,
        5 => FLOW_MOD_FAILED,
        6 => GROUP_MOD_FAILED,
        _ => &[],
    }
}

/// What is wrong with the line of a group or a flow that is refused with this error (OpenFlow 1.3.5, 7.4.4), and what to do.
pub fn refusal_sentence(code: Code) -> Option<&'static str>
    ensures { option_map (λ sentence. sentence.now) result ≡ sentence_of code.kind code.code }
{
    sentences(code.kind).get(usize::from(code.code)).copied()
}
