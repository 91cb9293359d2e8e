//! What a message says, in numbers, the type first.
use of_messages::{FlowMod, FlowModCommand, GroupMod, Message, MultipartRequest, RoleRequest};
use std::alloc::{AllocError, Global};

/// What a request asks for, in numbers, the type first.
fn request_numbers(alloc: Global, request: &MultipartRequest) -> Result<Vec<u64>, AllocError> {
    match request {
        MultipartRequest::Description => Vec::from_slice(alloc, &[18, 0]),
        MultipartRequest::Flow(flows) => Vec::from_slice(
            alloc,
            &[
                18,
                1,
                u64::from(flows.table),
                u64::from(flows.out_port),
                u64::from(flows.out_group),
                flows.cookie,
                flows.cookie_mask,
                flows.fields.len() as u64,
            ],
        ),
        MultipartRequest::Aggregate(flows) => Vec::from_slice(
            alloc,
            &[
                18,
                2,
                u64::from(flows.table),
                u64::from(flows.out_port),
                u64::from(flows.out_group),
                flows.cookie,
                flows.cookie_mask,
                flows.fields.len() as u64,
            ],
        ),
        MultipartRequest::Table => Vec::from_slice(alloc, &[18, 3]),
        MultipartRequest::PortStats(None) => Vec::from_slice(alloc, &[18, 4]),
        MultipartRequest::PortStats(Some(port)) => {
            Vec::from_slice(alloc, &[18, 4, u64::from(*port)])
        }
        MultipartRequest::Group(None) => Vec::from_slice(alloc, &[18, 6]),
        MultipartRequest::Group(Some(group)) => Vec::from_slice(alloc, &[18, 6, u64::from(*group)]),
        MultipartRequest::GroupDescription => Vec::from_slice(alloc, &[18, 7]),
        MultipartRequest::GroupFeatures => Vec::from_slice(alloc, &[18, 8]),
        MultipartRequest::PortDescription => Vec::from_slice(alloc, &[18, 13]),
    }
}

fn echo_numbers(alloc: Global, body: &[u8]) -> Result<Vec<u64>, AllocError> {
    let mut numbers = Vec::from_slice(alloc, &[2])?;
    for byte in body {
        numbers.push(u64::from(*byte))?;
    }
    Ok(numbers)
}

fn command_number(command: FlowModCommand) -> u64 {
    match command {
        FlowModCommand::Add => 0,
        FlowModCommand::Modify { strict: false } => 1,
        FlowModCommand::Modify { strict: true } => 2,
        FlowModCommand::Delete { strict: false } => 3,
        FlowModCommand::Delete { strict: true } => 4,
    }
}

/// The fields in their order, whether it deletes behind the command, and how many fields and instructions there are.
fn flow_numbers(alloc: Global, flow_mod: &FlowMod) -> Result<Vec<u64>, AllocError> {
    Vec::from_slice(
        alloc,
        &[
            14,
            flow_mod.cookie,
            flow_mod.cookie_mask,
            u64::from(flow_mod.table),
            command_number(flow_mod.command),
            u64::from(flow_mod.command.is_delete()),
            u64::from(flow_mod.idle_timeout),
            u64::from(flow_mod.hard_timeout),
            u64::from(flow_mod.priority),
            u64::from(flow_mod.buffer),
            u64::from(flow_mod.out_port),
            u64::from(flow_mod.out_group),
            u64::from(flow_mod.flags),
            flow_mod.fields.len() as u64,
            flow_mod.instructions.len() as u64,
        ],
    )
}

fn group_numbers(alloc: Global, group_mod: &GroupMod) -> Result<Vec<u64>, AllocError> {
    match group_mod {
        GroupMod::Add(group) => Vec::from_slice(alloc, &[15, 0, u64::from(group.id)]),
        GroupMod::Modify(group) => Vec::from_slice(alloc, &[15, 1, u64::from(group.id)]),
        GroupMod::Delete(None) => Vec::from_slice(alloc, &[15, 2]),
        GroupMod::Delete(Some(group)) => Vec::from_slice(alloc, &[15, 2, u64::from(*group)]),
    }
}

/// What a message says; nothing of those that other tests read.
pub(crate) fn numbers(alloc: Global, message: &Message) -> Result<Vec<u64>, AllocError> {
    match message {
        Message::Hello => Vec::from_slice(alloc, &[0]),
        Message::Error => Vec::from_slice(alloc, &[1]),
        Message::EchoRequest(body) => echo_numbers(alloc, body.as_slice()),
        Message::EchoReply => Vec::from_slice(alloc, &[3]),
        Message::FeaturesRequest => Vec::from_slice(alloc, &[5]),
        Message::GetConfigRequest => Vec::from_slice(alloc, &[7]),
        Message::SetConfig(config) => {
            Vec::from_slice(alloc, &[9, u64::from(config.miss_send_len)])
        }
        Message::FlowMod(flow_mod) => flow_numbers(alloc, flow_mod),
        Message::GroupMod(group_mod) => group_numbers(alloc, group_mod),
        Message::TableMod(m) => {
            Vec::from_slice(alloc, &[17, u64::from(m.table), u64::from(m.config)])
        }
        Message::Multipart(request) => request_numbers(alloc, request),
        Message::BarrierRequest => Vec::from_slice(alloc, &[20]),
        Message::RoleRequest(RoleRequest::NoChange) => Vec::from_slice(alloc, &[24, 0]),
        Message::RoleRequest(RoleRequest::Equal) => Vec::from_slice(alloc, &[24, 1]),
        Message::RoleRequest(RoleRequest::Master { generation }) => {
            Vec::from_slice(alloc, &[24, 2, *generation])
        }
        Message::RoleRequest(RoleRequest::Slave { generation }) => {
            Vec::from_slice(alloc, &[24, 3, *generation])
        }
        Message::GetAsyncRequest => Vec::from_slice(alloc, &[26]),
        Message::SetAsync(masks) => Vec::from_slice(
            alloc,
            &[
                28,
                u64::from(masks.packet_in.master),
                u64::from(masks.packet_in.slave),
                u64::from(masks.port_status.master),
                u64::from(masks.port_status.slave),
                u64::from(masks.flow_removed.master),
                u64::from(masks.flow_removed.slave),
            ],
        ),
        _ => Ok(Vec::new(alloc)),
    }
}
