//! MULTIPART_REQUEST (OpenFlow 1.3.5, 7.3.5).
ghost use Rattle.std.specs.Prelude.{◌≡◌, ◌≤◌, length, true, IfOk, MatchResult, None, Some};
ghost use Rattle.of_wire.specs.{Refusals.first_of, Failures.Reads};
ghost use Rattle.of_messages.specs.Multiparts.{IsSoundRequest, flow_stats_of, multipart_kind_in, multipart_kind_of, multipart_of, multipart_refusals, requested_number, one_or_all as asked, request_of, multipart_size};
ghost use Rattle.of_messages.specs.{Configs.names_table as is_named, Heads.IsSized};

use crate::config::names_table;
use crate::reading::rest_from;
use byteorder::{BigEndian, ByteOrder};
use of_formats::Size;
use of_oxm::{Match, read_match};
use of_wire::codes::{
    OFPBRC_BAD_LEN, OFPBRC_BAD_MULTIPART, OFPBRC_BAD_TABLE_ID, OFPBRC_MULTIPART_BUFFER_OVERFLOW,
};
use of_wire::limits::{OFPG_ALL, OFPP_ANY};
use of_wire::{Code, ReadError};
use std::alloc::Global;

/// Which flows are asked for (OpenFlow 1.3.5, 7.3.5.2 and 7.3.5.3).
#[derive(Drop)]
pub struct FlowStatsRequest {
    /// 0 to 15, or 255 for all tables.
    pub table: u8,
    /// The port that an OUTPUT of the flow names; OFPP_ANY, all ones, for any flow.
    pub out_port: u32,
    /// The group that a GROUP action of the flow names; OFPG_ANY, all ones, for any flow.
    pub out_group: u32,
    pub cookie: u64,
    /// The bits of the cookie that are compared.
    pub cookie_mask: u64,
    pub fields: Match,
}

/// A MULTIPART_REQUEST (OpenFlow 1.3.5, 7.3.5).
#[derive(Drop)]
pub enum MultipartRequest {
    Description,
    Flow(FlowStatsRequest),
    Aggregate(FlowStatsRequest),
    Table,
    /// Of one port, or of all.
    PortStats(Option<u32>),
    /// Of one group, or of all.
    Group(Option<u32>),
    GroupDescription,
    GroupFeatures,
    PortDescription,
}

#[derive(Clone, Copy)]
enum MultipartKind {
    Description,
    Flow,
    Aggregate,
    Table,
    PortStats,
    Group,
    GroupDescription,
    GroupFeatures,
    PortDescription,
}

#[tactic(auto, unfolding(crate::specs::Multiparts::multipart_kind_of))]
fn kind_from(number: u16) -> Option<MultipartKind>
    ensures { result ≡ multipart_kind_of number }
{
    match number {
        0 => Some(MultipartKind::Description),
        1 => Some(MultipartKind::Flow),
        2 => Some(MultipartKind::Aggregate),
        3 => Some(MultipartKind::Table),
        4 => Some(MultipartKind::PortStats),
        6 => Some(MultipartKind::Group),
        7 => Some(MultipartKind::GroupDescription),
        8 => Some(MultipartKind::GroupFeatures),
        13 => Some(MultipartKind::PortDescription),
        _ => None,
    }
}

// The size of the whole message.
fn size_of_kind(kind: MultipartKind) -> Size
    ensures { result ≡ multipart_size kind }
{
    match kind {
        MultipartKind::Flow | MultipartKind::Aggregate => Size::Least(56),
        MultipartKind::PortStats | MultipartKind::Group => Size::Exact(24),
        MultipartKind::Description
        | MultipartKind::Table
        | MultipartKind::GroupDescription
        | MultipartKind::GroupFeatures
        | MultipartKind::PortDescription => Size::Exact(16),
    }
}

// What a request asks for, whose type, flags and length are not refused.
fn check_multipart(message: &[u8]) -> Result<MultipartKind, Code>
    requires { 16 ≤ length message.now }
    ensures refusal { MatchResult result (λ _. first_of (multipart_refusals message.now) ≡ None)
        (λ code. first_of (multipart_refusals message.now) ≡ Some code) }
    ensures kind { IfOk result (λ kind. multipart_kind_in message.now ≡ Some kind) }
    ensures sized { IfOk result (λ kind. IsSized (Some (multipart_size kind)) (length message.now)) }
{
    let Some(kind) = kind_from(BigEndian::read_u16(rest_from(message, 8))) else {
        return Err(OFPBRC_BAD_MULTIPART);
    };
    if BigEndian::read_u16(rest_from(message, 10)) % 2 == 1 {
        return Err(OFPBRC_MULTIPART_BUFFER_OVERFLOW);
    }
    if size_of_kind(kind).is_bad(message.len()) {
        return Err(OFPBRC_BAD_LEN);
    }
    Ok(kind)
}

fn read_flow_stats(alloc: Global, message: &[u8]) -> Result<FlowStatsRequest, ReadError>
    requires { 48 ≤ length message.now }
    ensures reads { Reads result (flow_stats_of message.now) }
    ensures sound { IfOk result (λ request. is_named request.table ≡ true) }
{
    let table = message[16];
    if !names_table(table) {
        return Err(ReadError::Refused(OFPBRC_BAD_TABLE_ID));
    }
    let (fields, _) = read_match(alloc, rest_from(message, 48))?;
    Ok(FlowStatsRequest {
        table,
        out_port: BigEndian::read_u32(rest_from(message, 20)),
        out_group: BigEndian::read_u32(rest_from(message, 24)),
        cookie: BigEndian::read_u64(rest_from(message, 32)),
        cookie_mask: BigEndian::read_u64(rest_from(message, 40)),
        fields,
    })
}

// The one that a number names, or all.
fn one_or_all(all: u32, number: u32) -> Option<u32>
    ensures { result ≡ asked all number }
{
    if number == all { None } else { Some(number) }
}

// The port or group that a request of 24 bytes names, or all.
fn asked_in(message: &[u8], all: u32) -> Option<u32>
    requires { 24 ≤ length message.now }
    ensures { result ≡ asked all (requested_number message.now) }
{
    one_or_all(all, BigEndian::read_u32(rest_from(message, 16)))
}

// What a request of that kind says.
fn read_request(
    alloc: Global,
    kind: MultipartKind,
    message: &[u8],
) -> Result<MultipartRequest, ReadError>
    requires { IsSized (Some (multipart_size kind)) (length message.now) }
    ensures reads { Reads result (request_of message.now kind) }
    ensures sound { IfOk result IsSoundRequest }
{
    Ok(match kind {
        MultipartKind::Description => MultipartRequest::Description,
        MultipartKind::Flow => MultipartRequest::Flow(read_flow_stats(alloc, message)?),
        MultipartKind::Aggregate => MultipartRequest::Aggregate(read_flow_stats(alloc, message)?),
        MultipartKind::Table => MultipartRequest::Table,
        MultipartKind::PortStats => MultipartRequest::PortStats(asked_in(message, OFPP_ANY)),
        MultipartKind::Group => MultipartRequest::Group(asked_in(message, OFPG_ALL)),
        MultipartKind::GroupDescription => MultipartRequest::GroupDescription,
        MultipartKind::GroupFeatures => MultipartRequest::GroupFeatures,
        MultipartKind::PortDescription => MultipartRequest::PortDescription,
    })
}

#[tactic(auto, unfolding(crate::specs::Multiparts::multipart_of))]
pub(crate) fn read_multipart(alloc: Global, message: &[u8]) -> Result<MultipartRequest, ReadError>
    requires { 16 ≤ length message.now }
    ensures reads { Reads result (multipart_of message.now) }
    ensures sound { IfOk result IsSoundRequest }
{
    match check_multipart(message) {
        Ok(kind) => read_request(alloc, kind, message),
        Err(code) => Err(ReadError::Refused(code)),
    }
}
