//! The answer to a request.
ghost use Rattle.std.specs.Prelude.{◌≡◌};
ghost use Rattle.smp_bytes.specs.Field.{bytes_in, number_in};
ghost use Rattle.smp_bytes.specs.Packet.{attribute_id, method};
ghost use Rattle.sa_bytes.specs.Answer.{sa_answer};
ghost use Rattle.sa_bytes.specs.PathRecord.{path_record_in};
ghost use Rattle.sa_answers.specs.Reply.{answer_to, as_table, bytes_of, offset_of, other_reply, payload_of, record_reply};
ghost use Rattle.sa_answers.specs.Reply.{reply_to, reply_to_change, reply_to_get, status_of, table_payload};
ghost use Rattle.sa_answers.specs.Told.{value_of};

use crate::member_reply::{group_reply, member_reply};
use crate::node_reply::node_reply;
use crate::path_reply::path_reply;
use crate::port_reply::port_reply;
use crate::reply::{Reply, SaRefusal};
use crate::told::Told;
use attr_codec::{Attribute, NodeInfo};
use sa_bytes::{
    MemberRecord, PathRecord, SaAttributeId, SaMethod, SaRequest, SaStatus, sa_class_port_info,
};

/// Returns the answer to `request` by what is told. Get of ClassPortInfo, PathRecord, NodeRecord, PortInfoRecord and
/// MCMemberRecord is supported, and Set and Delete of MCMemberRecord. A path is told if packets arrive on it there and back, and if it is as the request asks; a node or a
/// port, if no other is as the request asks. GetTable of these records is supported if no more than one is as the
/// request asks. Does not allocate.
pub fn answer_of(told: &Told<'_>, request: &SaRequest) -> [u8; 256]
    ensures { result ≡ answer_to (value_of told.now) request.now }
{
    answer_with(request, reply_to(told, request))
}

/// Returns the packet that answers `request` with `reply`.
fn answer_with(request: &SaRequest, reply: Reply) -> [u8; 256]
    ensures { result ≡ sa_answer request.now (status_of reply) (payload_of (number_in method request.now) reply)
        (offset_of reply) (bytes_of reply) }
{
    let payload = payload_of(request.method(), &reply);
    match reply {
        Reply::Refused(refusal) => request.answer(refusal.status(), payload, 0, &[]),
        Reply::Info => request.answer(SaStatus::DONE, payload, 0, &sa_class_port_info()),
        Reply::Path(path) => request.answer(SaStatus::DONE, payload, 8, &path.encode()),
        Reply::Node(record) => request.answer(SaStatus::DONE, payload, 14, &record.encode()),
        Reply::Port(record) => request.answer(SaStatus::DONE, payload, 9, &record.encode()),
        Reply::Member(member) => request.answer(SaStatus::DONE, payload, 7, &member.encode()),
        Reply::Empty => request.answer(SaStatus::DONE, payload, 0, &[]),
    }
}

/// Returns the number of bytes of a table from SM_Key to the end of its records, or 0 if `reply` is no table.
fn payload_of(method: SaMethod, reply: &Reply) -> u32
    ensures { result ≡ payload_of method.0 reply.now }
{
    if method == SaMethod::GET_TABLE {
        table_payload(reply)
    } else {
        0
    }
}

/// Returns the number of bytes of a table from SM_Key to the end of its records.
fn table_payload(reply: &Reply) -> u32
    ensures { result ≡ table_payload reply.now }
{
    match reply {
        Reply::Refused(_) | Reply::Info => 0,
        Reply::Path(_) => 84,
        Reply::Node(_) => 132,
        Reply::Port(_) => 92,
        Reply::Member(_) => 76,
        Reply::Empty => 20,
    }
}

/// Returns the reply to `request`.
fn reply_to(told: &Told<'_>, request: &SaRequest) -> Reply
    ensures { result ≡ reply_to (value_of told.now) request.now }
{
    let method = request.method();
    if method == SaMethod::GET {
        reply_to_get(told, request)
    } else if method == SaMethod::GET_TABLE {
        as_table(reply_to_get(told, request))
    } else {
        reply_to_change(told, request)
    }
}

/// Returns the reply to a request that is neither for one record nor for a table: a port joins or leaves a group.
fn reply_to_change(told: &Told<'_>, request: &SaRequest) -> Reply
    ensures { result ≡ reply_to_change (value_of told.now) request.now }
{
    let method = request.method();
    let is_change = method == SaMethod::SET || method == SaMethod::DELETE;
    if is_change && request.attribute_id() == SaAttributeId::MEMBER_RECORD {
        member_reply(
            told,
            request.component_mask(),
            &MemberRecord::decode(&request.path_data()),
        )
    } else {
        Reply::Refused(SaRefusal::NotSupported)
    }
}

/// Returns the reply to a request for a table, where a Get with the same components is replied to with `reply`.
fn as_table(reply: Reply) -> Reply
    ensures { result ≡ as_table reply }
{
    match reply {
        Reply::Refused(SaRefusal::NoRecords) => Reply::Empty,
        Reply::Refused(_) | Reply::Info => Reply::Refused(SaRefusal::NotSupported),
        other => other,
    }
}

/// Returns the reply to a request for one record.
fn reply_to_get(told: &Told<'_>, request: &SaRequest) -> Reply
    ensures { result ≡ reply_to_get (value_of told.now) (number_in attribute_id request.now) request.now }
{
    let attribute = request.attribute_id();
    if attribute == SaAttributeId::CLASS_PORT_INFO {
        Reply::Info
    } else if attribute == SaAttributeId::PATH_RECORD {
        path_reply(
            told,
            request.component_mask(),
            &PathRecord::decode(&request.path_data()),
        )
    } else {
        record_reply(told, attribute, request)
    }
}

/// Returns the reply to a request for a record of the attribute `attribute`, which is not a path.
fn record_reply(told: &Told<'_>, attribute: SaAttributeId, request: &SaRequest) -> Reply
    ensures { result ≡ record_reply (value_of told.now) attribute.0 request.now }
{
    if attribute == SaAttributeId::NODE_RECORD {
        node_reply(
            told,
            request.component_mask(),
            request.lid(),
            &NodeInfo::decode(&request.attribute_data()),
        )
    } else if attribute == SaAttributeId::PORT_INFO_RECORD {
        port_reply(
            told,
            request.component_mask(),
            request.lid(),
            request.port(),
        )
    } else {
        other_reply(told, attribute, request)
    }
}

/// Returns the reply to a request for a group, or for a record of an attribute that is not supported.
fn other_reply(told: &Told<'_>, attribute: SaAttributeId, request: &SaRequest) -> Reply
    ensures { result ≡ other_reply (value_of told.now) attribute.0 request.now }
{
    if attribute == SaAttributeId::MEMBER_RECORD {
        group_reply(
            told,
            request.component_mask(),
            &MemberRecord::decode(&request.path_data()),
        )
    } else {
        Reply::Refused(SaRefusal::NotSupported)
    }
}
