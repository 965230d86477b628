//! The reply to a port that joins or leaves a multicast group, or asks for one.
ghost use Rattle.std.specs.Prelude.{◌≡◌};
ghost use Rattle.sa_answers.specs.MemberReply.{asks_for_others, broadcast_group, group_reply, is_adapter, is_broadcast};
ghost use Rattle.sa_answers.specs.MemberReply.{is_multicast, is_of_adapter, join_fault, member_of, member_reply};
ghost use Rattle.sa_answers.specs.MemberReply.{names_group, names_member, q_key_of, reply_with, suits_group};
ghost use Rattle.sa_answers.specs.Told.{value_of};

use crate::ends::end_by_gid;
use crate::path_reply::{ONE_SECOND, exactly, gives, suits, suits_rate};
use crate::reply::{Reply, SaRefusal};
use crate::told::Told;
use sa_bytes::MemberRecord;
use smp_bytes::{Guid, Lid};

/// The bits of components of an MCMemberRecord in ComponentMask. That of a number follows that of its selector.
const MGID: u32 = 0;

const PORT_GID: u32 = 1;

const Q_KEY: u32 = 2;

const MTU: u32 = 4;

const TRAFFIC_CLASS: u32 = 6;

const P_KEY: u32 = 7;

const RATE: u32 = 8;

const LIFE: u32 = 10;

const SL: u32 = 12;

const FLOW: u32 = 13;

const SCOPE: u32 = 15;

const JOIN_STATE: u32 = 16;

/// The numbers of MTU and rate of all groups: 2048 bytes and 10 Gb/s.
const GROUP_MTU: u8 = 4;

const GROUP_RATE: u8 = 3;

/// The two halves of the MGID of the broadcast group of IPv4 in the default partition.
const BROADCAST_HIGH: u64 = 0xFF12_401B_FFFF_0000;

const BROADCAST_LOW: u64 = 0xFFFF_FFFF;

const BROADCAST_Q_KEY: u32 = 0x0B1B;

/// Returns the reply to a request by which a port joins or leaves a group, with the component mask `mask` and the record
/// `asked`. Looks at each end port.
pub(crate) fn member_reply(told: &Told<'_>, mask: u64, asked: &MemberRecord) -> Reply
    ensures { result ≡ member_reply (value_of told.now) mask asked.now }
{
    if told.multicast {
        reply_with(join_fault(told, mask, asked), member_of(mask, asked))
    } else {
        Reply::Refused(SaRefusal::NotSupported)
    }
}

/// Returns the reply to a port that joins or leaves, unless a fault is found.
fn reply_with(fault: Option<SaRefusal>, member: MemberRecord) -> Reply
    ensures { result ≡ reply_with fault member }
{
    match fault {
        Some(refusal) => Reply::Refused(refusal),
        None => Reply::Member(member),
    }
}

/// Returns the reply to a request for a group.
pub(crate) fn group_reply(told: &Told<'_>, mask: u64, asked: &MemberRecord) -> Reply
    ensures { result ≡ group_reply (value_of told.now) mask asked.now }
{
    if !told.multicast {
        Reply::Refused(SaRefusal::NotSupported)
    } else if asks_for_others(mask, asked) {
        Reply::Refused(SaRefusal::NoRecords)
    } else {
        Reply::Member(broadcast_group())
    }
}

/// Returns whether a request for groups asks for another than the broadcast group.
fn asks_for_others(mask: u64, asked: &MemberRecord) -> bool
    ensures { result ≡ asks_for_others mask asked.now }
{
    gives(mask, MGID) && !is_broadcast(asked)
}

/// Returns the broadcast group, without a member.
fn broadcast_group() -> MemberRecord
    ensures { result ≡ broadcast_group }
{
    MemberRecord {
        mgid_high: BROADCAST_HIGH,
        mgid_low: BROADCAST_LOW,
        port_prefix: 0,
        port_guid: Guid::new(0),
        q_key: BROADCAST_Q_KEY,
        mlid: Lid::new(Lid::UNICAST_END),
        mtu: exactly(GROUP_MTU),
        traffic_class: 0,
        p_key: 0xFFFF,
        rate: exactly(GROUP_RATE),
        packet_life_time: exactly(ONE_SECOND),
        sl_flow_and_hops: 0,
        scope_and_state: 0x20,
        proxy_join: 0,
    }
}

/// Returns why a port does not join or leave, if it does not.
fn join_fault(told: &Told<'_>, mask: u64, asked: &MemberRecord) -> Option<SaRefusal>
    ensures { result ≡ join_fault (value_of told.now) mask asked.now }
{
    if !names_member(mask) {
        Some(SaRefusal::InsufficientComponents)
    } else if !is_multicast(asked) {
        Some(SaRefusal::InvalidGid)
    } else if !is_adapter(told, asked) {
        Some(SaRefusal::InvalidGid)
    } else if !(is_broadcast(asked) || names_group(mask)) {
        Some(SaRefusal::InsufficientComponents)
    } else if !suits_group(mask, asked) {
        Some(SaRefusal::InvalidRequest)
    } else {
        None
    }
}

/// Returns whether a request names a group, a port and the state in which it joins or leaves.
fn names_member(mask: u64) -> bool
    ensures { result ≡ names_member mask }
{
    gives(mask, MGID) && gives(mask, PORT_GID) && gives(mask, JOIN_STATE)
}

/// Returns whether a request says what a group needs to begin.
fn names_group(mask: u64) -> bool
    ensures { result ≡ names_group mask }
{
    gives(mask, Q_KEY)
        && gives(mask, P_KEY)
        && gives(mask, SL)
        && gives(mask, FLOW)
        && gives(mask, TRAFFIC_CLASS)
}

/// Returns whether the GID of the group is a multicast one.
fn is_multicast(asked: &MemberRecord) -> bool
    ensures { result ≡ is_multicast asked.now }
{
    asked.mgid_high >> 56 == 0xFF
}

/// Returns whether the record is of the broadcast group.
fn is_broadcast(asked: &MemberRecord) -> bool
    ensures { result ≡ is_broadcast asked.now }
{
    asked.mgid_high == BROADCAST_HIGH && asked.mgid_low == BROADCAST_LOW
}

/// Returns whether PortGID is that of a port of an adapter that the plan gives a LID.
fn is_adapter(told: &Told<'_>, asked: &MemberRecord) -> bool
    ensures { result ≡ is_adapter (value_of told.now) asked.now }
{
    match end_by_gid(told, asked.port_prefix, asked.port_guid) {
        Some((end, _)) => end.port.number() != 0,
        None => false,
    }
}

/// Returns whether the group can be as the request asks.
fn suits_group(mask: u64, asked: &MemberRecord) -> bool
    ensures { result ≡ suits_group mask asked.now }
{
    (!gives(mask, P_KEY) || asked.p_key % 0x8000 == 0x7FFF)
        && (!gives(mask, SL) || asked.sl_flow_and_hops >> 28 == 0)
        && suits(mask, MTU, asked.mtu, GROUP_MTU)
        && suits_rate(mask, RATE, asked.rate, GROUP_RATE)
        && suits(mask, LIFE, asked.packet_life_time, ONE_SECOND)
}

/// Returns the membership that the request asks for, as it is told.
fn member_of(mask: u64, asked: &MemberRecord) -> MemberRecord
    ensures { result ≡ member_of mask asked.now }
{
    MemberRecord {
        mgid_high: asked.mgid_high,
        mgid_low: asked.mgid_low,
        port_prefix: asked.port_prefix,
        port_guid: asked.port_guid,
        q_key: q_key_of(mask, asked),
        mlid: Lid::new(Lid::UNICAST_END),
        mtu: exactly(GROUP_MTU),
        traffic_class: if gives(mask, TRAFFIC_CLASS) {
            asked.traffic_class
        } else {
            0
        },
        p_key: if gives(mask, P_KEY) {
            asked.p_key
        } else {
            0xFFFF
        },
        rate: exactly(GROUP_RATE),
        packet_life_time: exactly(ONE_SECOND),
        sl_flow_and_hops: if gives(mask, FLOW) {
            asked.sl_flow_and_hops
        } else {
            0
        },
        scope_and_state: if gives(mask, SCOPE) {
            asked.scope_and_state
        } else {
            0x20 + asked.scope_and_state % 16
        },
        proxy_join: 0,
    }
}

/// Returns the Q_Key of the group of the record.
fn q_key_of(mask: u64, asked: &MemberRecord) -> u32
    ensures { result ≡ q_key_of mask asked.now }
{
    if is_broadcast(asked) || !gives(mask, Q_KEY) {
        BROADCAST_Q_KEY
    } else {
        asked.q_key
    }
}
