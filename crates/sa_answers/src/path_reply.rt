//! The path that a request asks for.
ghost use Rattle.std.specs.Prelude.{◌≡◌, ◌<◌, ◌%◌, ℕ, Some};
ghost use Rattle.reply_facts.specs.Known.{port_guid_of};
ghost use Rattle.sa_answers.specs.Bound.{lesser};
ghost use Rattle.sa_answers.specs.Ends.{end_asked};
ghost use Rattle.sa_answers.specs.PathReply.{exactly, gives, gives_both, if_suited, is_selected, life_of, path_between, path_of};
ghost use Rattle.sa_answers.specs.PathReply.{path_or_none, path_reply, reply_between, source_said, suits, suits_lane};
ghost use Rattle.sa_answers.specs.PathReply.{suits_path, target_said};
ghost use Rattle.sa_answers.specs.Rates.{rate_of_number};
ghost use Rattle.sa_answers.specs.Told.{value_of};

use crate::bound::{Bound, lesser};
use crate::ends::{EndAsked, EndSaid, LINK_LOCAL_PREFIX, end_asked};
use crate::rates::{rate_number, rate_of_number};
use crate::reply::{Reply, SaRefusal};
use crate::told::Told;
use crate::way::bound_of_way;
use sa_bytes::PathRecord;
use smp_bytes::{Guid, Lid};
use subnet_view::EndPort;

/// The bits of components of a PathRecord in ComponentMask. The bit of a number that has a selector is the one after
/// that of the selector.
const DGID: u32 = 2;

const SGID: u32 = 3;

const DLID: u32 = 4;

const SLID: u32 = 5;

const TRAFFIC_CLASS: u32 = 10;

const P_KEY: u32 = 13;

const QOS_CLASS: u32 = 14;

const SL: u32 = 15;

const MTU: u32 = 16;

const RATE: u32 = 18;

const LIFE: u32 = 20;

/// The time that a packet may live: 4.096 us * 2^18.
pub(crate) const ONE_SECOND: u8 = 18;

/// What a path tells of an end: one of its LIDs, and its port GUID.
#[derive(Drop)]
struct PathEnd {
    lid: Lid,
    guid: Guid,
}

/// Returns the reply to a request for a path, whose component mask is `mask` and whose record is `asked`.
pub(crate) fn path_reply(told: &Told<'_>, mask: u64, asked: &PathRecord) -> Reply
    ensures { result ≡ path_reply (value_of told.now) mask asked.now }
{
    let source = end_asked(told, source_said(mask, asked));
    let target = end_asked(told, target_said(mask, asked));
    reply_between(told, mask, asked, source, target)
}

/// Returns what the request says of the source.
fn source_said(mask: u64, asked: &PathRecord) -> EndSaid
    ensures { result ≡ source_said mask asked.now }
{
    EndSaid {
        by_gid: gives(mask, SGID),
        prefix: asked.sgid_prefix,
        guid: asked.sgid_guid,
        by_lid: gives(mask, SLID),
        lid: asked.slid,
    }
}

/// Returns what the request says of the destination.
fn target_said(mask: u64, asked: &PathRecord) -> EndSaid
    ensures { result ≡ target_said mask asked.now }
{
    EndSaid {
        by_gid: gives(mask, DGID),
        prefix: asked.dgid_prefix,
        guid: asked.dgid_guid,
        by_lid: gives(mask, DLID),
        lid: asked.dlid,
    }
}

/// Returns the reply to a request for a path between these ends.
fn reply_between(
    told: &Told<'_>,
    mask: u64,
    asked: &PathRecord,
    source: EndAsked,
    target: EndAsked,
) -> Reply
    ensures { result ≡ reply_between (value_of told.now) mask asked.now source target }
{
    match (source, target) {
        (EndAsked::Known(source, slid), EndAsked::Known(target, dlid)) => {
            match path_between(told, mask, asked, &source, slid, &target, dlid) {
                None => Reply::Refused(SaRefusal::NoRecords),
                Some(path) => Reply::Path(path),
            }
        }
        (EndAsked::Unknown, _) => Reply::Refused(SaRefusal::NoRecords),
        (_, EndAsked::Unknown) => Reply::Refused(SaRefusal::NoRecords),
        _ => Reply::Refused(SaRefusal::InsufficientComponents),
    }
}

/// Returns the path from `source` with `slid` to `target` with `dlid`, if packets arrive both ways and it is as asked.
fn path_between(
    told: &Told<'_>,
    mask: u64,
    asked: &PathRecord,
    source: &EndPort,
    slid: Lid,
    target: &EndPort,
    dlid: Lid,
) -> Option<PathRecord>
    ensures { result ≡ path_between (value_of told.now) mask asked.now source.now slid target.now dlid }
{
    let sgid = guid_of(told, source)?;
    let dgid = guid_of(told, target)?;
    let there = bound_of_way(told, dlid, target, source)?;
    let back = bound_of_way(told, slid, source, target)?;
    let path = path_of(
        mask,
        asked,
        PathEnd {
            lid: slid,
            guid: sgid,
        },
        PathEnd {
            lid: dlid,
            guid: dgid,
        },
        life_of(source, target),
        lesser(there, back),
    );
    if suits_path(mask, asked, &path) {
        Some(path)
    } else {
        None
    }
}

/// Returns the port GUID of an end port, if it is known.
fn guid_of(told: &Told<'_>, port: &EndPort) -> Option<Guid>
    ensures { result ≡ port_guid_of (value_of told.now).cells port.now.node port.now.port }
{
    told.store.port_guid(port.node, port.port)
}

/// Returns the path between two ends, with the life of number `life`, whose ports let through what `bound` says.
fn path_of(
    mask: u64,
    asked: &PathRecord,
    source: PathEnd,
    target: PathEnd,
    life: u8,
    bound: Bound,
) -> PathRecord
    ensures { result ≡ path_of mask asked.now source.lid source.guid target.lid target.guid life bound }
{
    PathRecord {
        service_id: 0,
        dgid_prefix: LINK_LOCAL_PREFIX,
        dgid_guid: target.guid,
        sgid_prefix: LINK_LOCAL_PREFIX,
        sgid_guid: source.guid,
        dlid: target.lid,
        slid: source.lid,
        flow_and_hops: 0,
        traffic_class: if gives(mask, TRAFFIC_CLASS) {
            asked.traffic_class
        } else {
            0
        },
        reversible_and_count: 0x80,
        p_key: if gives(mask, P_KEY) {
            asked.p_key
        } else {
            0xFFFF
        },
        qos_class_and_sl: if gives(mask, QOS_CLASS) {
            asked.qos_class_and_sl - asked.qos_class_and_sl % 16
        } else {
            0
        },
        mtu: exactly(bound.mtu),
        rate: exactly(rate_number(bound.rate)),
        packet_life_time: exactly(life),
        preference: 0,
    }
}

/// Returns the field that says that a number of at most 6 bits is exact.
pub(crate) fn exactly(number: u8) -> u8
    ensures { result ≡ exactly number }
{
    0x80 + number % 64
}

/// Returns the number of the time that a packet may live: 0 if the ends are one.
fn life_of(source: &EndPort, target: &EndPort) -> u8
    ensures { result ≡ life_of source.now target.now }
{
    if source.node == target.node && source.port == target.port {
        0
    } else {
        ONE_SECOND
    }
}

/// Returns whether the path is as the request asks.
fn suits_path(mask: u64, asked: &PathRecord, path: &PathRecord) -> bool
    ensures { result ≡ suits_path mask asked.now path.now }
{
    suits_lane(mask, asked)
        && suits(mask, MTU, asked.mtu, path.mtu % 64)
        && suits_rate(mask, RATE, asked.rate, path.rate % 64)
        && suits(
            mask,
            LIFE,
            asked.packet_life_time,
            path.packet_life_time % 64,
        )
}

/// Returns whether the request asks for the default partition and for SL 0, as far as it asks for any.
fn suits_lane(mask: u64, asked: &PathRecord) -> bool
    ensures { result ≡ suits_lane mask asked.now }
{
    (!gives(mask, P_KEY) || asked.p_key % 0x8000 == 0x7FFF)
        && (!gives(mask, SL) || asked.qos_class_and_sl % 16 == 0)
}

/// Returns whether `value` is as asked, if the request gives selector and number of `field` (`bit` and the next).
pub(crate) fn suits(mask: u64, bit: u32, field: u8, value: u8) -> bool
    requires { bit < 63 }
    ensures { result ≡ suits (λ n. n) mask bit field value }
{
    !gives_both(mask, bit) || is_selected(field, u16::from(field % 64), u16::from(value), value)
}

/// Returns whether the rate with the number `value` is as asked, if the request gives selector and number of `field`.
pub(crate) fn suits_rate(mask: u64, bit: u32, field: u8, value: u8) -> bool
    requires { bit < 63 }
    ensures { result ≡ suits rate_of_number mask bit field value }
{
    !gives_both(mask, bit)
        || is_selected(
            field,
            rate_of_number(field % 64),
            rate_of_number(value),
            value,
        )
}

/// Returns whether the number `value` is as the selector and the number of `field` ask. `wanted` and `has` say where the
/// number of `field` and `value` stand in their order.
fn is_selected(field: u8, wanted: u16, has: u16, value: u8) -> bool
    ensures { (order : ℕ → ℕ) → wanted ≡ order (field % 64) → has ≡ order value
        → result ≡ is_selected order field value }
{
    match field / 64 {
        0 => wanted < has,
        1 => has < wanted,
        2 => value == field % 64,
        _ => true,
    }
}

/// Returns whether the request gives the components with the bit `bit` and the next one.
fn gives_both(mask: u64, bit: u32) -> bool
    requires { bit < 63 }
    ensures { result ≡ gives_both mask bit }
{
    gives(mask, bit) && gives(mask, bit + 1)
}

/// Returns whether the request gives the component with the bit `bit`.
pub(crate) fn gives(mask: u64, bit: u32) -> bool
    requires { bit < 64 }
    ensures { result ≡ gives mask bit }
{
    (mask >> bit) % 2 == 1
}
