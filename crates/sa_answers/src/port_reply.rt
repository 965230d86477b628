//! The port that a request asks for.
ghost use Rattle.std.specs.Prelude.{◌≡◌};
ghost use Rattle.plan_steps.specs.Carried.{or_default};
ghost use Rattle.sa_answers.specs.PortReply.{goes_by, info_at, info_told, master_lid, port_reply, port_told, reply_at};
ghost use Rattle.sa_answers.specs.PortReply.{reply_of_owner};
ghost use Rattle.sa_answers.specs.Told.{value_of};

use crate::ends::{LINK_LOCAL_PREFIX, end_by_guid};
use crate::path_reply::gives;
use crate::reply::{Reply, SaRefusal};
use crate::told::Told;
use attr_codec::{Lmc, PortInfo};
use sa_bytes::PortInfoRecord;
use smp_bytes::{Lid, PortNum};
use subnet_view::EndPort;

/// The bits of the components of a PortInfoRecord by which it can be asked for.
const END_PORT_LID: u32 = 0;

const PORT_NUM: u32 = 1;

/// The greatest component mask that has no other bits.
const MOST_OF_MASK: u64 = 3;

/// Returns the reply to a request for a port, whose component mask is `mask`, and whose record has the LID `lid` and
/// the port number `port`.
pub(crate) fn port_reply(told: &Told<'_>, mask: u64, lid: Lid, port: PortNum) -> Reply
    ensures { result ≡ port_reply (value_of told.now) mask lid port }
{
    if MOST_OF_MASK < mask {
        Reply::Refused(SaRefusal::NotSupported)
    } else if gives(mask, END_PORT_LID) {
        reply_of_owner(
            told,
            gives(mask, PORT_NUM),
            port,
            told.plan.lids().owner(lid),
        )
    } else {
        Reply::Refused(SaRefusal::InsufficientComponents)
    }
}

/// Returns the reply to a request for a port of the owner of a LID, if there is one. `is_named` says whether the
/// request names the port `port`.
fn reply_of_owner(told: &Told<'_>, is_named: bool, port: PortNum, owner: Option<EndPort>) -> Reply
    ensures { result ≡ reply_of_owner (value_of told.now) is_named port owner }
{
    match owner {
        None => Reply::Refused(SaRefusal::NoRecords),
        Some(e) => reply_at(told, is_named, port, &e),
    }
}

/// Returns the reply to a request for the ports of an end port, one of which it may name.
fn reply_at(told: &Told<'_>, is_named: bool, port: PortNum, e: &EndPort) -> Reply
    ensures { result ≡ reply_at (value_of told.now) is_named port e.now }
{
    if is_named {
        if goes_by(e, port) {
            port_told(told, e, port)
        } else {
            Reply::Refused(SaRefusal::NoRecords)
        }
    } else if e.port.number() == 0 {
        Reply::Refused(SaRefusal::TooManyRecords)
    } else {
        port_told(told, e, e.port)
    }
}

/// Returns whether a port of the node of the end port goes by the LID of the end port.
fn goes_by(e: &EndPort, port: PortNum) -> bool
    ensures { result ≡ goes_by e.now port }
{
    e.port.number() == 0 || port == e.port
}

/// Returns the record of a port of the node of the end port.
fn port_told(told: &Told<'_>, e: &EndPort, port: PortNum) -> Reply
    ensures { result ≡ port_told (value_of told.now) e.now port }
{
    match (
        told.plan.lids().lid_of(*e),
        told.sweep.port_image(e.node, port),
    ) {
        (Some(lid), Some(image)) => Reply::Port(PortInfoRecord {
            lid,
            port,
            info: info_at(told, e, lid, port, image),
        }),
        _ => Reply::Refused(SaRefusal::NoRecords),
    }
}

/// Returns the PortInfo of a port, of whose node `e` is an end port with the first LID `lid`.
fn info_at(told: &Told<'_>, e: &EndPort, lid: Lid, port: PortNum, image: PortInfo) -> PortInfo
    ensures { result ≡ info_at (value_of told.now) e.now lid port image }
{
    if port == e.port {
        info_told(lid, told.plan.lids().lmc_of(e), master_lid(told), image)
    } else {
        info_told(Lid::NONE, Lmc::ZERO, Lid::NONE, image)
    }
}

/// Returns the first LID of the manager's end port, or 0 if it has none.
fn master_lid(told: &Told<'_>) -> Lid
    ensures { result ≡ master_lid (value_of told.now) }
{
    match end_by_guid(told, told.own) {
        None => Lid::NONE,
        Some((_, lid)) => lid,
    }
}

/// Returns the PortInfo `image`, which a sweep read, with a LID, an LMC and the manager's LID.
fn info_told(lid: Lid, count: Lmc, master: Lid, image: PortInfo) -> PortInfo
    ensures { result ≡ info_told lid count master image }
{
    let prefix = image.gid_prefix();
    let mut info = image;
    info.set_m_key(0);
    info.set_gid_prefix(if prefix == 0 {
        LINK_LOCAL_PREFIX
    } else {
        prefix
    });
    info.set_base_lid(lid);
    info.set_master_sm_lid(master);
    info.set_lmc(count);
    info
}
