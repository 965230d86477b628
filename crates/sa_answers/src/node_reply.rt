//! The node that a request asks for.
ghost use Rattle.std.specs.Prelude.{◌≡◌, ◌<◌, false};
ghost use Rattle.std.specs.Option.{option_map_or};
ghost use Rattle.sa_answers.specs.NodeReply.{asks, first_node, first_suited, info_of, is_owner, node_reply, node_told};
ghost use Rattle.sa_answers.specs.NodeReply.{nodes_suited, only_node, suits_device, suits_guids, suits_info};
ghost use Rattle.sa_answers.specs.NodeReply.{suits_kind, suits_node};
ghost use Rattle.sa_answers.specs.Told.{value_of};

use crate::path_reply::gives;
use crate::reply::{Reply, SaRefusal};
use crate::told::Told;
use attr_codec::{Attribute, NodeInfo, NodeTypeNumber};
use sa_bytes::NodeRecord;
use smp_bytes::{Guid, Lid, NodeType};
use subnet_view::EndPort;

/// The bits of components of a NodeRecord in ComponentMask.
const LID: u32 = 0;

const BASE_VERSION: u32 = 2;

const CLASS_VERSION: u32 = 3;

const NODE_TYPE: u32 = 4;

const NUM_PORTS: u32 = 5;

const SYSTEM_IMAGE_GUID: u32 = 6;

const NODE_GUID: u32 = 7;

const PORT_GUID: u32 = 8;

const PARTITION_CAP: u32 = 9;

const DEVICE_ID: u32 = 10;

const REVISION: u32 = 11;

const LOCAL_PORT_NUM: u32 = 12;

const VENDOR_ID: u32 = 13;

const NODE_DESCRIPTION: u32 = 14;

/// Returns the reply to a request for a node, whose component mask is `mask` and whose record has the LID `lid` and the
/// NodeInfo `asked`. Looks at each end port.
pub(crate) fn node_reply(told: &Told<'_>, mask: u64, lid: Lid, asked: &NodeInfo) -> Reply
    ensures { result ≡ node_reply (value_of told.now) mask lid asked.now }
{
    if gives(mask, NODE_DESCRIPTION) {
        Reply::Refused(SaRefusal::NotSupported)
    } else {
        only_node(
            nodes_suited(told, mask, lid, asked),
            first_node(told, mask, lid, asked),
        )
    }
}

/// Returns the reply to a request for one node, given the number of records that are as it asks, and the first of them.
fn only_node(count: usize, first: Option<NodeRecord>) -> Reply
    ensures { result ≡ only_node count first }
{
    match first {
        None => Reply::Refused(SaRefusal::NoRecords),
        Some(record) => {
            if count == 1 {
                Reply::Node(record)
            } else {
                Reply::Refused(SaRefusal::TooManyRecords)
            }
        }
    }
}

/// Returns the number of end ports whose records are as the request asks.
fn nodes_suited(told: &Told<'_>, mask: u64, lid: Lid, asked: &NodeInfo) -> usize
    ensures { result ≡ nodes_suited (value_of told.now) mask lid asked.now }
{
    told.plan
        .lids()
        .given()
        .iter()
        .filter(|x| suits_node(told, mask, lid, asked, x))
        .count()
}

/// Returns the record of the first of them.
fn first_node(told: &Told<'_>, mask: u64, lid: Lid, asked: &NodeInfo) -> Option<NodeRecord>
    ensures { result ≡ first_node (value_of told.now) mask lid asked.now }
{
    let x = first_suited(told, mask, lid, asked)?;
    node_told(told, &x)
}

/// Returns the first of them, with its first LID.
fn first_suited(told: &Told<'_>, mask: u64, lid: Lid, asked: &NodeInfo) -> Option<(EndPort, Lid)>
    ensures { result ≡ first_suited (value_of told.now) mask lid asked.now }
{
    told.plan
        .lids()
        .given()
        .iter()
        .copied()
        .find(|x| suits_node(told, mask, lid, asked, x))
}

/// Returns whether the end port has a record, which is as the request asks.
fn suits_node(told: &Told<'_>, mask: u64, lid: Lid, asked: &NodeInfo, x: &(EndPort, Lid)) -> bool
    ensures { result ≡ suits_node (value_of told.now) mask lid asked.now x.now }
{
    (!gives(mask, LID) || is_owner(told, lid, &x.0)) && suits_told(told, mask, asked, x)
}

/// Returns whether the end port has a record whose NodeInfo is as the request asks.
fn suits_told(told: &Told<'_>, mask: u64, asked: &NodeInfo, x: &(EndPort, Lid)) -> bool
    ensures { result ≡ option_map_or (λ r. suits_info mask asked.now r.info) (node_told (value_of told.now) x.now)
        false }
{
    match node_told(told, x) {
        None => false,
        Some(record) => suits_info(mask, asked, &record.info),
    }
}

/// Returns whether the end port owns the LID.
fn is_owner(told: &Told<'_>, lid: Lid, e: &EndPort) -> bool
    ensures { result ≡ is_owner (value_of told.now) lid e.now }
{
    match told.plan.lids().owner(lid) {
        None => false,
        Some(owner) => owner.node == e.node && owner.port == e.port,
    }
}

/// Returns the record of the end port, or `None` if the type of its node or its port GUID is not known.
fn node_told(told: &Told<'_>, x: &(EndPort, Lid)) -> Option<NodeRecord>
    ensures { result ≡ node_told (value_of told.now) x.now }
{
    let node = told.store.node(x.0.node)?;
    let guid = told.store.port_guid(x.0.node, x.0.port)?;
    Some(NodeRecord {
        lid: x.1,
        info: info_of(&x.0, node, guid),
    })
}

/// Returns NodeInfo of a node at an end port, by the node's type, the number of its ports and the port GUID.
fn info_of(e: &EndPort, node: (NodeType, u8), guid: Guid) -> NodeInfo
    ensures { result ≡ info_of e.now node guid }
{
    NodeInfo {
        base_version: 1,
        class_version: 1,
        node_type: NodeTypeNumber::from(node.0),
        num_ports: node.1,
        system_image_guid: Guid::new(0),
        node_guid: e.node,
        port_guid: guid,
        partition_cap: 1,
        device_id: 0,
        revision: 0,
        local_port_num: e.port,
        vendor_id: NodeInfo::decode(&[0; 64]).vendor_id,
    }
}

/// Returns whether NodeInfo is as the request asks.
fn suits_info(mask: u64, asked: &NodeInfo, info: &NodeInfo) -> bool
    ensures { result ≡ suits_info mask asked.now info.now }
{
    suits_kind(mask, asked, info)
        && suits_guids(mask, asked, info)
        && suits_device(mask, asked, info)
}

/// Returns whether versions, type and number of ports are as the request asks.
fn suits_kind(mask: u64, asked: &NodeInfo, info: &NodeInfo) -> bool
    ensures { result ≡ suits_kind mask asked.now info.now }
{
    asks(
        mask,
        BASE_VERSION,
        u64::from(asked.base_version),
        u64::from(info.base_version),
    ) && asks(
        mask,
        CLASS_VERSION,
        u64::from(asked.class_version),
        u64::from(info.class_version),
    ) && asks(
        mask,
        NODE_TYPE,
        u64::from(asked.node_type.number()),
        u64::from(info.node_type.number()),
    ) && asks(
        mask,
        NUM_PORTS,
        u64::from(asked.num_ports),
        u64::from(info.num_ports),
    )
}

/// Returns whether GUIDs are as the request asks.
fn suits_guids(mask: u64, asked: &NodeInfo, info: &NodeInfo) -> bool
    ensures { result ≡ suits_guids mask asked.now info.now }
{
    asks(
        mask,
        SYSTEM_IMAGE_GUID,
        asked.system_image_guid.number(),
        info.system_image_guid.number(),
    ) && asks(
        mask,
        NODE_GUID,
        asked.node_guid.number(),
        info.node_guid.number(),
    ) && asks(
        mask,
        PORT_GUID,
        asked.port_guid.number(),
        info.port_guid.number(),
    )
}

/// Returns whether the other components of NodeInfo are as the request asks.
fn suits_device(mask: u64, asked: &NodeInfo, info: &NodeInfo) -> bool
    ensures { result ≡ suits_device mask asked.now info.now }
{
    asks(
        mask,
        PARTITION_CAP,
        u64::from(asked.partition_cap),
        u64::from(info.partition_cap),
    ) && asks(
        mask,
        DEVICE_ID,
        u64::from(asked.device_id),
        u64::from(info.device_id),
    ) && asks(
        mask,
        REVISION,
        u64::from(asked.revision),
        u64::from(info.revision),
    ) && asks(
        mask,
        LOCAL_PORT_NUM,
        u64::from(asked.local_port_num.number()),
        u64::from(info.local_port_num.number()),
    ) && asks(
        mask,
        VENDOR_ID,
        u64::from(asked.vendor_id.number()),
        u64::from(info.vendor_id.number()),
    )
}

/// Returns whether the component with the bit `bit`, which must be less than 64, is as the request asks.
fn asks(mask: u64, bit: u32, asked: u64, value: u64) -> bool
    requires { bit < 64 }
    ensures { result ≡ asks mask bit asked value }
{
    !gives(mask, bit) || asked == value
}
