ghost use Rattle.std.specs.Prelude.{◌≡◌};

use crate::attribute::Attribute;
use crate::field_type;
use crate::macros::fields;
use crate::node_type_number::NodeTypeNumber;
use crate::vendor_id::VendorId;
use smp_bytes::{AttributeId, Guid, PortNum};

/// The properties of a node, and the port by which the request came (subnet management, NodeInfo).
#[derive(Clone, Copy, Debug, PartialEq, Eq)]
pub struct NodeInfo {
    pub base_version: u8,
    pub class_version: u8,
    pub node_type: NodeTypeNumber,
    /// The number of ports, without port 0 of a switch.
    pub num_ports: u8,
    pub system_image_guid: Guid,
    pub node_guid: Guid,
    /// The GUID of the port that received the request. For a switch, the GUID of port 0.
    pub port_guid: Guid,
    pub partition_cap: u16,
    pub device_id: u16,
    pub revision: u32,
    /// The port by which the request came.
    pub local_port_num: PortNum,
    pub vendor_id: VendorId,
}

/// Each field, its type and its offset.
macro_rules! node_info {
    ($make:ident $source:ident) => {
        fields!($make $source, NodeInfo {
            base_version: u8 at 0,
            class_version: u8 at 1,
            node_type: NodeTypeNumber at 2,
            num_ports: u8 at 3,
            system_image_guid: Guid at 4,
            node_guid: Guid at 12,
            port_guid: Guid at 20,
            partition_cap: u16 at 28,
            device_id: u16 at 30,
            revision: u32 at 32,
            local_port_num: PortNum at 36,
            vendor_id: VendorId at 37,
        })
    };
}

impl Attribute for NodeInfo {
    ghost use Rattle.attr_codec.specs.NodeInfo.{FitsNodeInfo, node_info_in, node_info_bytes};
    ghost use Rattle.smp_bytes.specs.Header.{node_info};

    const ID: u16 = AttributeId::NODE_INFO.0;

    ghost ID = { node_info };

    ghost is_value = { FitsNodeInfo };

    ghost value_in = { node_info_in };

    ghost bytes_of = { node_info_bytes };

    fn decode(bytes: &[u8; 64]) -> Self {
        node_info!(decode bytes)
    }

    fn encode(&self) -> [u8; 64] {
        node_info!(encode self)
    }

    ghost use Rattle.attr_codec.specs.RoundTrip.{node_info_reads_back};

    ghost reads_back = { node_info_reads_back };
}
