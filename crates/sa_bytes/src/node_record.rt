ghost use Rattle.std.specs.Prelude.{◌≡◌};
ghost use Rattle.attr_codec.specs.NodeInfo.{FitsNodeInfo};
ghost use Rattle.sa_bytes.specs.NodeRecord.{node_record_bytes};

use attr_codec::{Attribute, NodeInfo};
use smp_bytes::Lid;
use smp_bytes::wire::{put_bytes, put_u16};

/// The number of bytes of a NodeRecord: 108, and 4 to make them whole units of 8.
pub const NODE_RECORD_BYTES: usize = 112;

/// A node at one of its end ports (subnet administration, NodeRecord). NodeDescription is not told.
#[derive(Clone, Copy, Debug, PartialEq, Eq)]
pub struct NodeRecord {
    /// The first LID of the end port.
    pub lid: Lid,
    /// NodeInfo as the end port tells it.
    pub info: NodeInfo,
}

impl NodeRecord {
    /// Encodes the record. NodeDescription is 0.
    pub fn encode(&self) -> [u8; NODE_RECORD_BYTES]
        ensures bytes { result ≡ node_record_bytes self.now }
        ensures fits { FitsNodeInfo self.now.info }
    {
        let mut bytes = [0; NODE_RECORD_BYTES];
        put_u16(&mut bytes, 0, self.lid.number());
        put_bytes(&mut bytes, 4, &self.info.encode());
        bytes
    }
}
