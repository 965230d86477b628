ghost use Rattle.std.specs.Prelude.{◌≡◌};
ghost use Rattle.sa_bytes.specs.PortInfoRecord.{port_info_record_bytes};

use attr_codec::{Attribute, PortInfo};
use smp_bytes::wire::{put_bytes, put_u8, put_u16};
use smp_bytes::{Lid, PortNum};

/// The number of bytes of a PortInfoRecord.
pub const PORT_INFO_RECORD_BYTES: usize = 72;

/// The PortInfo of a port (subnet administration, PortInfoRecord).
#[derive(Clone, Copy, Debug, PartialEq, Eq)]
pub struct PortInfoRecord {
    /// The first LID of the end port of the node: port 0 of a switch, or the port itself.
    pub lid: Lid,
    pub port: PortNum,
    pub info: PortInfo,
}

impl PortInfoRecord {
    /// Encodes the record.
    #[tactic(auto, using(crate::proofs::Records::as_64_same))]
    pub fn encode(&self) -> [u8; PORT_INFO_RECORD_BYTES]
        ensures { result ≡ port_info_record_bytes self.now }
    {
        let mut bytes = [0; PORT_INFO_RECORD_BYTES];
        put_u16(&mut bytes, 0, self.lid.number());
        put_u8(&mut bytes, 2, self.port.number());
        put_bytes(&mut bytes, 4, &self.info.encode());
        bytes
    }
}
