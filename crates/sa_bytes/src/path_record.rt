ghost use Rattle.std.specs.Prelude.{◌≡◌};
ghost use Rattle.sa_bytes.specs.PathRecord.{FitsPathRecord, path_record_bytes, path_record_in};

use smp_bytes::wire::{put_u8, put_u16, put_u32, put_u64, u8_at, u16_at, u32_at, u64_at};
use smp_bytes::{Guid, Lid};

/// A path from one port to another (subnet administration, PathRecord): 64 bytes. DGID, DLID and the like are of the
/// destination, SGID and SLID of the source.
#[derive(Clone, Copy, Debug, PartialEq, Eq)]
pub struct PathRecord {
    pub service_id: u64,
    pub dgid_prefix: u64,
    /// The port GUID of DGID.
    pub dgid_guid: Guid,
    pub sgid_prefix: u64,
    /// The port GUID of SGID.
    pub sgid_guid: Guid,
    pub dlid: Lid,
    pub slid: Lid,
    /// RawTraffic (1 bit), 3 reserved bits, FlowLabel (20 bits) and HopLimit (8 bits).
    pub flow_and_hops: u32,
    pub traffic_class: u8,
    /// Reversible (1 bit) and NumbPath (7 bits).
    pub reversible_and_count: u8,
    pub p_key: u16,
    /// QoSClass (12 bits) and SL (4 bits).
    pub qos_class_and_sl: u16,
    /// A selector (2 bits) and the number of the MTU (6 bits).
    pub mtu: u8,
    /// A selector (2 bits) and the number of the rate (6 bits).
    pub rate: u8,
    /// A selector (2 bits) and the number of the time (6 bits).
    pub packet_life_time: u8,
    pub preference: u8,
}

impl PathRecord {
    /// Decodes 64 bytes. Any 64 bytes spell a path.
    pub fn decode(bytes: &[u8; 64]) -> Self
        ensures value { result ≡ path_record_in bytes.now }
        ensures fits { FitsPathRecord result }
    {
        PathRecord {
            service_id: u64_at(bytes, 0),
            dgid_prefix: u64_at(bytes, 8),
            dgid_guid: Guid::new(u64_at(bytes, 16)),
            sgid_prefix: u64_at(bytes, 24),
            sgid_guid: Guid::new(u64_at(bytes, 32)),
            dlid: Lid::new(u16_at(bytes, 40)),
            slid: Lid::new(u16_at(bytes, 42)),
            flow_and_hops: u32_at(bytes, 44),
            traffic_class: u8_at(bytes, 48),
            reversible_and_count: u8_at(bytes, 49),
            p_key: u16_at(bytes, 50),
            qos_class_and_sl: u16_at(bytes, 52),
            mtu: u8_at(bytes, 54),
            rate: u8_at(bytes, 55),
            packet_life_time: u8_at(bytes, 56),
            preference: u8_at(bytes, 57),
        }
    }

    /// Encodes the path.
    pub fn encode(self) -> [u8; 64]
        ensures bytes { result ≡ path_record_bytes self }
        ensures fits { FitsPathRecord self }
    {
        let mut bytes = [0u8; 64];
        put_u64(&mut bytes, 0, self.service_id);
        put_u64(&mut bytes, 8, self.dgid_prefix);
        put_u64(&mut bytes, 16, self.dgid_guid.number());
        put_u64(&mut bytes, 24, self.sgid_prefix);
        put_u64(&mut bytes, 32, self.sgid_guid.number());
        put_u16(&mut bytes, 40, self.dlid.number());
        put_u16(&mut bytes, 42, self.slid.number());
        put_u32(&mut bytes, 44, self.flow_and_hops);
        put_u8(&mut bytes, 48, self.traffic_class);
        put_u8(&mut bytes, 49, self.reversible_and_count);
        put_u16(&mut bytes, 50, self.p_key);
        put_u16(&mut bytes, 52, self.qos_class_and_sl);
        put_u8(&mut bytes, 54, self.mtu);
        put_u8(&mut bytes, 55, self.rate);
        put_u8(&mut bytes, 56, self.packet_life_time);
        put_u8(&mut bytes, 57, self.preference);
        bytes
    }
}
