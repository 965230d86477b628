ghost use Rattle.std.specs.Prelude.{◌≡◌};
ghost use Rattle.sa_bytes.specs.MemberRecord.{FitsMemberRecord, member_record_bytes, member_record_in};

use smp_bytes::wire::{put_u8, put_u16, put_u32, put_u64, u8_at, u16_at, u32_at, u64_at};
use smp_bytes::{Guid, Lid};

/// The membership of a port in a multicast group (subnet administration, MCMemberRecord): 52 bytes, of 64.
#[derive(Clone, Copy, Debug, PartialEq, Eq)]
pub struct MemberRecord {
    /// The first 8 bytes of MGID.
    pub mgid_high: u64,
    /// The last 8 bytes of MGID.
    pub mgid_low: u64,
    /// The GID prefix of PortGID.
    pub port_prefix: u64,
    /// The port GUID of PortGID.
    pub port_guid: Guid,
    pub q_key: u32,
    /// The multicast LID of the group.
    pub mlid: Lid,
    /// A selector (2 bits) and the number of the MTU (6 bits).
    pub mtu: u8,
    pub traffic_class: u8,
    pub p_key: u16,
    /// A selector (2 bits) and the number of the rate (6 bits).
    pub rate: u8,
    /// A selector (2 bits) and the number of the time (6 bits).
    pub packet_life_time: u8,
    /// SL (4 bits), FlowLabel (20 bits) and HopLimit (8 bits).
    pub sl_flow_and_hops: u32,
    /// Scope (4 bits) and JoinState (4 bits).
    pub scope_and_state: u8,
    /// ProxyJoin (1 bit) and 7 reserved bits.
    pub proxy_join: u8,
}

impl MemberRecord {
    /// Decodes 64 bytes. Any 64 bytes spell a membership.
    pub fn decode(bytes: &[u8; 64]) -> Self
        ensures value { result ≡ member_record_in bytes.now }
        ensures fits { FitsMemberRecord result }
    {
        MemberRecord {
            mgid_high: u64_at(bytes, 0),
            mgid_low: u64_at(bytes, 8),
            port_prefix: u64_at(bytes, 16),
            port_guid: Guid::new(u64_at(bytes, 24)),
            q_key: u32_at(bytes, 32),
            mlid: Lid::new(u16_at(bytes, 36)),
            mtu: u8_at(bytes, 38),
            traffic_class: u8_at(bytes, 39),
            p_key: u16_at(bytes, 40),
            rate: u8_at(bytes, 42),
            packet_life_time: u8_at(bytes, 43),
            sl_flow_and_hops: u32_at(bytes, 44),
            scope_and_state: u8_at(bytes, 48),
            proxy_join: u8_at(bytes, 49),
        }
    }

    /// Encodes the membership.
    pub fn encode(self) -> [u8; 64]
        ensures bytes { result ≡ member_record_bytes self }
        ensures fits { FitsMemberRecord self }
    {
        let mut bytes = [0u8; 64];
        put_u64(&mut bytes, 0, self.mgid_high);
        put_u64(&mut bytes, 8, self.mgid_low);
        put_u64(&mut bytes, 16, self.port_prefix);
        put_u64(&mut bytes, 24, self.port_guid.number());
        put_u32(&mut bytes, 32, self.q_key);
        put_u16(&mut bytes, 36, self.mlid.number());
        put_u8(&mut bytes, 38, self.mtu);
        put_u8(&mut bytes, 39, self.traffic_class);
        put_u16(&mut bytes, 40, self.p_key);
        put_u8(&mut bytes, 42, self.rate);
        put_u8(&mut bytes, 43, self.packet_life_time);
        put_u32(&mut bytes, 44, self.sl_flow_and_hops);
        put_u8(&mut bytes, 48, self.scope_and_state);
        put_u8(&mut bytes, 49, self.proxy_join);
        bytes
    }
}
