//! Tests with attributes written byte by byte from the format.
use attr_codec::{
    Attribute, NodeInfo, NodeTypeNumber, PortInfo, PortState, Priority, SmInfo, SmStateNumber,
    SwitchInfo, VendorId,
};
use smp_bytes::{Guid, NodeType, PortNum};
use std::test::Fail;

/// Returns the bytes of a NodeInfo in which no two bytes of a field are equal.
fn node_info_bytes() -> [u8; 64] {
    let mut bytes = [0; 64];
    bytes[..4].copy_from_slice(&[1, 2, 3, 4]);
    bytes[4..12].copy_from_slice(&[0x11, 0x12, 0x13, 0x14, 0x15, 0x16, 0x17, 0x18]);
    bytes[12..20].copy_from_slice(&[0x21, 0x22, 0x23, 0x24, 0x25, 0x26, 0x27, 0x28]);
    bytes[20..28].copy_from_slice(&[0x31, 0x32, 0x33, 0x34, 0x35, 0x36, 0x37, 0x38]);
    bytes[28..36].copy_from_slice(&[0x41, 0x42, 0x51, 0x52, 0x61, 0x62, 0x63, 0x64]);
    bytes[36..40].copy_from_slice(&[0x71, 0x81, 0x82, 0x83]);
    bytes
}

#[test]
fn node_info(rt: HostRuntime) -> Result<(), Fail> {
    let info = NodeInfo {
        base_version: 1,
        class_version: 2,
        node_type: NodeTypeNumber::from(NodeType::Router),
        num_ports: 4,
        system_image_guid: Guid::new(0x1112_1314_1516_1718),
        node_guid: Guid::new(0x2122_2324_2526_2728),
        port_guid: Guid::new(0x3132_3334_3536_3738),
        partition_cap: 0x4142,
        device_id: 0x5152,
        revision: 0x6162_6364,
        local_port_num: PortNum::new(0x71),
        vendor_id: VendorId::new(0x81_8283).ok_or("no vendor")?,
    };
    assert!(rt; info.encode() == node_info_bytes());
    Ok(())
}

#[test]
fn port_info(rt: HostRuntime) {
    let mut bytes = [0; 64];
    bytes[..8].copy_from_slice(&[1, 2, 3, 4, 5, 6, 7, 8]);
    bytes[8..16].copy_from_slice(&[0x11, 0x12, 0x13, 0x14, 0x15, 0x16, 0x17, 0x18]);
    bytes[16..24].copy_from_slice(&[0x21, 0x22, 0x31, 0x32, 0x41, 0x42, 0x43, 0x42]);
    bytes[28] = 0x51;
    bytes[32..35].copy_from_slice(&[0x13, 0x52, 0x87]);
    let info = PortInfo::decode(&bytes);
    let numbers = [
        info.m_key(),
        info.gid_prefix(),
        u64::from(info.base_lid().number()),
        u64::from(info.master_sm_lid().number()),
        u64::from(info.capability_mask()),
        u64::from(info.is_sm()),
        u64::from(info.local_port_num().number()),
        u64::from(info.link_speed_supported()),
        u64::from(info.port_state() == Some(PortState::Armed)),
        u64::from(info.port_physical_state()),
        u64::from(info.link_down_default_state()),
        u64::from(info.m_key_protect_bits()),
        u64::from(info.lmc().number()),
    ];
    let (m_key, gid_prefix) = (0x0102_0304_0506_0708, 0x1112_1314_1516_1718);
    let wanted = [
        m_key,
        gid_prefix,
        0x2122,
        0x3132,
        0x4142_4342,
        1,
        0x51,
        1,
        1,
        5,
        2,
        2,
        7,
    ];
    assert!(rt; numbers == wanted);
}

#[test]
fn switch_info(rt: HostRuntime) {
    let mut bytes = [0; 64];
    bytes[..8].copy_from_slice(&[1, 2, 3, 4, 5, 6, 7, 8]);
    bytes[8..16].copy_from_slice(&[9, 10, 11, 0x94, 12, 13, 14, 15]);
    let info = SwitchInfo::decode(&bytes);
    let numbers = [
        info.linear_fdb_cap(),
        info.random_fdb_cap(),
        info.multicast_fdb_cap(),
        info.linear_fdb_top().number(),
        u16::from(info.default_port().number()),
        u16::from(info.default_multicast_primary_port().number()),
        u16::from(info.default_multicast_not_primary_port().number()),
        u16::from(info.life_time_value()),
        u16::from(info.port_state_change()),
        info.lids_per_port(),
        info.partition_enforcement_cap(),
    ];
    let wanted = [
        0x0102, 0x0304, 0x0506, 0x0708, 9, 10, 11, 18, 1, 0x0C0D, 0x0E0F,
    ];
    assert!(rt; numbers == wanted);
}

#[test]
fn sm_info(rt: HostRuntime) -> Result<(), Fail> {
    let info = SmInfo {
        guid: Guid::new(0x0102_0304_0506_0708),
        sm_key: 0x1112_1314_1516_1718,
        act_count: 0x2122_2324,
        priority: Priority::new(5).ok_or("no priority")?,
        state: SmStateNumber::new(2).ok_or("no state")?,
    };
    let mut bytes = [0; 64];
    bytes[..8].copy_from_slice(&[1, 2, 3, 4, 5, 6, 7, 8]);
    bytes[8..16].copy_from_slice(&[0x11, 0x12, 0x13, 0x14, 0x15, 0x16, 0x17, 0x18]);
    bytes[16..21].copy_from_slice(&[0x21, 0x22, 0x23, 0x24, 0x52]);
    assert!(rt; info.encode() == bytes);
    Ok(())
}
