//! Tests with packets written byte by byte from the format, and tests of what is printed.
use smp_bytes::{
    AttributeId, Generation, Guid, Lid, Method, NodeType, Path, PortNum, Smp, SmpFault, Status,
};
use std::process::Abort;
use std::test::Fail;

/// The answer of an adapter with one port to a directed Get(NodeInfo) without hops. All later bytes are 0.
const REPLY: [u8; 101] = [
    0x01, 0x81, 0x01, 0x81, 0x80, 0x00, 0x00, 0x00, 0, 0, 0, 1, 0, 0, 0, 1, // up to TransactionID
    0x00, 0x11, 0, 0, 0, 0, 0, 0, 0, 0, 0, 0, 0, 0, 0, 0, // up to M_Key
    0xFF, 0xFF, 0xFF, 0xFF, 0, 0, 0, 0, 0, 0, 0, 0, 0, 0, 0, 0, // both LIDs
    0, 0, 0, 0, 0, 0, 0, 0, 0, 0, 0, 0, 0, 0, 0, 0, // reserved
    1, 1, 1, 1, 0, 0, 0, 0, 0, 0, 0x01, 0x00, 0, 0, 0, 0, // the attribute
    0, 0, 0x01, 0x00, 0, 0, 0, 0, 0, 0, 0x01, 0x01, 0x00, 0x01, 0, 0, //
    0, 0, 0, 0, 1,
];

/// A directed Get(NodeInfo) of one hop, through port 1. All later bytes are 0.
const REQUEST: [u8; 130] = [
    0x01, 0x81, 0x01, 0x01, 0x00, 0x00, 0x00, 0x01, 0, 0, 0, 1, 0, 0, 0, 1, // up to TransactionID
    0x00, 0x11, 0, 0, 0, 0, 0, 0, 0, 0, 0, 0, 0, 0, 0, 0, // up to M_Key
    0xFF, 0xFF, 0xFF, 0xFF, 0, 0, 0, 0, 0, 0, 0, 0, 0, 0, 0, 0, // both LIDs
    0, 0, 0, 0, 0, 0, 0, 0, 0, 0, 0, 0, 0, 0, 0, 0, // reserved
    0, 0, 0, 0, 0, 0, 0, 0, 0, 0, 0, 0, 0, 0, 0, 0, // the attribute
    0, 0, 0, 0, 0, 0, 0, 0, 0, 0, 0, 0, 0, 0, 0, 0, //
    0, 0, 0, 0, 0, 0, 0, 0, 0, 0, 0, 0, 0, 0, 0, 0, //
    0, 0, 0, 0, 0, 0, 0, 0, 0, 0, 0, 0, 0, 0, 0, 0, //
    0, 1, // InitialPath
];

/// Returns the bytes of a packet: `begin`, followed by zeros.
fn packet(begin: &[u8]) -> [u8; 256] {
    let mut bytes = [0; 256];
    for (slot, byte) in bytes.iter_mut().zip(begin) {
        *slot = *byte;
    }
    bytes
}

/// Asserts that the packet has the bytes `wanted`, starting at `offset`.
fn assert_at(rt: &impl Abort, smp: &Smp, offset: usize, wanted: &[u8]) {
    let is_there = match smp.bytes().get(offset..) {
        Some(rest) => rest.starts_with(wanted),
        None => false,
    };
    assert!(rt; is_there, "from {offset} on");
}

/// Returns the fields of a packet as numbers, in the order in which the packet has them.
fn numbers(smp: &Smp) -> [u64; 14] {
    [
        u64::from(smp.base_version()),
        u64::from(smp.class_version()),
        u64::from(smp.method().0),
        u64::from(smp.is_response()),
        u64::from(smp.is_returning()),
        u64::from(smp.status().0),
        u64::from(smp.hop_pointer()),
        u64::from(smp.hop_count()),
        smp.transaction_id(),
        u64::from(smp.attribute_id().0),
        u64::from(smp.attribute_modifier()),
        smp.m_key(),
        u64::from(smp.dr_slid().number()),
        u64::from(smp.initial_path(1).number()),
    ]
}

#[test]
fn reads_each_field(rt: HostRuntime) -> Result<(), Fail> {
    let smp = Smp::parse(&packet(&REPLY))?;
    let wanted = [
        1,
        1,
        0x81,
        1,
        1,
        0,
        0,
        0,
        0x0000_0001_0000_0001,
        0x11,
        0,
        0,
        0xFFFF,
        0,
    ];
    assert!(rt; numbers(&smp) == wanted);
    Ok(())
}

/// The offset of a byte of the reply, the new value of that byte, the fault that this causes, and the name of the
/// fault.
const CHANGES: [(usize, u8, SmpFault, &str); 7] = [
    (0, 2, SmpFault::BaseVersion, "BaseVersion"),
    (1, 0x82, SmpFault::Class, "Class"),
    (2, 0, SmpFault::ClassVersion, "ClassVersion"),
    (7, 64, SmpFault::HopCount, "HopCount"),
    (6, 2, SmpFault::HopPointer, "HopPointer"),
    (32, 0xFE, SmpFault::DrLid, "DrLid"),
    (35, 0, SmpFault::DrLid, "DrLid"),
];

/// Checks that the reply with one byte changed is rejected, and that `{}` of the fault is its name.
#[test]
fn names_each_fault(rt: HostRuntime) -> Result<(), Fail> {
    for (offset, byte, fault, name) in CHANGES {
        let mut bytes = packet(&REPLY);
        if let Some(changed) = bytes.get_mut(offset) {
            *changed = byte;
        }
        let text = format!(in rt.alloc(); "{fault}")?;
        let is_told = Smp::parse(&bytes).err() == Some(fault) && fault.name() == name;
        assert!(rt; is_told && text.as_str() == name, "{name}");
    }
    Ok(())
}

#[test]
fn makes_a_request_and_its_answer(rt: HostRuntime) {
    let mut path = Path::<63>::new();
    path.push(PortNum::new(1));
    let (get, node_info) = (Method::GET, AttributeId::NODE_INFO);
    let request = Smp::directed(get, node_info, 0, 0x0000_0001_0000_0001, &path, &[0; 64]);
    assert_at(&rt, &request, 0, &packet(&REQUEST));
    let answer = request.answer(Status::DONE, &[0xAB; 64]);
    for (offset, bytes) in [
        (0, &[0x01, 0x81, 0x01, 0x81, 0x80, 0x00, 0x00, 0x01]),
        (64, &[0xAB; 8]),
        (120, &[0xAB; 8]),
        (128, &[0, 1, 0, 0, 0, 0, 0, 0]),
    ] {
        assert_at(&rt, &answer, offset, bytes);
    }
}

#[test]
fn makes_a_lid_routed_request(rt: HostRuntime) {
    let request = Smp::lid_routed(Method::SET, AttributeId::SM_INFO, 5, 7, &[0xCD; 64]);
    for (offset, bytes) in [
        (0, &[0x01, 0x01, 0x01, 0x02, 0, 0, 0, 0]),
        (8, &[0, 0, 0, 0, 0, 0, 0, 7]),
        (16, &[0x00, 0x20, 0, 0, 0, 0, 0, 5]),
        (32, &[0, 0, 0, 0, 0, 0, 0, 0]),
        (64, &[0xCD; 8]),
        (128, &[0, 0, 0, 0, 0, 0, 0, 0]),
    ] {
        assert_at(&rt, &request, offset, bytes);
    }
}

#[test]
fn writes_each_field(rt: HostRuntime) -> Result<(), Fail> {
    let mut smp = Smp::parse(&packet(&REPLY))?;
    smp.set_method(Method::GET);
    smp.set_returning(false);
    smp.set_status(Status::INVALID_FIELD);
    smp.set_transaction_id(0x0102_0304_0506_0708);
    smp.set_hop_pointer(0);
    smp.set_initial_path(1, PortNum::new(8));
    smp.set_return_path(1, PortNum::new(9));
    for (offset, bytes) in [
        (0, &[0x01, 0x81, 0x01, 0x01, 0x00, 0x1C, 0x00, 0x00]),
        (8, &[1, 2, 3, 4, 5, 6, 7, 8]),
        (128, &[0, 8, 0, 0, 0, 0, 0, 0]),
        (192, &[0, 9, 0, 0, 0, 0, 0, 0]),
    ] {
        assert_at(&rt, &smp, offset, bytes);
    }
    Ok(())
}

#[test]
fn prints_numbers_and_kinds(rt: HostRuntime) -> Result<(), Fail> {
    let guid = Guid::new(0x00AB_0000_0000_0101);
    let (lid, port) = (Lid::new(49151), PortNum::new(254));
    let generation = Generation::new(7).ok_or("no generation")?;
    let [adapter, switch, router] = [NodeType::ChannelAdapter, NodeType::Switch, NodeType::Router];
    let text = format!(in rt.alloc();
        "{guid} {lid} {port} {generation} {adapter} {switch} {router}"
    )?;
    assert!(rt; text.as_str() == "00ab000000000101 49151 254 7 ca switch router");
    Ok(())
}

#[test]
fn answers_over_its_way(rt: HostRuntime) -> Result<(), Fail> {
    let (set, sm) = (AttributeId::PORT_INFO, AttributeId::SM_INFO);
    let mut path = Path::new();
    path.push(PortNum::new(3));
    let request = Smp::directed(Method::SET, set, 1, 7, &path, &[0; 64]);
    let reply = request.answer(Status::INVALID_FIELD, &[9; 64]);
    for (offset, value, is_answer) in [
        (4, 0x80, true),
        (5, 0, true),
        (1, 0x01, false),
        (7, 2, false),
        (14, 1, false),
        (15, 8, false),
        (17, 0x12, false),
        (23, 2, false),
        (129, 1, false),
        (130, 1, true),
    ] {
        let mut bytes = *reply.bytes();
        if let Some(byte) = bytes.get_mut(offset) {
            *byte = value;
        }
        let smp = Smp::parse(&bytes).ok().ok_or("no packet")?;
        assert!(rt;
            smp.answers(7, set, 1, Some(&path)) == is_answer,
            "{offset}"
        );
    }
    let routed = Smp::lid_routed(Method::GET, sm, 0, 7, &[0; 64]);
    let by_lids = routed.answers(7, sm, 0, None) && !request.answers(7, set, 1, None);
    assert!(rt; by_lids && !routed.answers(7, sm, 0, Some(&Path::new())));
    Ok(())
}
