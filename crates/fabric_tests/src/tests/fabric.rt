//! Requests and their answers, each refusal, each reason to discard a packet, and pings.
use fabric_model::{NodeId, NodePort};
use fabric_sim::{Delivered, Fabric, FabricFault, Packet, Ping, Reason};
use smp_bytes::{AttributeId, Lid, Method, Path, PortNum, Smp};
use std::alloc::Global;
use std::process::Abort;
use std::test::Fail;
use topo_file::parse;

/// Three switches in a ring, which are nodes 0 to 2. Two of them have an adapter, nodes 3 and 4.
const RING: &str = r#"Switch 4 "S1" guid 0x10
[1] "S2"[1]
[2] "S3"[1]
Switch 4 "S2" guid 0x20
[2] "S3"[2]
[3] "H1"[1]
Switch 4 "S3" guid 0x30
[3] "H2"[1]
Hca 1 "H1" guid 0x100
Hca 1 "H2" guid 0x200
"#;

fn ring(alloc: Global, first_serial: u64) -> Result<Fabric, Fail> {
    let topology = parse(alloc, RING)?;
    let mut fabric = Fabric::of(alloc, &topology, first_serial)?;
    fabric.seat(at(3, 1))?;
    Ok(fabric)
}

fn at(node: usize, port: u8) -> NodePort {
    NodePort {
        node: NodeId::new(node),
        port: PortNum::new(port),
    }
}

/// Builds a directed request over at most three ports, with zeros after the last one.
fn directed(
    method: Method,
    attribute: AttributeId,
    modifier: u32,
    ports: [u8; 3],
    data: &[u8; 64],
) -> Packet {
    let smp = Smp::directed(
        method,
        attribute,
        modifier,
        0x1_0000_0002,
        &Path::<63>::new(),
        data,
    );
    let mut bytes = *smp.bytes();
    bytes[129..132].copy_from_slice(&ports);
    bytes[7] = u8::from(ports[0] != 0) + u8::from(ports[1] != 0) + u8::from(ports[2] != 0);
    Packet {
        bytes,
        slid: Lid::new(0xFFFF),
        dlid: Lid::new(0xFFFF),
    }
}

fn get_node_info(ports: [u8; 3]) -> Packet {
    directed(Method::GET, AttributeId::NODE_INFO, 0, ports, &[0; 64])
}

/// Returns what a delivery did, or its refusal, as a word and a number.
fn said(delivered: Result<Delivered, FabricFault>) -> (&'static str, u64) {
    match delivered {
        Ok(Delivered::Moved(serial)) => ("moved", serial),
        Ok(Delivered::Answered(serial)) => ("answered", serial),
        Ok(Delivered::ToManager(port, _)) => ("manager", port.node.number() as u64),
        Ok(Delivered::Discarded(reason)) => match reason {
            Reason::Course => ("course", 0),
            Reason::Transit => ("transit", 0),
            Reason::OutPort => ("out port", 0),
            Reason::Down => ("down", 0),
            Reason::Unreadable => ("unreadable", 0),
            Reason::NoRoute => ("no route", 0),
            Reason::Repress => ("repress", 0),
        },
        Err(_) => ("refused", 0),
    }
}

/// Delivers the packet with the serial number `serial`, and then its answer, until neither moves on, at most 16 times.
/// Returns what the last delivery did.
fn carried(fabric: &mut Fabric, mut serial: u64) -> (&'static str, u64) {
    let mut last = ("moved", 0);
    for _ in 0..16 {
        last = said(fabric.deliver(serial));
        match last {
            ("moved", _) => {}
            ("answered", answer) => serial = answer,
            _ => return last,
        }
    }
    last
}

/// Delivers a request to the first switch, and its answer, until the manager has it, and checks each step.
fn check_round_trip(rt: &impl Abort, fabric: &mut Fabric) -> Result<(), Fail> {
    let serial = fabric.inject(at(3, 1), get_node_info([1, 0, 0]))?;
    // The serial number of the packet that is delivered, and what the delivery does. Then, for the packet that waits,
    // its first bytes, the first port of its path, the port recorded for the way back, and the local port in the
    // NodeInfo.
    let start = [
        0x01, 0x81, 0x01, 0x01, 0, 0, 0, 1, 0, 0, 0, 1, 0, 0, 0, 2, 0, 0x11, 0, 0, 0, 0, 0, 0,
    ];
    for (number, wanted, method, status, pointer, noted, local) in [
        (serial, ("moved", 7), 0x01, 0x00, 1, 0, 0),
        (serial, ("answered", 8), 0x81, 0x80, 2, 3, 3),
        (8, ("moved", 8), 0x81, 0x80, 1, 3, 3),
        (8, ("manager", 3), 0, 0, 0, 0, 0),
    ] {
        let result = said(fabric.deliver(number));
        assert!(rt; result == wanted, "{result:?}");
        if let Some(flight) = fabric.in_flight(0) {
            let bytes = &flight.packet.bytes;
            let seen = (
                bytes[3], bytes[4], bytes[6], bytes[129], bytes[193], bytes[100],
            );
            assert!(rt;
                seen == (method, status, pointer, 1, noted, local),
                "{seen:?}"
            );
            assert!(rt; bytes[7..24] == start[7..24], "{bytes:?}");
        }
    }
    Ok(())
}

#[test]
fn a_request_comes_and_its_answer_goes_home(rt: HostRuntime) -> Result<(), Fail> {
    let mut fabric = ring(rt.alloc(), 7)?;
    check_round_trip(&rt, &mut fabric)
}

/// Returns what becomes of `packet` if it is sent from the first adapter.
fn fate_of(alloc: Global, packet: Packet) -> Result<(&'static str, u64), Fail> {
    let mut fabric = ring(alloc, 0)?;
    let serial = fabric.inject(at(3, 1), packet)?;
    Ok(carried(&mut fabric, serial))
}

/// Builds a request for NodeInfo over a path of no hops, with `byte` at `offset`.
fn turned(offset: u8, byte: u8) -> Packet {
    let mut packet = get_node_info([0; 3]);
    packet.bytes[usize::from(offset)] = byte;
    packet
}

/// Builds a LID-routed request for NodeInfo to `dlid`.
fn routed(dlid: u16) -> Packet {
    Packet {
        bytes: *Smp::lid_routed(Method::GET, AttributeId::NODE_INFO, 0, 1, &[0; 64]).bytes(),
        slid: Lid::new(0),
        dlid: Lid::new(dlid),
    }
}

#[test]
fn each_packet_that_is_discarded(rt: HostRuntime) -> Result<(), Fail> {
    let get_sm_info = directed(Method::GET, AttributeId::SM_INFO, 0, [0; 3], &[0; 64]);
    // The adapter has no LID, so its LID is 0. Byte 0 is the base version, byte 3 the method and byte 6 the hop
    // pointer.
    for (packet, wanted) in [
        (turned(0, 2), ("unreadable", 0)),
        (turned(6, 1), ("course", 0)),
        (turned(3, 0x81), ("course", 0)),
        (get_node_info([2, 0, 0]), ("out port", 0)),
        (get_node_info([1, 4, 0]), ("down", 0)),
        (get_node_info([1, 5, 0]), ("out port", 0)),
        (get_node_info([1, 3, 1]), ("transit", 0)),
        (get_node_info([1, 3, 0]), ("manager", 3)),
        (get_node_info([0, 0, 0]), ("manager", 3)),
        (get_sm_info, ("manager", 3)),
        (routed(5), ("no route", 0)),
        (routed(0), ("manager", 3)),
    ] {
        let comes = fate_of(rt.alloc(), packet)?;
        assert!(rt; comes == wanted, "{comes:?} {wanted:?}");
    }
    Ok(())
}

/// Returns the refusal of each call about packets, and the one expected. The fabric has one packet in flight, and no
/// serial number left.
fn packet_refusals(fabric: &mut Fabric, last: u64) -> [(Option<FabricFault>, FabricFault); 7] {
    [
        (fabric.deliver(0).err(), FabricFault::NoSuchPacket),
        (fabric.lose(0).err(), FabricFault::NoSuchPacket),
        (fabric.repeat(0).err(), FabricFault::NoSuchPacket),
        (fabric.deliver(last).err(), FabricFault::SerialsSpent),
        (fabric.repeat(last).err(), FabricFault::SerialsSpent),
        (
            fabric.inject(at(3, 1), get_node_info([0; 3])).err(),
            FabricFault::SerialsSpent,
        ),
        (
            fabric.inject(at(4, 1), get_node_info([0; 3])).err(),
            FabricFault::NoSuchPort,
        ),
    ]
}

/// Returns the refusal of each call about ports, and the one expected.
fn port_refusals(fabric: &mut Fabric) -> [(Option<FabricFault>, FabricFault); 11] {
    let lid = Lid::new(1);
    [
        (fabric.seat(at(3, 1)).err(), FabricFault::PortTaken),
        (fabric.seat(at(0, 1)).err(), FabricFault::NoSuchPort),
        (fabric.seat(at(4, 2)).err(), FabricFault::NoSuchPort),
        (fabric.seat(at(4, 0)).err(), FabricFault::NoSuchPort),
        (
            fabric.plug(at(0, 3), at(0, 0)).err(),
            FabricFault::NoSuchPort,
        ),
        (
            fabric.plug(at(5, 1), at(0, 3)).err(),
            FabricFault::NoSuchPort,
        ),
        (
            fabric.plug(at(0, 3), at(0, 1)).err(),
            FabricFault::PortTaken,
        ),
        (fabric.cut(at(0, 3)).err(), FabricFault::NoSuchPort),
        (fabric.cut(at(0, 5)).err(), FabricFault::NoSuchPort),
        (fabric.ping(at(3, 0), lid).err(), FabricFault::NoSuchPort),
        (fabric.ping(at(0, 5), lid).err(), FabricFault::NoSuchPort),
    ]
}

/// Checks the refusals of calls about packets, and then about ports.
fn check_refusals(rt: &impl Abort, fabric: &mut Fabric) -> Result<(), Fail> {
    let last = fabric.inject(at(3, 1), get_node_info([0; 3]))?;
    for (refused, wanted) in packet_refusals(fabric, last) {
        assert!(rt; refused == Some(wanted), "{refused:?} {wanted:?}");
    }
    for (refused, wanted) in port_refusals(fabric) {
        assert!(rt; refused == Some(wanted), "{refused:?} {wanted:?}");
    }
    let is_taken = fabric.ping(at(0, 0), Lid::new(1)).is_ok() && fabric.lose(last).is_ok();
    assert!(rt; is_taken);
    Ok(())
}

#[test]
fn each_refusal(rt: HostRuntime) -> Result<(), Fail> {
    let mut fabric = ring(rt.alloc(), u64::MAX)?;
    check_refusals(&rt, &mut fabric)
}

/// Returns where a ping ends: the node, the port and the number of wires. Returns the node, 0 and 99 if the ping is
/// lost, and 99 three times if it is refused.
fn pinged(fabric: &Fabric, lid: u16) -> (usize, u8, usize) {
    match fabric.ping(at(3, 1), Lid::new(lid)) {
        Ok(ping) => spot(&ping),
        Err(_) => (99, 99, 99),
    }
}

fn spot(ping: &Ping) -> (usize, u8, usize) {
    match ping {
        Ping::Reached(port, hops) => (port.node.number(), port.port.number(), *hops),
        Ping::Lost(node) => (node.number(), 0, 99),
    }
}

/// Returns where pings for the LIDs 2, 3 and 5 end.
fn three_pings(fabric: &Fabric) -> [(usize, u8, usize); 3] {
    [2, 3, 5].map(|lid| pinged(fabric, lid))
}

/// Returns what becomes of a Set of `attribute` over `path`.
fn set_over(
    fabric: &mut Fabric,
    attribute: AttributeId,
    path: [u8; 3],
    data: &[u8; 64],
) -> Result<(&'static str, u64), FabricFault> {
    let set = directed(Method::SET, attribute, 0, path, data);
    let serial = fabric.inject(at(3, 1), set)?;
    Ok(carried(fabric, serial))
}

/// Sets tables and a LID, and checks that pings go further after each Set.
fn check_sets(rt: &impl Abort, fabric: &mut Fabric) -> Result<(), Fail> {
    let (table, switch_info) = (
        AttributeId::LINEAR_FORWARDING_TABLE,
        AttributeId::SWITCH_INFO,
    );
    let mut block = [0xFF; 64];
    block[1..6].copy_from_slice(&[1, 0, 2, 3, 2]);
    let mut back = [0xFF; 64];
    back[3] = 2;
    let mut top = [0; 64];
    top[7] = 5;
    let mut lid = [0; 64];
    lid[17] = 4;
    let at_first = [(1, 0, 99), (1, 0, 99), (1, 0, 99)];
    let then = [(1, 0, 1), (2, 0, 99), (2, 0, 99)];
    for (attribute, path, data, wanted) in [
        (table, [1, 0, 0], &block, at_first),
        (switch_info, [1, 0, 0], &top, then),
        (table, [1, 2, 0], &back, then),
        (switch_info, [1, 2, 0], &top, then),
        (AttributeId::PORT_INFO, [0; 3], &lid, then),
    ] {
        let comes = set_over(fabric, attribute, path, data)?;
        let seen = three_pings(fabric);
        assert!(rt;
            comes == ("manager", 3) && seen == wanted,
            "{comes:?} {seen:?}"
        );
    }
    Ok(())
}

/// Returns the SLID and the DLID of the first packet in flight, if there is one.
fn waiting(fabric: &Fabric) -> Option<(u16, u16)> {
    let flight = fabric.in_flight(0)?;
    Some((flight.packet.slid.number(), flight.packet.dlid.number()))
}

/// Checks that the tables bring a request by LIDs to its port, and its answer back.
fn check_routed(rt: &impl Abort, fabric: &mut Fabric) -> Result<(), Fail> {
    let serial = fabric.inject(at(3, 1), routed(2))?;
    for (number, wanted, waits) in [
        (serial, ("moved", 10), Some((4, 2))),
        (serial, ("answered", 11), Some((2, 4))),
        (11, ("moved", 11), Some((2, 4))),
        (11, ("manager", 3), None),
    ] {
        let comes = said(fabric.deliver(number));
        let is_right = comes == wanted && waiting(fabric) == waits;
        assert!(rt; is_right, "{comes:?}");
    }
    Ok(())
}

/// Checks pings, Sets and a request by LIDs.
fn check_tables(rt: &impl Abort, fabric: &mut Fabric) -> Result<(), Fail> {
    let fresh = pinged(fabric, 5);
    assert!(rt; fresh == (1, 0, 99), "{fresh:?}");
    check_sets(rt, fabric)?;
    let own = pinged(fabric, 4);
    assert!(rt; own == (3, 1, 0), "{own:?}");
    check_routed(rt, fabric)
}

#[test]
fn packets_that_tables_route(rt: HostRuntime) -> Result<(), Fail> {
    let mut fabric = ring(rt.alloc(), 0)?;
    check_tables(&rt, &mut fabric)
}

/// Repeats a request for NodeInfo twice, loses the first copy, and checks the others.
fn check_copies(rt: &impl Abort, fabric: &mut Fabric) -> Result<(), Fail> {
    let serial = fabric.inject(at(3, 1), get_node_info([1, 0, 0]))?;
    let copy = fabric.repeat(serial)?;
    let other = fabric.repeat(copy)?;
    fabric.lose(copy)?;
    let all = (fabric.flight_count(), copy, other, fabric.node_count());
    assert!(rt; all == (2, 1, 2, 5), "{all:?}");
    for number in [serial, other] {
        let comes = carried(fabric, number);
        assert!(rt; comes == ("manager", 3), "{comes:?}");
    }
    Ok(())
}

/// Checks that a packet that came by a wire is discarded once the cable is cut, and that a packet at its seat is not.
fn check_cut(rt: &impl Abort, fabric: &mut Fabric) -> Result<(), Fail> {
    let came = fabric.inject(at(3, 1), get_node_info([1, 0, 0]))?;
    let moved = said(fabric.deliver(came));
    let waits = fabric.inject(at(3, 1), get_node_info([0; 3]))?;
    fabric.cut(at(1, 3))?;
    let seen = [moved, carried(fabric, waits), carried(fabric, came)];
    let wanted = [("moved", came), ("manager", 3), ("down", 0)];
    assert!(rt; seen == wanted, "{seen:?}");
    Ok(())
}

/// Checks copies of packets, a cut cable, and a cable from a port to itself.
fn check_cables(rt: &impl Abort, fabric: &mut Fabric) -> Result<(), Fail> {
    check_copies(rt, fabric)?;
    check_cut(rt, fabric)?;
    fabric.plug(at(1, 3), at(1, 3))?;
    let across = (fabric.across(&at(1, 3)), fabric.across(&at(3, 1)));
    let is_seat = fabric.is_seat(&at(3, 1));
    assert!(rt; is_seat && across == (Some(at(1, 3)), None));
    Ok(())
}

#[test]
fn copies_losses_and_cables(rt: HostRuntime) -> Result<(), Fail> {
    let mut fabric = ring(rt.alloc(), 0)?;
    check_cables(&rt, &mut fabric)
}
