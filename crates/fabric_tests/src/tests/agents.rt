//! The agents of the sample fabric's switch S2 and adapter H1: each status, each attribute byte for byte, and port
//! states.
use attr_codec::{Attribute, NodeDescription, PortState};
use node_agents::{Agent, AgentNode};
use smp_bytes::{AttributeId, Guid, Lid, Method, NodeType, Path, PortNum, Smp, Status};
use std::alloc::{AllocError, Global};
use std::test::Fail;

/// Creates the switch S2, whose port 3 is wired.
fn s2(alloc: Global) -> Result<Agent, AllocError> {
    let mut agent = Agent::new(
        alloc,
        AgentNode {
            guid: Guid::new(0x20),
            kind: NodeType::Switch,
            ports: 4,
            cap: 1024,
            description: NodeDescription::decode(&[b'S'; 64]),
        },
    )?;
    agent.set_wired(PortNum::new(3), true);
    Ok(agent)
}

/// Creates the adapter H1, whose port is wired and has a subnet manager.
fn h1(alloc: Global) -> Result<Agent, AllocError> {
    let mut agent = Agent::new(
        alloc,
        AgentNode {
            guid: Guid::new(0x100),
            kind: NodeType::ChannelAdapter,
            ports: 1,
            cap: 0,
            description: NodeDescription::decode(&[b'H'; 64]),
        },
    )?;
    agent.set_wired(PortNum::new(1), true);
    agent.set_seat(PortNum::new(1));
    Ok(agent)
}

/// Returns the answer to a request that came to port 3 of the switch, or to the port of the adapter.
fn answer_to(agent: &mut Agent, smp: &Smp) -> Smp {
    let arrival = PortNum::new(agent.ports().min(3));
    agent.answer(smp, arrival)
}

/// Returns the answer to a LID-routed request that came to port 3 of the switch, or to the port of the adapter.
fn ask(agent: &mut Agent, method: u8, attribute: u16, modifier: u32, payload: &[u8; 64]) -> Smp {
    let smp = Smp::lid_routed(Method(method), AttributeId(attribute), modifier, 7, payload);
    answer_to(agent, &smp)
}

const GET: u8 = 1;

const SET: u8 = 2;

const NODE_DESCRIPTION: u16 = 0x10;

const NODE_INFO: u16 = 0x11;

const SWITCH_INFO: u16 = 0x12;

const PORT_INFO: u16 = 0x15;

const TABLE: u16 = 0x19;

const MASKS: u16 = 0x1B;

/// Requests without a payload: the method, the attribute, the modifier, and the statuses that S2 and H1 answer.
const STATUSES: [(u8, u16, u32, u16, u16); 34] = [
    (GET, NODE_DESCRIPTION, 9, 0, 0),
    (GET, NODE_INFO, 9, 0, 0),
    (GET, SWITCH_INFO, 9, 0, 0x0C),
    (GET, PORT_INFO, 0, 0, 0),
    (GET, PORT_INFO, 1, 0, 0),
    (GET, PORT_INFO, 2, 0, 0x1C),
    (GET, PORT_INFO, 4, 0, 0x1C),
    (GET, PORT_INFO, 5, 0x1C, 0x1C),
    (GET, PORT_INFO, 0x101, 0x1C, 0x1C),
    (GET, TABLE, 0, 0, 0x0C),
    (GET, TABLE, 15, 0, 0x0C),
    (GET, TABLE, 16, 0x1C, 0x0C),
    (GET, TABLE, 768, 0x1C, 0x0C),
    (GET, TABLE, 0x0400_0000, 0x1C, 0x0C),
    (GET, 0x20, 0, 0x0C, 0x0C),
    (GET, 0x13, 0, 0x0C, 0x0C),
    (GET, 0, 0, 0x0C, 0x0C),
    (SET, NODE_DESCRIPTION, 0, 0x0C, 0x0C),
    (SET, NODE_INFO, 0, 0x0C, 0x0C),
    (SET, SWITCH_INFO, 9, 0, 0x0C),
    (SET, PORT_INFO, 0, 0, 0),
    (SET, PORT_INFO, 1, 0, 0),
    (SET, PORT_INFO, 4, 0, 0x1C),
    (SET, PORT_INFO, 5, 0x1C, 0x1C),
    (SET, PORT_INFO, 0xFFFF_FFFF, 0x1C, 0x1C),
    (SET, TABLE, 0, 0, 0x0C),
    (SET, TABLE, 15, 0, 0x0C),
    (SET, TABLE, 16, 0x1C, 0x0C),
    (SET, TABLE, 767, 0x1C, 0x0C),
    (SET, 0x20, 0, 0x0C, 0x0C),
    (SET, 0x13, 0, 0x0C, 0x0C),
    (5, NODE_INFO, 0, 0x08, 0x08),
    (0, 0, 0, 0x08, 0x08),
    (0x82, 0x20, 0, 0x08, 0x08),
];

#[test]
fn each_status(rt: HostRuntime) -> Result<(), Fail> {
    let (mut switch, mut adapter) = (s2(rt.alloc())?, h1(rt.alloc())?);
    for (method, attribute, modifier, at_switch, at_adapter) in STATUSES {
        let statuses = [
            ask(&mut switch, method, attribute, modifier, &[0; 64])
                .status()
                .0,
            ask(&mut adapter, method, attribute, modifier, &[0; 64])
                .status()
                .0,
        ];
        assert!(rt;
            statuses == [at_switch, at_adapter],
            "{method} {attribute} {modifier}"
        );
    }
    Ok(())
}

/// Builds a PortInfo with a BaseLID, a MasterSMLID and a state.
fn port_info(base_lid: u16, master_sm_lid: u16, state: u8) -> [u8; 64] {
    let mut payload = [0; 64];
    payload[16..18].copy_from_slice(&base_lid.to_be_bytes());
    payload[18..20].copy_from_slice(&master_sm_lid.to_be_bytes());
    payload[32] = state;
    payload
}

/// The BaseLIDs and states that are set, one after the other, at port 3 of S2 and at the port of H1. Each comes with
/// the status, and with the state and the LID that H1 then has. The port of the switch has no LID.
const PORT_SETS: [(u16, u8, u16, PortState, u16); 17] = [
    (9, 4, 0x1C, PortState::Initialize, 0),
    (9, 1, 0x1C, PortState::Initialize, 0),
    (9, 5, 0x1C, PortState::Initialize, 0),
    (9, 15, 0x1C, PortState::Initialize, 0),
    (0xC000, 0, 0x1C, PortState::Initialize, 0),
    (0xFFFF, 3, 0x1C, PortState::Initialize, 0),
    (0xBFFF, 2, 0, PortState::Initialize, 0xBFFF),
    (8, 0xF0, 0, PortState::Initialize, 8),
    (9, 3, 0, PortState::Armed, 9),
    (9, 3, 0, PortState::Armed, 9),
    (7, 2, 0x1C, PortState::Armed, 9),
    (7, 1, 0x1C, PortState::Armed, 9),
    (7, 4, 0, PortState::Active, 7),
    (6, 3, 0x1C, PortState::Active, 7),
    (6, 1, 0x1C, PortState::Active, 7),
    (5, 4, 0, PortState::Active, 5),
    (0, 0, 0, PortState::Active, 0),
];

#[test]
fn port_states(rt: HostRuntime) -> Result<(), Fail> {
    let (mut switch, mut adapter) = (s2(rt.alloc())?, h1(rt.alloc())?);
    for (base_lid, wish, status, state, lid) in PORT_SETS {
        let payload = port_info(base_lid, 1, wish);
        let statuses = [
            ask(&mut switch, SET, PORT_INFO, 3, &payload).status().0,
            ask(&mut adapter, SET, PORT_INFO, 1, &payload).status().0,
        ];
        let held = (
            switch.port_state(PortNum::new(3)),
            switch.base_lid(PortNum::new(3)),
            adapter.port_state(PortNum::new(1)),
            adapter.base_lid(PortNum::new(1)),
        );
        let is_right = held == (state, Lid::new(0), state, Lid::new(lid));
        assert!(rt; is_right && statuses == [status; 2], "{base_lid} {wish}");
    }
    Ok(())
}

/// BaseLIDs and LMCs. Each comes with the status at the port of H1, at port 0 of S2, and at port 3 of S2, which takes
/// neither.
const LMC_SETS: [(u16, u8, u16, u16, u16); 11] = [
    (9, 0, 0, 0, 0),
    (8, 1, 0, 0x1C, 0),
    (9, 1, 0x1C, 0x1C, 0x1C),
    (0, 7, 0, 0x1C, 0),
    (0xBFFE, 1, 0, 0x1C, 0),
    (0xBFFF, 1, 0x1C, 0x1C, 0x1C),
    (0xBFFF, 0, 0, 0, 0),
    (0xC000, 0, 0x1C, 0x1C, 0x1C),
    (0xBF80, 7, 0, 0x1C, 0),
    (0xBFC0, 7, 0x1C, 0x1C, 0x1C),
    (0x80, 7, 0, 0x1C, 0),
];

#[test]
fn lids_that_a_set_takes(rt: HostRuntime) -> Result<(), Fail> {
    let (mut switch, mut adapter) = (s2(rt.alloc())?, h1(rt.alloc())?);
    for (base_lid, lmc, at_adapter, at_switch, elsewhere) in LMC_SETS {
        let mut payload = port_info(base_lid, 1, 0);
        payload[34] = lmc;
        let statuses = [
            ask(&mut adapter, SET, PORT_INFO, 1, &payload).status().0,
            ask(&mut switch, SET, PORT_INFO, 0, &payload).status().0,
            ask(&mut switch, SET, PORT_INFO, 3, &payload).status().0,
        ];
        assert!(rt;
            statuses == [at_adapter, at_switch, elsewhere],
            "{base_lid} {lmc}"
        );
    }
    let port = PortNum::new(1);
    let owned = [0, 0x7F, 0x80, 0xFF, 0x100].map(|lid| adapter.owns(port, Lid::new(lid)));
    let told = ask(&mut adapter, GET, PORT_INFO, 1, &[0; 64]).attribute_data()[34];
    assert!(rt; owned == [false, false, true, true, false] && told == 7);
    Ok(())
}

/// Returns whether the attribute in the answer `smp` has `bytes` at `offset`.
fn holds(smp: &Smp, offset: usize, bytes: [u8; 8]) -> bool {
    match smp.attribute_data().get(offset..) {
        Some(rest) => rest.starts_with(&bytes),
        None => false,
    }
}

/// An attribute and its modifier, an offset, and the eight bytes at this offset that the switch answers and that the
/// adapter answers.
type Row = (u16, u32, usize, [u8; 8], [u8; 8]);

/// Creates S2 and H1, and then sets block 1, the top and a port of the switch, and the port of the adapter.
fn agents_once_set(alloc: Global) -> Result<(Agent, Agent), AllocError> {
    let (mut switch, mut adapter) = (s2(alloc)?, h1(alloc)?);
    let mut block = [4; 64];
    block[0] = 255;
    let mut top = [0; 64];
    top[6..8].copy_from_slice(&[0x03, 0xFF]);
    for (attribute, modifier, payload) in [
        (TABLE, 1, block),
        (SWITCH_INFO, 0, top),
        (PORT_INFO, 0, port_info(0x0102, 0x0304, 4)),
    ] {
        ask(&mut switch, SET, attribute, modifier, &payload);
    }
    let port = port_info(0x0506, 0x0708, 3);
    ask(&mut adapter, SET, PORT_INFO, 0, &port);
    Ok((switch, adapter))
}

/// Returns the index of the first of `rows` that an agent does not answer as the row says, or `None` if there is
/// none.
fn first_wrong(alloc: Global, rows: &[Row]) -> Result<Option<usize>, AllocError> {
    let (mut switch, mut adapter) = agents_once_set(alloc)?;
    for (index, row) in rows.iter().enumerate() {
        let (attribute, modifier, offset, at_switch, at_adapter) = *row;
        let told = ask(&mut switch, GET, attribute, modifier, &[0; 64]);
        let told_there = ask(&mut adapter, GET, attribute, modifier, &[0; 64]);
        if !holds(&told, offset, at_switch) || !holds(&told_there, offset, at_adapter) {
            return Ok(Some(index));
        }
    }
    Ok(None)
}

#[test]
fn nodes_are_described(rt: HostRuntime) -> Result<(), Fail> {
    let rows = [
        (NODE_DESCRIPTION, 0, 0, [b'S'; 8], [b'H'; 8]),
        (
            NODE_INFO,
            0,
            0,
            [1, 1, 2, 4, 0, 0, 0, 0],
            [1, 1, 1, 1, 0, 0, 0, 0],
        ),
        (
            NODE_INFO,
            0,
            8,
            [0, 0, 0, 0x20, 0, 0, 0, 0],
            [0, 0, 1, 0, 0, 0, 0, 0],
        ),
        (
            NODE_INFO,
            0,
            16,
            [0, 0, 0, 0x20, 0, 0, 0, 0],
            [0, 0, 1, 0, 0, 0, 0, 0],
        ),
        (
            NODE_INFO,
            0,
            24,
            [0, 0, 0, 0x20, 0, 1, 0, 0],
            [0, 0, 1, 1, 0, 1, 0, 0],
        ),
        (
            NODE_INFO,
            0,
            32,
            [0, 0, 0, 0, 3, 0, 0, 0],
            [0, 0, 0, 0, 1, 0, 0, 0],
        ),
        (NODE_INFO, 0, 56, [0; 8], [0; 8]),
    ];
    let wrong = first_wrong(rt.alloc(), &rows)?;
    assert!(rt; wrong.is_none(), "{wrong:?}");
    Ok(())
}

#[test]
fn switch_and_ports_are_told(rt: HostRuntime) -> Result<(), Fail> {
    let rows = [
        (SWITCH_INFO, 0, 0, [4, 0, 0, 0, 0, 32, 3, 255], [0; 8]),
        (SWITCH_INFO, 0, 8, [0; 8], [0; 8]),
        (PORT_INFO, 0, 0, [0; 8], [0; 8]),
        (PORT_INFO, 0, 8, [0; 8], [0; 8]),
        (
            PORT_INFO,
            0,
            16,
            [1, 2, 3, 4, 0, 0, 0, 0],
            [5, 6, 7, 8, 0, 0, 0, 2],
        ),
        (
            PORT_INFO,
            0,
            24,
            [0, 0, 0, 0, 3, 0, 0, 0],
            [0, 0, 0, 0, 1, 0, 0, 0],
        ),
        (
            PORT_INFO,
            0,
            32,
            [4, 0, 0, 0, 0, 0, 0, 0],
            [3, 0, 0, 0, 0, 0, 0, 0],
        ),
    ];
    let wrong = first_wrong(rt.alloc(), &rows)?;
    assert!(rt; wrong.is_none(), "{wrong:?}");
    Ok(())
}

#[test]
fn blocks_are_told(rt: HostRuntime) -> Result<(), Fail> {
    let rows = [
        (TABLE, 0, 56, [255; 8], [0; 8]),
        (TABLE, 1, 0, [255, 4, 4, 4, 4, 4, 4, 4], [0; 8]),
        (TABLE, 1, 56, [4; 8], [0; 8]),
        (TABLE, 2, 0, [255; 8], [0; 8]),
    ];
    let wrong = first_wrong(rt.alloc(), &rows)?;
    assert!(rt; wrong.is_none(), "{wrong:?}");
    Ok(())
}

#[test]
fn sets_of_a_switch(rt: HostRuntime) -> Result<(), Fail> {
    let mut switch = s2(rt.alloc())?;
    // An attribute, a modifier, the two bytes from offset 6 on, and the status. Then the greatest LID that is
    // forwarded, and the ports for the LIDs 6, 7, 1023 and 1024.
    for (attribute, modifier, bytes, status, top, ports) in [
        (SWITCH_INFO, 0, [4, 0], 0x1C, 0, [255, 255, 255, 255]),
        (SWITCH_INFO, 0, [3, 255], 0, 1023, [255, 255, 255, 255]),
        (TABLE, 0, [1, 2], 0, 1023, [1, 2, 255, 255]),
        (TABLE, 0, [1, 2], 0, 1023, [1, 2, 255, 255]),
        (TABLE, 15, [3, 4], 0, 1023, [1, 2, 0, 255]),
        (TABLE, 16, [3, 4], 0x1C, 1023, [1, 2, 0, 255]),
        (SWITCH_INFO, 7, [0, 5], 0, 5, [1, 2, 0, 255]),
        (SWITCH_INFO, 7, [255, 255], 0x1C, 5, [1, 2, 0, 255]),
    ] {
        let mut payload = [0; 64];
        payload[6..8].copy_from_slice(&bytes);
        let answer = ask(&mut switch, SET, attribute, modifier, &payload);
        let again = ask(&mut switch, SET, attribute, modifier, &payload);
        let entries = [6, 7, 1023, 1024].map(|lid| switch.entry(Lid::new(lid)).number());
        let is_right = entries == ports && switch.top() == Lid::new(top);
        let is_same = again.bytes() == answer.bytes();
        assert!(rt;
            is_right && is_same && answer.status() == Status(status),
            "{attribute}"
        );
    }
    Ok(())
}

/// Sets and reads the masks of a switch of four ports: it has one position, and one block.
#[test]
fn masks_of_a_switch(rt: HostRuntime) -> Result<(), Fail> {
    let mut switch = s2(rt.alloc())?;
    for (modifier, status, told) in [
        (0, 0, [7; 8]),
        (1, 0x1C, [0; 8]),
        (1 << 28, 0x1C, [0; 8]),
        (512, 0, [7; 8]),
    ] {
        let answer = ask(&mut switch, SET, MASKS, modifier, &[7; 64]);
        let read = ask(&mut switch, GET, MASKS, modifier, &[0; 64]);
        let is_right = answer.status() == Status(status) && read.status() == Status(status);
        assert!(rt; is_right && holds(&read, 56, told), "{modifier}");
    }
    Ok(())
}

/// Changes each byte of a Set of PortInfo over a path of no hops. The bytes are then not a packet, or get one of the
/// four statuses.
#[test]
fn each_byte_turned(rt: HostRuntime) -> Result<(), Fail> {
    let mut adapter = h1(rt.alloc())?;
    let (path, payload) = (Path::<63>::new(), port_info(9, 1, 3));
    let request = Smp::directed(Method::SET, AttributeId::PORT_INFO, 1, 7, &path, &payload);
    for offset in 0..256 {
        for byte in [0x00, 0x7F, 0xFF] {
            let mut bytes = *request.bytes();
            bytes[offset] = byte;
            let status = match Smp::parse(&bytes) {
                Ok(smp) => answer_to(&mut adapter, &smp).status().0,
                Err(_) => 0,
            };
            let is_named = [0, 0x08, 0x0C, 0x1C].contains(&status);
            assert!(rt; is_named, "{offset} {byte}");
        }
    }
    Ok(())
}
