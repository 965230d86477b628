//! Tests of the tree of three switches that are wired in a ring, two of them twice.
use crate::{SwitchPorts, plan_tree};
use fact_store::{Cell, Key, Sighting, Store, Value};
use lft_blocks::Rule;
use smp_bytes::{Generation, Guid, NodeType, PortNum};
use spread_routes::SwitchOrder;
use std::alloc::{AllocError, Global};
use std::test::Fail;
use subnet_view::{Refused, SwitchGraph, WiredGraph, Wires};

/// The nodes: the GUID, whether it is a switch, and the number of ports.
const NODES: [(u64, bool, u8); 6] = [
    (0x10, true, 4),
    (0x20, true, 4),
    (0x30, true, 4),
    (0x100, false, 1),
    (0x200, false, 1),
    (0x300, false, 1),
];

/// The cables, each with its two ports.
const CABLES: [(u64, u8, u64, u8); 7] = [
    (0x10, 1, 0x20, 1),
    (0x10, 2, 0x20, 2),
    (0x10, 3, 0x30, 1),
    (0x20, 3, 0x30, 2),
    (0x10, 4, 0x100, 1),
    (0x20, 4, 0x200, 1),
    (0x30, 3, 0x300, 1),
];

/// Adds the fact that `key` has `value`.
fn say(store: &mut Store, key: Key, value: Value) -> Result<(), Refused> {
    let generation = Generation::new(1).unwrap();
    match Sighting::new(key, Cell::Known(generation, value)) {
        Some(sighting) => store.add(sighting),
        None => Ok(()),
    }
}

/// Adds what is known of a port of a cable, and its other end.
fn say_end(store: &mut Store, node: u64, port: u8, far: u64, far_port: u8) -> Result<(), Refused> {
    let (guid, number) = (Guid::new(node), PortNum::new(port));
    let peer = Value::Peer(Guid::new(far), PortNum::new(far_port));
    say(store, Key::PortGuid(guid, number), Value::Guid(guid))?;
    say(store, Key::Link(guid, number), peer)?;
    say(store, Key::Port(guid, number), Value::Up(true))
}

/// Returns the facts of the three switches and their adapters.
fn facts(alloc: Global) -> Result<Store, Refused> {
    let mut store = Store::new(alloc);
    for (node, is_switch, ports) in NODES {
        let guid = Guid::new(node);
        let kind = if is_switch {
            NodeType::Switch
        } else {
            NodeType::ChannelAdapter
        };
        say(&mut store, Key::Node(guid), Value::Kind(kind, ports))?;
        if is_switch {
            say(&mut store, Key::Cap(guid), Value::Count(1024))?;
        }
    }
    for (node, port, far, far_port) in CABLES {
        say_end(&mut store, node, port, far, far_port)?;
        say_end(&mut store, far, far_port, node, port)?;
    }
    Ok(store)
}

/// Returns the tree of the facts in the order of `rule`.
fn tree(alloc: Global, rule: &Rule) -> Result<Vec<SwitchPorts>, Refused> {
    let store = facts(alloc)?;
    let wires = Wires::of(alloc, &store)?;
    let graph = SwitchGraph::of(alloc, &wires)?;
    let wired = WiredGraph {
        wires: &wires,
        graph: &graph,
    };
    Ok(plan_tree(alloc, &wired, rule)?)
}

/// Returns the rule that spreads by the order that begins with the switch 0x30 and then the switch 0x20.
fn from_the_last(alloc: Global) -> Result<Rule, AllocError> {
    let mut switches = Vec::new(alloc);
    switches.push(Guid::new(0x30))?;
    switches.push(Guid::new(0x20))?;
    Ok(Rule::Spread {
        order: SwitchOrder::AsNamed { switches },
    })
}

/// Returns whether `tree` has the switches and ports `wanted`.
fn is_tree(tree: &[SwitchPorts], wanted: &[(u64, &[u8])]) -> bool {
    tree.len() == wanted.len()
        && tree.iter().zip(wanted).all(|(found, (guid, ports))| {
            found.guid().number() == *guid
                && found.ports().len() == ports.len()
                && found
                    .ports()
                    .iter()
                    .zip(ports.iter())
                    .all(|(port, number)| port.number() == *number)
        })
}

#[test]
fn each_order_has_its_tree(rt: HostRuntime) -> Result<(), Fail> {
    let by_rank = tree(rt.alloc(), &Rule::UpDown)?;
    let wanted: [(u64, &[u8]); 3] = [(0x10, &[1, 3, 4]), (0x20, &[1, 4]), (0x30, &[1, 3])];
    assert!(rt; is_tree(&by_rank, &wanted), "by rank");
    let rule = from_the_last(rt.alloc())?;
    let named = tree(rt.alloc(), &rule)?;
    let wanted: [(u64, &[u8]); 3] = [(0x10, &[3, 4]), (0x20, &[3, 4]), (0x30, &[1, 2, 3])];
    assert!(rt; is_tree(&named, &wanted), "from the last switch");
    Ok(())
}
