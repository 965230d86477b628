//! Ports that facts name but do not show to be down, to have a wire, or to be the end port of a switch.
ghost use Rattle.std.specs.Prelude.{◌≡◌, ◌++◌, IfOk, None, OnOk, Some, map, not, if◌then◌else◌};
ghost use Rattle.std.specs.List.{filter_map};
ghost use Rattle.reply_facts.specs.Known.{kind_in, up_of, value_in};
ghost use Rattle.fact_store.specs.View.{cells_of};
ghost use Rattle.subnet_view.specs.Reading.{is_switch_in};
ghost use Rattle.audit_counts.specs.Gaps.{AreKnownPorts, is_known_port, is_said_down, port_at, unjoined_ports};
ghost use Rattle.audit_counts.specs.NamedPorts.{far_port, kept, link_key, own_port};

use crate::fact_gaps::in_order::order_ports;
use crate::fact_gaps::nodes::far_port;
use fact_store::{Key, Sighting, Store, Value};
use smp_bytes::{Guid, NodeType, PortNum};
use std::alloc::{AllocError, Global};
use subnet_view::{EndPort, Wires, is_end_port};

/// Returns the unjoined ports that the cells of `wires` name, each once, in ascending order of node GUID and port.
/// Port 0 is unjoined if it is not the end port of a switch. Any other port is unjoined if it has no wire and is not
/// known to be down. A cell names the port of its key, if the key has one. The cell of a link also names the port at
/// the far end, if the cell says where the link leads. The cell of a known switch names port 0 of the switch.
pub fn unjoined_ports(alloc: Global, wires: &Wires) -> Result<Vec<EndPort>, AllocError>
    ensures { IfOk result (λ ports. ports.items ≡ unjoined_ports (cells_of wires.now)) }
{
    let known = known_ports(alloc, wires)?;
    let mut ports = Vec::new(alloc);
    add_own_ports(&mut ports, wires, &known)?;
    add_far_ports(&mut ports, wires, &known)?;
    order_ports(&mut ports);
    end_ports_at(alloc, &ports)
}

/// Returns the ports that have a link cell and are not unjoined, in ascending order of node GUID and port.
fn known_ports(alloc: Global, wires: &Wires) -> Result<Vec<(Guid, PortNum)>, AllocError>
    ensures { IfOk result (λ known. known.items
        ≡ filter_map (kept (is_known_port (cells_of wires.now)) link_key) (cells_of wires.now)) }
{
    let mut known = Vec::new(alloc);
    for sighting in wires.store().cells() {
        if let Some(port) = known_port(wires, &sighting) {
            known.push(port)?;
        }
    }
    Ok(known)
}

/// Returns the port that `sighting` is about if it is the cell of a link and the port is not unjoined.
fn known_port(wires: &Wires, sighting: &Sighting) -> Option<(Guid, PortNum)>
    ensures { result ≡ kept (is_known_port (cells_of wires.now)) link_key sighting.now }
{
    match sighting.key() {
        Key::Link(node, port) if is_known_port(wires, node, port) => Some((node, port)),
        _ => None,
    }
}

/// Returns `ports`, each a node and a port number, as end ports.
fn end_ports_at(alloc: Global, ports: &[(Guid, PortNum)]) -> Result<Vec<EndPort>, AllocError>
    ensures { IfOk result (λ named. named.items ≡ map port_at ports.now) }
{
    ports.iter().map(end_port_at).collect(alloc)
}

/// Returns `port`, a node and a port number, as an end port.
fn end_port_at(port: &(Guid, PortNum)) -> EndPort
    ensures { result ≡ port_at port.now }
{
    EndPort {
        node: port.0,
        port: port.1,
    }
}

/// Appends to `ports` the port that each cell is about (`own_port`), if that port is unjoined.
fn add_own_ports(
    ports: &mut Vec<(Guid, PortNum)>,
    wires: &Wires,
    known: &[(Guid, PortNum)],
) -> Result<(), AllocError>
    requires { AreKnownPorts (cells_of wires.now) known.now }
    ensures { OnOk result (ports.new.items ≡ ports.old.items
        ++ filter_map (kept (λ e. not (is_known_port (cells_of wires.now) e)) own_port) (cells_of wires.now)) }
{
    for sighting in wires.store().cells() {
        if let Some(port) = unjoined_own_port(wires, known, &sighting) {
            ports.push(port)?;
        }
    }
    Ok(())
}

/// Appends to `ports` the port at the far end of each link, if that port is unjoined.
fn add_far_ports(
    ports: &mut Vec<(Guid, PortNum)>,
    wires: &Wires,
    known: &[(Guid, PortNum)],
) -> Result<(), AllocError>
    requires { AreKnownPorts (cells_of wires.now) known.now }
    ensures { OnOk result (ports.new.items ≡ ports.old.items
        ++ filter_map (kept (λ e. not (is_known_port (cells_of wires.now) e)) far_port) (cells_of wires.now)) }
{
    for sighting in wires.store().cells() {
        if let Some(port) = unjoined_far_port(wires, known, &sighting) {
            ports.push(port)?;
        }
    }
    Ok(())
}

/// Returns the port that `sighting` is about (`own_port`) if that port is unjoined, otherwise `None`.
fn unjoined_own_port(
    wires: &Wires,
    known: &[(Guid, PortNum)],
    sighting: &Sighting,
) -> Option<(Guid, PortNum)>
    requires { AreKnownPorts (cells_of wires.now) known.now }
    ensures { result ≡ kept (λ e. not (is_known_port (cells_of wires.now) e)) own_port sighting.now }
{
    let (node, port) = own_port(sighting)?;
    if_unjoined(wires, known, node, port)
}

/// Returns the port at the far end of the link that `sighting` reports, if there is one and it is unjoined.
fn unjoined_far_port(
    wires: &Wires,
    known: &[(Guid, PortNum)],
    sighting: &Sighting,
) -> Option<(Guid, PortNum)>
    requires { AreKnownPorts (cells_of wires.now) known.now }
    ensures { result ≡ kept (λ e. not (is_known_port (cells_of wires.now) e)) far_port sighting.now }
{
    let (node, port) = far_port(sighting)?;
    if_unjoined(wires, known, node, port)
}

/// Returns `port` of `node` if it is unjoined, otherwise `None`. No port in `known` may be unjoined.
fn if_unjoined(
    wires: &Wires,
    known: &[(Guid, PortNum)],
    node: Guid,
    port: PortNum,
) -> Option<(Guid, PortNum)>
    requires { AreKnownPorts (cells_of wires.now) known.now }
    ensures { result ≡ (if not (is_known_port (cells_of wires.now) (node, port)) then Some (node, port) else None) }
{
    if is_known_by(wires, known, node, port) {
        None
    } else {
        Some((node, port))
    }
}

/// Returns whether `port` of `node` is not unjoined. Does a binary search among `known`. If `known` lacks the port,
/// also takes the time of `is_known_port`.
fn is_known_by(wires: &Wires, known: &[(Guid, PortNum)], node: Guid, port: PortNum) -> bool
    requires { AreKnownPorts (cells_of wires.now) known.now }
    ensures { result ≡ is_known_port (cells_of wires.now) (node, port) }
{
    known.binary_search(&(node, port)).is_ok() || is_known_port(wires, node, port)
}

/// Returns the port that `sighting` is about. If `sighting` says that its node is a switch, returns port 0 of the
/// node. Returns `None` for the cell of any other node, and for a cell of table room.
fn own_port(sighting: &Sighting) -> Option<(Guid, PortNum)>
    ensures { result ≡ own_port sighting.now }
{
    match sighting.key() {
        Key::Node(node) => {
            if is_switch_said(sighting) {
                Some((node, PortNum::MANAGEMENT))
            } else {
                None
            }
        }
        Key::Cap(_) => None,
        Key::PortGuid(node, port)
        | Key::Link(node, port)
        | Key::Port(node, port)
        | Key::Claim(node, port) => Some((node, port)),
    }
}

/// Returns whether `sighting` says that its node is a switch.
fn is_switch_said(sighting: &Sighting) -> bool
    ensures { result ≡ is_switch_in (kind_in (value_in (Some sighting.now.1))) }
{
    matches!(sighting.value(), Some(Value::Kind(NodeType::Switch, _)))
}

/// Returns whether `port` of `node` is known to be down or has a wire or, for port 0, is the end port of a switch.
fn is_known_port(wires: &Wires, node: Guid, port: PortNum) -> bool
    ensures { result ≡ is_known_port (cells_of wires.now) (node, port) }
{
    if port.number() == 0 {
        is_end_port(wires.store(), node, port)
    } else {
        wires.across(node, port).is_some() || is_down(wires.store(), node, port)
    }
}

/// Returns whether `port` of `node` is known to be down.
fn is_down(store: &Store, node: Guid, port: PortNum) -> bool
    ensures { result ≡ is_said_down (up_of (cells_of store.now) node port) }
{
    store.is_up(node, port) == Some(false)
}
