//! The ports at the far ends of wires.
ghost use Rattle.std.specs.Prelude.{◌≡◌, ◌<◌, ◌*◌, ◌^◌, IfOk, length, map};
ghost use Rattle.std.specs.List.{range_with_len};
ghost use Rattle.fact_store.specs.View.{cells_of};
ghost use Rattle.subnet_view.specs.Reading.{switches};
ghost use Rattle.lane_channels.specs.FarPorts.{far_port, far_port_by};

use packet_walks::Network;
use smp_bytes::{Guid, PortNum};
use std::alloc::{AllocError, Global};
use subnet_view::Subnet;

/// Returns the port at the far end of the wire in each port of each usable switch, or 0, at 256 * index + port.
pub(crate) fn far_ports(alloc: Global, network: &Network) -> Result<Vec<PortNum>, AllocError>
    requires { 256 * length (switches (cells_of network.now.facts)) < 2 ^ 64 }
    ensures { IfOk result (λ ports. ports.items ≡ map (far_port_by (cells_of network.now.facts))
        (range_with_len 0 (256 * length (switches (cells_of network.now.facts))))) }
{
    let count = 256 * network.switch_count();
    let mut ports = Vec::with_capacity(alloc, count)?;
    for number in 0..count {
        ports.push(far_port_by(network, number))?;
    }
    Ok(ports)
}

/// Returns the port across port `number` % 256 of the usable switch at index `number` / 256, or 0 if there is none.
fn far_port_by(network: &Network, number: usize) -> PortNum
    ensures { result ≡ far_port_by (cells_of network.now.facts) number }
{
    match network.switch(number / 256) {
        Some(guid) => far_port(network.subnet(), guid, PortNum::new((number % 256) as u8)),
        None => PortNum::new(0),
    }
}

/// Returns the port at the far end of the wire in `port` of `node`, or 0 if there is no wire.
pub(crate) fn far_port(subnet: &Subnet, node: Guid, port: PortNum) -> PortNum
    ensures { result ≡ far_port (cells_of subnet.now) node port }
{
    match subnet.wires().across(node, port) {
        Some((_, far)) => far,
        None => PortNum::new(0),
    }
}
