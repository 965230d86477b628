//! Where packets come in at switches, and the channels by lane on which they leave.
//!
//! A *stop* is a port of a usable switch at which packets come in. Its number is 256 times the index of the switch
//! among the usable switches, in ascending order of GUID, plus the port. The port is 0 for packets that the switch
//! itself sends.
ghost use Rattle.std.specs.Prelude.{◌≡◌, ◌<◌, ◌+◌, ◌*◌, ◌%◌, ◌^◌, ℕ, IfOk, None, Some, length, map};
ghost use Rattle.fact_store.specs.View.{cells_of};
ghost use Rattle.subnet_view.specs.EndPort.{end_ports};
ghost use Rattle.subnet_view.specs.Reading.{switches};
ghost use Rattle.lane_channels.specs.Stops.{first_stop, lane_number, stop_at, stop_by, stop_from};
ghost use Rattle.lane_channels.specs.FarPorts.{far_port};
ghost use Rattle.held_tables.specs.Switches.{first_switch, switch_over};

use crate::far_ports::far_port;
use held_tables::{Far, Sender};
use packet_walks::Network;
use smp_bytes::PortNum;
use std::alloc::{AllocError, Global};
use subnet_view::Subnet;

/// Returns, for each sender, the stop at which its packets first reach a usable switch, or `None` if they reach none.
pub(crate) fn first_stops(
    alloc: Global,
    network: &Network,
) -> Result<Vec<Option<usize>>, AllocError>
    requires { 256 * length (switches (cells_of network.now.facts)) < 2 ^ 64 }
    ensures { IfOk result (λ firsts. firsts.items ≡ map (first_stop (cells_of network.now.facts))
        (end_ports (cells_of network.now.facts))) }
{
    let mut firsts = Vec::with_capacity(alloc, network.sources().len())?;
    for source in network.sources() {
        firsts.push(first_stop(network.subnet(), source))?;
    }
    Ok(firsts)
}

/// Returns the stop at which the packets of `source` first reach a usable switch, or `None` if they reach none.
fn first_stop(subnet: &Subnet, source: &Sender) -> Option<usize>
    requires { (index : ℕ) → first_switch source.now ≡ Some index → 256 * index + 256 < 2 ^ 64 + 1 }
    ensures { result ≡ stop_from source.now (far_port (cells_of subnet.now) source.now.port.node source.now.port.port) }
{
    match source.switch {
        Some(index) => Some(stop_at(index, PortNum::new(0))),
        None => {
            let port = far_port(subnet, source.port.node, source.port.port);
            stop_over(source.far, port)
        }
    }
}

/// Returns the stop at `port` of the switch `far`, or `None` if `far` is not a usable switch.
fn stop_over(far: Far, port: PortNum) -> Option<usize>
    requires { (index : ℕ) → switch_over far ≡ Some index → 256 * index + 256 < 2 ^ 64 + 1 }
    ensures { result ≡ stop_by None far port }
{
    match far {
        Far::Switch(index) => Some(stop_at(index, port)),
        _ => None,
    }
}

/// Returns the number of the stop at `port` of the usable switch at `index`.
pub(crate) fn stop_at(index: usize, port: PortNum) -> usize
    requires { 256 * index + 256 < 2 ^ 64 + 1 }
    ensures { result ≡ stop_at index port }
{
    256 * index + usize::from(port.number())
}

/// Returns the port of `stop`, at which packets come in.
pub(crate) fn port_of(stop: usize) -> PortNum
    ensures { result ≡ stop % 256 }
{
    PortNum::new((stop % 256) as u8)
}

/// Returns the number of the channel by port `out` of the switch at `index`, on `lane`.
pub(crate) fn lane_number(index: usize, out: PortNum, lane: u8) -> usize
    requires within { lane < 15 }
    requires room { 4096 * index + 4096 < 2 ^ 64 + 1 }
    ensures is { result ≡ lane_number index out lane }
    ensures within { result < 4096 * index + 4096 }
{
    16 * (256 * index + usize::from(out.number())) + usize::from(lane)
}
