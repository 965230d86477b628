ghost use Rattle.std.specs.Prelude.{◌≡◌, IfOk, map};
ghost use Rattle.fact_store.specs.View.{cells_of};
ghost use Rattle.subnet_view.specs.EndPort.{end_ports};
ghost use Rattle.held_tables.specs.Switches.{all_begin, far_of, first_switch, is_among, sender_of, switch_over};

use crate::far_end::{Far, far_of, index, switch_over};
use smp_bytes::Guid;
use std::alloc::{AllocError, Global};
use subnet_view::{EndPort, Subnet};

/// An end port that sends packets.
#[derive(Clone, Copy, Debug, PartialEq, Eq)]
pub struct Sender {
    /// The end port.
    pub port: EndPort,
    /// The index of the port's node among the usable switches, or `None` if the node is not a usable switch.
    pub switch: Option<usize>,
    /// The far end of the wire in the port, or `Nothing` if the port has no wire.
    pub far: Far,
}

/// Returns the end ports of `subnet` as senders, in the order of `Subnet::end_ports`.
pub(crate) fn sources(alloc: Global, subnet: &Subnet) -> Result<Vec<Sender>, AllocError>
    ensures { IfOk result (λ sources. sources.items
        ≡ map (sender_of (cells_of subnet.now)) (end_ports (cells_of subnet.now))) }
{
    let ports = subnet.end_ports();
    let mut sources = Vec::with_capacity(alloc, ports.len())?;
    for port in ports {
        let switch = index(subnet.switches(), port.node);
        let far = far_of(subnet, port.node, port.port);
        sources.push(Sender {
            port: *port,
            switch,
            far,
        })?;
    }
    Ok(sources)
}

/// Returns, for each of `sources`, the index of the first switch that its packets reach, or `None`.
pub(crate) fn firsts(alloc: Global, sources: &[Sender]) -> Result<Vec<Option<usize>>, AllocError>
    ensures { IfOk result (λ firsts. firsts.items ≡ map first_switch sources.now) }
{
    sources
        .iter()
        .map(|source| first_switch(source))
        .collect(alloc)
}

/// Returns the index of the first switch that the packets of `source` reach, or `None` if they reach none.
fn first_switch(source: &Sender) -> Option<usize>
    ensures { result ≡ first_switch source.now }
{
    match source.switch {
        Some(index) => Some(index),
        None => switch_over(source.far),
    }
}

/// Returns whether each of `firsts` is the index of one of `count` switches.
pub(crate) fn all_begin(count: usize, firsts: &[Option<usize>]) -> bool
    ensures { result ≡ all_begin count firsts.now }
{
    firsts.iter().all(|first| is_among(count, *first))
}

/// Returns whether `first` is the index of one of `count` switches.
fn is_among(count: usize, first: Option<usize>) -> bool
    ensures { result ≡ is_among count first }
{
    match first {
        Some(index) => index < count,
        None => false,
    }
}
