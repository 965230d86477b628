//! Counts of routes, of the routes' wires, and of how often routes take each channel.
ghost use Rattle.std.specs.Prelude.{◌≡◌, ◌*◌, IfOk, OnOk, length};
ghost use Rattle.audit_ways.specs.WayTally.{IsCounted, IsCountedMore, IsCountedWith, grouped};
ghost use Rattle.audit_ways.specs.Ways.{one_wire, way_from};

use crate::channel_loads::load_channels;
use crate::mean::Total;
use port_graph::Edge;
use std::alloc::{AllocError, Global};

/// Counts of the routes added so far.
#[derive(Drop)]
pub(crate) struct WayTally {
    /// The count, the sum and the maximum of the routes' numbers of wires.
    pub(crate) hops: Total,
    /// For each channel, how often the routes take it.
    pub(crate) loads: Vec<u64>,
}

impl WayTally {
    /// Creates an empty tally with `channels` channels.
    pub(crate) fn new(alloc: Global, channels: usize) -> Result<Self, AllocError>
        ensures { IfOk result (IsCounted channels (λ _. 0)) }
    {
        Ok(WayTally {
            hops: Total::none(),
            loads: vec![in alloc; 0u64; channels]?,
        })
    }

    /// Adds, for each switch, the route along `edges` as many times as the switch's weight, and `direct` routes along
    /// one wire. Takes time linear in the number of switches and, for each weight above 0, in the route's channels.
    pub(crate) fn add(
        &mut self,
        edges: &[Option<Edge>],
        weights: &[u64],
        direct: u64,
    ) -> Result<(), AllocError>
        requires switches { length weights.now ≡ length edges.now }
        requires channels { length self.old.loads.items ≡ 256 * length edges.now }
        ensures { OnOk result (IsCountedMore (256 * length edges.now) self.old (grouped edges.now weights.now direct)
            self.new) }
    {
        for (first, weight) in weights.iter().enumerate() {
            if *weight > 0 {
                self.add_from(edges, first, *weight)?;
            }
        }
        if direct > 0 {
            self.add_direct(direct)?;
        }
        Ok(())
    }

    /// Adds, `times` times, the route by the switch at index `first` along `edges`, with a wire at either end.
    fn add_from(
        &mut self,
        edges: &[Option<Edge>],
        first: usize,
        times: u64,
    ) -> Result<(), AllocError>
        requires { length self.old.loads.items ≡ 256 * length edges.now }
        ensures { OnOk result (IsCountedWith self.old (way_from edges.now first) times self.new) }
    {
        let channels = load_channels(&mut self.loads, edges, first, times)?;
        let wires = (channels as u64).checked_add(2).ok_or(AllocError)?;
        self.hops.add(wires, times)
    }

    /// Adds a route along one wire, `times` times.
    fn add_direct(&mut self, times: u64) -> Result<(), AllocError>
        ensures { OnOk result (IsCountedWith self.old one_wire times self.new) }
    {
        self.hops.add(1, times)
    }
}
