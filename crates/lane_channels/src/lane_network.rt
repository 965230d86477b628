ghost use Rattle.std.specs.Prelude.{◌≡◌, ◌<◌, ◌+◌, ◌*◌, ◌^◌, IfOk, map, slice_index_or};
ghost use Rattle.fact_store.specs.View.{cells_of};
ghost use Rattle.subnet_view.specs.EndPort.{end_ports};
ghost use Rattle.lane_channels.specs.Stops.{first_stop, guid_at, lane_between, lane_if_carried};
ghost use Rattle.lane_channels.specs.Stops.{port_across};

use crate::far_ports::far_ports;
use crate::stop::first_stops;
use lanes_file::Lanes;
use packet_walks::Network;
use smp_bytes::{Guid, PortNum};
use std::alloc::{AllocError, Global};
use std::marker::Model;

/// A network whose packets take the virtual lanes that a text gives.
#[derive(Drop)]
pub struct LaneNetwork<'a> {
    network: &'a Network<'a>,
    lanes: &'a Lanes,
    /// For each port of each usable switch, the port at the far end of the wire there; 0 if there is no wire.
    far_ports: Vec<PortNum>,
    /// For each sender, the stop at which the sender's packets first reach a usable switch; `None` if they reach no
    /// usable switch.
    firsts: Vec<Option<usize>>,
}

impl<'a> Model for LaneNetwork<'a> {
    ghost use Rattle.fact_store.specs.View.{cells_of};
    ghost use Rattle.lane_channels.specs.LaneNetwork.{SeenByLane, seen_by_lane_code, IsLaneNetwork};

    ghost Value = { SeenByLane };

    ghost coded = { seen_by_lane_code };

    ghost view = { λ a. record { seen = a.network.now; said = a.lanes.now } };

    ghost invariant = { λ a. IsLaneNetwork (cells_of a.network.now.facts) a.far_ports.items a.firsts.items };
}

impl<'a> LaneNetwork<'a> {
    /// Returns `network` with the lanes of `lanes`. Searches for the wire in each of 256 ports of each usable switch,
    /// and in each end port.
    pub fn of(alloc: Global, network: &'a Network<'a>, lanes: &'a Lanes) -> Result<Self, AllocError>
        ensures seen { IfOk result (λ by_lane. by_lane.seen ≡ network.now) }
        ensures said { IfOk result (λ by_lane. by_lane.said ≡ lanes.now) }
    {
        network.switch_count().checked_mul(256).ok_or(AllocError)?;
        let far_ports = far_ports(alloc, network)?;
        let firsts = first_stops(alloc, network)?;
        Ok(LaneNetwork {
            network,
            lanes,
            far_ports,
            firsts,
        })
    }

    /// Returns the network, without its lanes.
    pub fn network(&self) -> &'a Network<'a>
        ensures { result.now ≡ self.now.seen }
    {
        self.network
    }

    /// Returns what the text of lanes says.
    pub fn lanes(&self) -> &'a Lanes
        ensures { result.now ≡ self.now.said }
    {
        self.lanes
    }

    /// Returns, for each end port, in the order of the end ports, the stop at which the port's packets first reach a
    /// usable switch, or `None` if they reach no usable switch.
    pub fn firsts(&self) -> &[Option<usize>]
        ensures { result.now
            ≡ map (first_stop (cells_of self.now.seen.facts)) (end_ports (cells_of self.now.seen.facts)) }
    {
        &self.firsts
    }

    /// Returns the lane of packets of `level` that come in at the switch at `index` by port `into` and leave it by
    /// port `out`, or `None` if these packets are dropped there. Does a binary search among the maps of lanes.
    pub(crate) fn lane(&self, level: u8, index: usize, into: PortNum, out: PortNum) -> Option<u8>
        ensures { result
            ≡ lane_if_carried (lane_between self.now.said (cells_of self.now.seen.facts) level index into out) }
    {
        let guid = self.network.guid(index);
        let lane = self.lanes.lane(guid, into, out, level);
        if lane < DROPPED { Some(lane) } else { None }
    }

    /// Returns the port across port `out` of the switch at `index`, or 0 without a wire. Takes constant time.
    pub(crate) fn port_across(&self, index: usize, out: PortNum) -> PortNum
        requires { 256 * index + 256 < 2 ^ 64 + 1 }
        ensures { result ≡ port_across (cells_of self.now.seen.facts) index out }
    {
        let number = 256 * index + usize::from(out.number());
        far_port_at(&self.far_ports, number)
    }
}

/// The least lane on which packets are dropped.
const DROPPED: u8 = 15;

/// Returns the item of `far_ports` at `number`, or 0 if there is none.
fn far_port_at(far_ports: &[PortNum], number: usize) -> PortNum
    ensures { result ≡ slice_index_or far_ports.now number 0 }
{
    far_ports.get(number).copied().unwrap_or(PortNum::new(0))
}
