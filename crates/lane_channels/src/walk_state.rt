//! What is known while packets for one LID are followed from stop to stop.
ghost use Rattle.std.specs.Prelude.{◌<◌, ◌≤◌, ◌*◌, ◌^◌, length, map};
ghost use Rattle.fact_store.specs.View.{cells_of};
ghost use Rattle.subnet_view.specs.Reading.{switches};
ghost use Rattle.lane_channels.specs.Stops.{AreWithin};

use crate::dropped::Dropped;
use crate::lane_network::LaneNetwork;
use audit_channels::{Waits, edge_of};
use port_graph::Edge;
use smp_bytes::Lid;

/// What was found of packets that were followed, and what is left to follow.
#[derive(Drop)]
pub(crate) struct Walks {
    /// For each channel by lane, the channels that can come after it.
    pub(crate) waits: Waits,
    /// For each stop and level, the last LID whose packets of that level were followed from there; 0 if there is none.
    pub(crate) marks: Vec<u16>,
    /// A packet that is dropped for want of a lane; `None` if none was found.
    pub(crate) dropped: Option<Dropped>,
    /// While a packet is followed, the stops that are still to be visited.
    pub(crate) stops: Vec<usize>,
}

/// The edges for a LID, in a network with lanes, by each of several tables.
#[derive(Drop)]
pub(crate) struct LidColumns<'a> {
    pub(crate) by_lane: &'a LaneNetwork<'a>,
    pub(crate) lid: Lid,
    /// A column for each table. It has, for each usable switch in ascending order of GUID, the edge along which the
    /// switch forwards packets for the LID to a usable switch, or `None` if there is no such edge.
    pub(crate) columns: Vec<Vec<Option<Edge>>>,
    ghost is_lid: { 1 ≤ lid },
    ghost within: { AreWithin (cells_of by_lane.now.seen.facts) (map (λ column. column.items) columns.items) },
    ghost room: { 4096 * length (switches (cells_of by_lane.now.seen.facts)) < 2 ^ 64 },
}

impl<'a> LidColumns<'a> {
    ghost use Rattle.std.specs.Prelude.{◌≡◌, MatchOption, Some};
    ghost use Rattle.lane_channels.specs.Stops.{edge_by};
    ghost use Rattle.lane_channels.specs.Visit.{IsNoOther, columns_in};

    /// Returns the edge of the switch at `index` in the column at `nth`. Returns `None` if there is none, or if `nth`
    /// is not 0 and the first column has this edge. Takes constant time.
    pub(crate) fn other_edge(&self, index: usize, nth: usize) -> Option<Edge>
        ensures { MatchOption result (IsNoOther (columns_in self.now) index nth)
            (λ edge. edge_by (columns_in self.now) index nth ≡ Some edge) }
    {
        let edge = self.edge(index, nth);
        if nth == 0 {
            return edge;
        }
        let first = self.edge(index, 0);
        if edge == first { None } else { edge }
    }

    /// Returns the edge of the switch at `index` in the column at `nth`, if there is one. Takes constant time.
    fn edge(&self, index: usize, nth: usize) -> Option<Edge>
        ensures { result ≡ edge_by (columns_in self.now) index nth }
    {
        match self.columns.get(nth) {
            Some(column) => edge_of(column, index),
            None => None,
        }
    }
}
