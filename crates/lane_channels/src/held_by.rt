//! The LIDs that each end port holds. An end port answers packets that others send for its LIDs.
ghost use Rattle.std.specs.Prelude.{◌≡◌, IfOk, map};
ghost use Rattle.fact_store.specs.View.{cells_of};
ghost use Rattle.subnet_view.specs.EndPort.{end_ports};
ghost use Rattle.lane_channels.specs.LaneNetwork.{lists_of};
ghost use Rattle.lane_channels.specs.Levels.{lids_held, lids_on};
ghost use Rattle.lane_channels.specs.Senders.{HasAsked};

use crate::lane_network::LaneNetwork;
use held_tables::{HeldLid, is_same_end};
use packet_walks::Network;
use smp_bytes::Lid;
use std::alloc::{AllocError, Global};
use subnet_view::EndPort;

/// The LIDs that each sender holds. Other end ports send packets for these LIDs, and the sender answers them.
#[derive(Drop)]
pub(crate) struct Asked {
    /// Whether packets that answer others are followed.
    pub(crate) answers: bool,
    /// For each sender, the LIDs that it holds; empty if answers are not followed.
    pub(crate) held_by: Vec<Vec<Lid>>,
}

/// Returns the LIDs that each sender holds if `answers`, by a walk through the held LIDs for each end port, else none.
pub(crate) fn asked_of(
    alloc: Global,
    by_lane: &LaneNetwork,
    answers: bool,
) -> Result<Asked, AllocError>
    ensures answers { IfOk result (λ asked. asked.answers ≡ answers) }
    ensures held_by { IfOk result (λ asked. HasAsked by_lane.now asked) }
{
    if !answers {
        return Ok(Asked {
            answers,
            held_by: Vec::new(alloc),
        });
    }
    let held_by = held_by(alloc, by_lane.network())?;
    Ok(Asked { answers, held_by })
}

/// Returns the LIDs that each end port holds. Goes through the held LIDs once for each end port.
fn held_by(alloc: Global, network: &Network) -> Result<Vec<Vec<Lid>>, AllocError>
    ensures { IfOk result (λ held_by. lists_of held_by.items
        ≡ map (lids_held network.now.held) (end_ports (cells_of network.now.facts))) }
{
    let mut held_by = Vec::with_capacity(alloc, network.sources().len())?;
    for source in network.sources() {
        held_by.push(lids_on(alloc, network.lids(), source.port)?)?;
    }
    Ok(held_by)
}

/// Returns the LIDs that `port` holds according to `lines`.
fn lids_on(alloc: Global, lines: &[HeldLid], port: EndPort) -> Result<Vec<Lid>, AllocError>
    ensures { IfOk result (λ lids. lids.items ≡ lids_on lines.now port) }
{
    lines
        .iter()
        .filter(|line| is_same_end(&line.port, &port))
        .map(|line| line.lid)
        .collect(alloc)
}
