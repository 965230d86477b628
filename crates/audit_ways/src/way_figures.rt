ghost use Rattle.std.specs.Prelude.{◌≡◌, ◌*◌, true, false, IfOk, MatchOption, OnOk, filter, length, map};
ghost use Rattle.std.specs.Prelude.{slice_index, slice_index_or};
ghost use Rattle.std.specs.List.{sum_by};
ghost use Rattle.fact_store.specs.View.{cells_of};
ghost use Rattle.subnet_view.specs.EndPort.{end_ports};
ghost use Rattle.subnet_view.specs.Reading.{switches};
ghost use Rattle.held_tables.specs.Switches.{far_of};
ghost use Rattle.audit_ways.specs.Figures.{IsTotal};
ghost use Rattle.audit_ways.specs.SenderGroups.{AreGrouped, adapters};
ghost use Rattle.audit_ways.specs.WayTally.{IsCounted, IsCountedMore};
ghost use Rattle.audit_ways.specs.Ways.{AllComeTo, AreKnownToArrive, AreWayFigures, channels_of};
ghost use Rattle.audit_ways.specs.Ways.{is_target, is_to_switch, reaches, ways_of, ways_to};

use crate::mean::{Figures, Total};
use crate::roster::{roster, target_among};
use crate::sender_groups::{Groups, group_packets, senders};
use crate::way_tally::WayTally;
use held_tables::HeldLid;
use packet_walks::{Far, LidCursor, Network};
use std::alloc::{AllocError, Global};

/// Figures of the delivered packets that adapter ports send to the LIDs of other adapter ports.
#[derive(Clone, Copy, Debug, PartialEq, Eq)]
pub struct WayFigures {
    /// The figures of the numbers of wires that packets take, including the wires at the adapters. `None` if there is
    /// no packet.
    pub hops: Option<Figures>,
    /// The figures of the numbers of packets that take each channel. `None` if there is no channel.
    pub load: Option<Figures>,
}

/// Returns figures of the delivered packets between adapter ports: how many wires they take, and how many of them take
/// each channel.
pub fn figures_of_ways(alloc: Global, network: &Network) -> Result<WayFigures, AllocError>
    ensures { IfOk result (AreWayFigures (cells_of network.now.facts) network.now.held) }
{
    figures_of_ways_known(alloc, network, &[])
}

/// Returns the figures of `figures_of_ways`, with less work for lines (a LID and the port that holds it) whose packets
/// are known to arrive. If `told` is true at the index of a line, all packets for the line's LID must be delivered at
/// the line's port. For such a line, `LidCursor::ends` is not called.
pub fn figures_of_ways_known(
    alloc: Global,
    network: &Network,
    told: &[bool],
) -> Result<WayFigures, AllocError>
    requires { AreKnownToArrive (cells_of network.now.facts) network.now.held told.now }
    ensures { IfOk result (AreWayFigures (cells_of network.now.facts) network.now.held) }
{
    let tally = tally_of(alloc, network, told)?;
    let hops = tally.hops.figures()?;
    let loads = loads_of(network, &tally.loads)?;
    let load = loads.figures()?;
    Ok(WayFigures { hops, load })
}

/// Counts the routes of the delivered packets between adapter ports.
pub(crate) fn tally_of(
    alloc: Global,
    network: &Network,
    told: &[bool],
) -> Result<WayTally, AllocError>
    requires { AreKnownToArrive (cells_of network.now.facts) network.now.held told.now }
    ensures { IfOk result (IsCounted (256 * length (switches (cells_of network.now.facts)))
        (λ number. sum_by number (ways_of (cells_of network.now.facts) network.now.held))) }
{
    let channels = network.switch_count().checked_mul(256).ok_or(AllocError)?;
    let mut tally = WayTally::new(alloc, channels)?;
    let roster = roster(alloc, network)?;
    let mut senders = senders(alloc, network)?;
    let mut cursor = LidCursor::of(alloc, network)?;
    for (index, line) in network.lids().iter().enumerate() {
        if let Some(far) = target_among(&roster, &line.port) {
            cursor.go_to(alloc, line.lid)?;
            let told = is_told(told, index);
            add_ways(alloc, &mut tally, &mut senders, &cursor, line, &far, told)?;
        }
    }
    Ok(tally)
}

/// Returns the item of `told` at `index`, or false if there is none.
fn is_told(told: &[bool], index: usize) -> bool
    ensures { result ≡ slice_index_or told.now index false }
{
    told.get(index).copied().unwrap_or(false)
}

/// Adds to `tally` the routes of the delivered packets for the LID of `line` from other adapter ports.
fn add_ways(
    alloc: Global,
    tally: &mut WayTally,
    senders: &mut Groups,
    cursor: &LidCursor,
    line: &HeldLid,
    far: &Far,
    told: bool,
) -> Result<(), AllocError>
    requires lid { cursor.now.lid ≡ line.now.lid }
    requires channels { length tally.old.loads.items ≡ 256 * length (switches (cells_of cursor.now.seen.facts)) }
    requires senders { AreGrouped (cells_of cursor.now.seen.facts)
        (adapters (cells_of cursor.now.seen.facts)) senders.old }
    requires target { is_target (cells_of cursor.now.seen.facts) line.now.port ≡ true }
    requires far { far.now ≡ far_of (cells_of cursor.now.seen.facts) line.now.port.node line.now.port.port }
    requires told { told ≡ true → AllComeTo (cells_of cursor.now.seen.facts) cursor.now.seen.held line.now }
    ensures ways { OnOk result (IsCountedMore (256 * length (switches (cells_of cursor.now.seen.facts))) tally.old
        (λ number. sum_by number (ways_to (cells_of cursor.now.seen.facts) cursor.now.seen.held line.now)) tally.new) }
    ensures senders { OnOk result
        (AreGrouped (cells_of cursor.now.seen.facts) (adapters (cells_of cursor.now.seen.facts)) senders.new) }
{
    let edges = cursor.edges(alloc)?;
    match some_of_all(alloc, cursor, line, told)? {
        Some(groups) => return tally.add(&edges, &groups.weights, groups.direct),
        None => {}
    }
    senders.leave(far);
    tally.add(&edges, &senders.weights, senders.direct)?;
    senders.join(far)
}

/// Returns the packets for the LID of `line` that other adapter ports send and that are delivered at the port of
/// `line`, in groups. Returns `None` if all packets for the LID are delivered there.
fn some_of_all(
    alloc: Global,
    cursor: &LidCursor,
    line: &HeldLid,
    told: bool,
) -> Result<Option<Groups>, AllocError>
    requires lid { cursor.now.lid ≡ line.now.lid }
    requires told { told ≡ true → AllComeTo (cells_of cursor.now.seen.facts) cursor.now.seen.held line.now }
    ensures { IfOk result (λ groups. MatchOption groups
        (AllComeTo (cells_of cursor.now.seen.facts) cursor.now.seen.held line.now)
        (AreGrouped (cells_of cursor.now.seen.facts) (filter
        (reaches (cells_of cursor.now.seen.facts) cursor.now.seen.held line.now)
        (end_ports (cells_of cursor.now.seen.facts))))) }
{
    if told {
        return Ok(None);
    }
    let ends = cursor.ends(alloc, line.port)?;
    match ends.first_elsewhere() {
        None => Ok(None),
        Some(_) => Ok(Some(group_packets(alloc, cursor.network(), line, &ends)?)),
    }
}

/// Returns the total of the loads of the network's channels, each between usable switches.
fn loads_of(network: &Network, loads: &[u64]) -> Result<Total, AllocError>
    requires { length loads.now ≡ 256 * length (switches (cells_of network.now.facts)) }
    ensures { IfOk result (IsTotal (map (slice_index loads.now) (channels_of (cells_of network.now.facts)))) }
{
    let mut total = Total::none();
    for (channel, load) in loads.iter().enumerate() {
        if is_to_switch(network.far(channel)) {
            total.add(*load, 1)?;
        }
    }
    Ok(total)
}

/// Returns whether `far` is a usable switch.
pub(crate) fn is_to_switch(far: Far) -> bool
    ensures { result ≡ is_to_switch far }
{
    matches!(far, Far::Switch(_))
}
