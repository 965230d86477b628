//! Which channels by lane can come after which: the packets of all senders, followed LID by LID.
ghost use Rattle.std.specs.Prelude.{◌≡◌, ◌<◌, ◌≤◌, ◌*◌, ◌^◌, [], ◌∷◌, IfOk, IfSome, OnOk, Some, length, slice_get};
ghost use Rattle.std.specs.Option.{option_map};
ghost use Rattle.fact_store.specs.View.{cells_of};
ghost use Rattle.held_tables.specs.Tables.{owners_of};
ghost use Rattle.lane_channels.specs.LaneNetwork.{lists_of};
ghost use Rattle.lane_channels.specs.Senders.{AnswersOf, AnswersTo, HasAsked, IsNothing, SentFor, SentFrom};
ghost use Rattle.lane_channels.specs.Visit.{AreFollowedBy, HasRoom, cells_at, columns_in, walked};
ghost use Rattle.lane_channels.specs.Waiting.{IsSomeDrop, WaitsByLane};
ghost use Rattle.audit_channels.specs.ChannelOrders.{AreWaits};
ghost use Rattle.lane_channels.specs.AnyTables.{columns_for, lane_channel_count};
ghost use Rattle.packet_walks.specs.Edges.{edges_of};
ghost use Rattle.lane_channels.specs.Walk.{BeginsIf};
ghost use Rattle.lanes_file.specs.Lanes.{level_of};
ghost use Rattle.subnet_view.specs.EndPort.{end_ports};

use crate::dropped::Dropped;
use crate::held_by::{Asked, asked_of};
use crate::lane_network::LaneNetwork;
use crate::walk::walk;
use crate::walk_state::{LidColumns, Walks};
use audit_channels::Waits;
use held_tables::Sender;
use lanes_file::Lanes;
use packet_walks::LidCursor;
use port_graph::Edge;
use smp_bytes::Lid;
use std::alloc::{AllocError, Global};
use subnet_view::EndPort;

/// Which channels by lane can come after which, and whether a packet is dropped for want of a lane.
#[derive(Drop)]
pub struct LaneWaits {
    /// For each channel by lane, the channels that packets can take after it.
    pub waits: Waits,
    /// A packet that is dropped for want of a lane, or `None` if there is none.
    pub dropped: Option<Dropped>,
}

/// Follows the packets that each end port sends for each LID, at their service level. If `answers` is true, packets
/// that answer other packets also have the levels of those packets.
pub fn lane_waits(
    alloc: Global,
    by_lane: &LaneNetwork,
    answers: bool,
) -> Result<LaneWaits, AllocError>
    ensures waits { IfOk result (λ found.
        AreWaits (WaitsByLane by_lane.now answers) (lane_channel_count by_lane.now) found.waits) }
    ensures dropped { IfOk result (λ found. IsSomeDrop by_lane.now answers found.dropped) }
{
    let network = by_lane.network();
    let count = network.switch_count().checked_mul(4096).ok_or(AllocError)?;
    let mut walks = nothing_followed(alloc, count)?;
    let asked = asked_of(alloc, by_lane, answers)?;
    let mut cursor = LidCursor::of(alloc, network)?;
    // No switch forwards packets for LIDs above the greatest top to another switch.
    for below in 0..network.greatest_top().number() {
        let lid = Lid::new(below + 1);
        cursor.go_to(alloc, lid)?;
        let edges = cursor.edges(alloc)?;
        let columns = one_column(alloc, &*by_lane, lid, edges)?;
        let owners = network.owners(alloc, lid)?;
        follow_lid(&asked, &columns, &owners, &mut walks)?;
    }
    Ok(LaneWaits {
        waits: walks.waits,
        dropped: walks.dropped,
    })
}

/// Returns `edges` as the only column of `lid`.
fn one_column<'a>(
    alloc: Global,
    by_lane: &'a LaneNetwork<'a>,
    lid: Lid,
    edges: Vec<Option<Edge>>,
) -> Result<LidColumns<'a>, AllocError>
    requires lid { 1 ≤ lid }
    requires edges { edges.items ≡ edges_of (cells_of by_lane.now.seen.facts) by_lane.now.seen.held lid }
    requires room { lane_channel_count by_lane.now < 2 ^ 64 }
    ensures by_lane { IfOk result (λ columns. columns.by_lane.now ≡ by_lane.now) }
    ensures lid { IfOk result (λ columns. columns.lid ≡ lid) }
    ensures columns { IfOk result (λ columns. columns_in columns ≡ columns_for by_lane.now [] lid) }
{
    let mut columns = Vec::with_capacity(alloc, 1)?;
    columns.push(edges)?;
    Ok(LidColumns {
        by_lane,
        lid,
        columns,
    })
}

/// Returns what is known before any packet is followed, for `count` channels by lane and `count` marks.
pub(crate) fn nothing_followed(alloc: Global, count: usize) -> Result<Walks, AllocError>
    ensures { IfOk result (λ walks. IsNothing count (walked walks)) }
{
    let waits = Waits::new(alloc, count)?;
    let marks = vec![in alloc; 0; count]?;
    Ok(Walks {
        waits,
        marks,
        dropped: None,
        stops: Vec::new(alloc),
    })
}

/// Follows the packets for the LID of `columns` that end ports send.
pub(crate) fn follow_lid(
    asked: &Asked,
    columns: &LidColumns,
    owners: &[EndPort],
    walks: &mut Walks,
) -> Result<(), AllocError>
    requires asked { HasAsked columns.now.by_lane.now asked.now }
    requires owners { owners.now ≡ owners_of columns.now.by_lane.now.seen.held columns.now.lid }
    requires walks { HasRoom columns.now walks.old }
    ensures { OnOk result (AreFollowedBy columns.now
        (SentFor columns.now.by_lane.now asked.now.answers columns.now.lid) walks.old walks.new) }
{
    for index in 0..columns.by_lane.network().sources().len() {
        follow_sender(asked, columns, owners, index, walks)?;
    }
    Ok(())
}

/// Follows the packets for the LID of `columns` that the end port at `index` sends.
fn follow_sender(
    asked: &Asked,
    columns: &LidColumns,
    owners: &[EndPort],
    index: usize,
    walks: &mut Walks,
) -> Result<(), AllocError>
    requires asked { HasAsked columns.now.by_lane.now asked.now }
    requires owners { owners.now ≡ owners_of columns.now.by_lane.now.seen.held columns.now.lid }
    requires index { index < length (end_ports (cells_at columns.now)) }
    requires walks { HasRoom columns.now walks.old }
    ensures { OnOk result (AreFollowedBy columns.now
        (SentFrom columns.now.by_lane.now asked.now.answers columns.now.lid index) walks.old walks.new) }
{
    let first = first_at(columns.by_lane.firsts(), index);
    let port = port_at(columns.by_lane.network().sources(), index);
    let level = level_from(columns.by_lane.lanes(), port, columns.lid);
    walk_at_level(columns, level, first, walks)?;
    if !asked.answers {
        return Ok(());
    }
    let lids = lids_at(&asked.held_by, index);
    follow_answers(columns, owners, lids, first, walks)
}

/// Returns the first stop of packets of the end port at `index`, or `None` if these packets reach no switch.
fn first_at(firsts: &[Option<usize>], index: usize) -> Option<usize>
    requires { index < length firsts.now }
    ensures { slice_get firsts.now index ≡ Some result }
{
    firsts[index]
}

/// Returns the end port of the sender at `index`.
fn port_at(sources: &[Sender], index: usize) -> &EndPort
    requires { index < length sources.now }
    ensures { option_map (λ s. s.port) (slice_get sources.now index) ≡ Some result.now }
{
    &sources[index].port
}

/// Returns the LIDs that the end port at `index` holds.
fn lids_at(held_by: &[Vec<Lid>], index: usize) -> &[Lid]
    requires { index < length held_by.now }
    ensures { slice_get (lists_of held_by.now) index ≡ Some result.now }
{
    &held_by[index]
}

/// Follows a packet of `level`, starting at the stop `first`, if there are both.
fn walk_at_level(
    columns: &LidColumns,
    level: Option<u8>,
    first: Option<usize>,
    walks: &mut Walks,
) -> Result<(), AllocError>
    requires level { IfSome level (λ l. l < 16) }
    requires walks { HasRoom columns.now walks.old }
    ensures { OnOk result (AreFollowedBy columns.now (BeginsIf level first) walks.old walks.new) }
{
    match level {
        Some(level) => walk(columns, level, first, walks),
        None => Ok(()),
    }
}

/// Follows, from the stop `first` on, if there is one, the answers to packets that each of `owners` sends for `lids`.
fn follow_answers(
    columns: &LidColumns,
    owners: &[EndPort],
    lids: &[Lid],
    first: Option<usize>,
    walks: &mut Walks,
) -> Result<(), AllocError>
    requires walks { HasRoom columns.now walks.old }
    ensures { OnOk result (AreFollowedBy columns.now
        (AnswersTo columns.now.by_lane.now.said owners.now lids.now first) walks.old walks.new) }
{
    for nth in 0..owners.len() {
        let asker = &owners[nth];
        follow_answers_to(columns, asker, lids, first, walks)?;
    }
    Ok(())
}

/// Returns the service level of packets from `port` to `lid`, if any. Does a binary search among the blocks of levels.
fn level_from(lanes: &Lanes, port: &EndPort, lid: Lid) -> Option<u8>
    ensures is { result ≡ level_of lanes.now port.now.node port.now.port lid }
    ensures within { IfSome result (λ l. l < 16) }
{
    lanes.level(port.node, port.port, lid)
}

/// Follows, from the stop `first` on, if there is one, the answers to packets that `asker` sends for each of `lids`.
fn follow_answers_to(
    columns: &LidColumns,
    asker: &EndPort,
    lids: &[Lid],
    first: Option<usize>,
    walks: &mut Walks,
) -> Result<(), AllocError>
    requires walks { HasRoom columns.now walks.old }
    ensures { OnOk result (AreFollowedBy columns.now
        (AnswersOf columns.now.by_lane.now.said asker.now lids.now (length lids.now) first) walks.old walks.new) }
{
    for index in 0..lids.len() {
        let level = level_from(columns.by_lane.lanes(), asker, lids[index]);
        walk_at_level(columns, level, first, walks)?;
    }
    Ok(())
}
