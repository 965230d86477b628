//! One step of following packets by lane: what the packets do at a stop, and which stops they reach next.
ghost use Rattle.std.specs.Prelude.{◌≡◌, ◌<◌, ◌+◌, ◌*◌, ◌/◌, ◌^◌, None, OnOk, Some, length, slice_index_or};
ghost use Rattle.std.specs.Prelude.{slice_set};
ghost use Rattle.std.specs.Option.{option_or};
ghost use Rattle.subnet_view.specs.Reading.{switches};
ghost use Rattle.lane_channels.specs.Stops.{HasEdge};
ghost use Rattle.lane_channels.specs.Visit.{AreLeftBy, HasRoom, IsVisit, IsVisitIfNew, IsWithNextsBy, cells_at};
ghost use Rattle.lane_channels.specs.Visit.{columns_in, walking};
ghost use Rattle.lane_channels.specs.Walk.{is_done, mark_number};

use crate::dropped::Dropped;
use crate::stop::{lane_number, port_of, stop_at};
use crate::walk_state::{LidColumns, Walks};
use audit_channels::Waits;
use port_graph::Edge;
use smp_bytes::{Lid, PortNum};
use std::alloc::AllocError;

/// Visits `stop`, unless it is at no usable switch, or packets of `level` for the LID were followed from there before.
pub(crate) fn visit_if_new(
    columns: &LidColumns,
    level: u8,
    stop: usize,
    walks: &mut Walks,
) -> Result<(), AllocError>
    requires level { level < 16 }
    requires walks { HasRoom columns.now walks.old }
    ensures { OnOk result (IsVisitIfNew columns.now.by_lane.now.said (cells_at columns.now)
        (columns_in columns.now) columns.now.lid level stop (walking walks.old) (walking walks.new)) }
{
    let count = columns.by_lane.network().switch_count();
    if is_done(count, columns.lid, &walks.marks, level, stop) {
        return Ok(());
    }
    visit(columns, level, stop, walks)
}

/// Marks `stop` for the LID and `level`, and follows a packet of `level` from there along the edge of each column.
///
/// For each edge, records which channels the packet can take after the channel of the edge, and adds the stop that the
/// edge leads to. If the packet is dropped for want of a lane, notes the packet, unless one is noted already. For each
/// edge, does a binary search among the maps of lanes, and one more for each edge of the next switch.
fn visit(columns: &LidColumns, level: u8, stop: usize, walks: &mut Walks) -> Result<(), AllocError>
    requires level { level < 16 }
    requires stop { stop < 256 * length (switches (cells_at columns.now)) }
    requires walks { HasRoom columns.now walks.old }
    ensures { OnOk result (IsVisit columns.now.by_lane.now.said (cells_at columns.now) (columns_in columns.now)
        columns.now.lid level stop (walking walks.old) (walking walks.new)) }
{
    mark(&mut walks.marks, mark_number(level, stop), columns.lid);
    leave(columns, level, stop, walks)
}

/// Follows a packet of `level` from `stop` along the edge of each column.
fn leave(columns: &LidColumns, level: u8, stop: usize, walks: &mut Walks) -> Result<(), AllocError>
    requires waits { length walks.old.waits ≡ 4096 * length (switches (cells_at columns.now)) }
    ensures marks { walks.new.marks ≡ walks.old.marks }
    ensures left { OnOk result (AreLeftBy columns.now level stop
        (HasEdge (columns_in columns.now) (stop / 256)) walks.old walks.new) }
{
    for nth in 0..columns.columns.len() {
        if let Some(edge) = columns.other_edge(stop / 256, nth) {
            leave_along(columns, level, stop, edge, walks)?;
        }
    }
    Ok(())
}

/// Follows a packet of `level` from `stop` along `edge`.
fn leave_along(
    columns: &LidColumns,
    level: u8,
    stop: usize,
    edge: Edge,
    walks: &mut Walks,
) -> Result<(), AllocError>
    requires edge { HasEdge (columns_in columns.now) (stop / 256) edge }
    requires waits { length walks.old.waits ≡ 4096 * length (switches (cells_at columns.now)) }
    ensures marks { walks.new.marks ≡ walks.old.marks }
    ensures left { OnOk result (AreLeftBy columns.now level stop (λ e. e ≡ edge) walks.old walks.new) }
{
    let at = stop / 256;
    let out = edge.port;
    let to = edge.to;
    let Some(lane) = columns.by_lane.lane(level, at, port_of(stop), out) else {
        let dropped = Dropped {
            lid: columns.lid,
            level,
            stop,
            out,
        };
        note(&mut walks.dropped, dropped);
        return Ok(());
    };
    let channel = lane_number(at, out, lane);
    let into_there = columns.by_lane.port_across(at, out);
    record(columns, level, to, into_there, channel, &mut walks.waits)?;
    if to < columns.by_lane.network().switch_count() {
        walks.stops.push(stop_at(to, into_there))?;
    }
    Ok(())
}

/// Notes `dropped` if no packet is noted yet.
fn note(noted: &mut Option<Dropped>, dropped: Dropped)
    ensures { noted.new ≡ option_or noted.old (Some dropped) }
{
    *noted = noted.or(Some(dropped));
}

/// Adds, to the channels that can come after `channel`, those that packets of `level` that come in by port `into` take
/// from the switch at `index` along its edge in any column, unless they are dropped there.
fn record(
    columns: &LidColumns,
    level: u8,
    index: usize,
    into: PortNum,
    channel: usize,
    waits: &mut Waits,
) -> Result<(), AllocError>
    requires waits { length waits.old ≡ 4096 * length (switches (cells_at columns.now)) }
    requires channel { channel < length waits.old }
    ensures { OnOk result (IsWithNextsBy columns.now (HasEdge (columns_in columns.now) index) level index into
        channel waits.old waits.new) }
{
    for nth in 0..columns.columns.len() {
        if let Some(edge) = columns.other_edge(index, nth) {
            record_along(columns, level, index, into, edge, channel, waits)?;
        }
    }
    Ok(())
}

/// Adds the channel along `edge` from the switch at `index` to those that can come after `channel`, unless packets of
/// `level` that come in there by port `into` are dropped along it.
fn record_along(
    columns: &LidColumns,
    level: u8,
    index: usize,
    into: PortNum,
    edge: Edge,
    channel: usize,
    waits: &mut Waits,
) -> Result<(), AllocError>
    requires index { index < length (switches (cells_at columns.now)) }
    requires waits { length waits.old ≡ 4096 * length (switches (cells_at columns.now)) }
    requires channel { channel < length waits.old }
    ensures { OnOk result (IsWithNextsBy columns.now (λ e. e ≡ edge) level index into channel waits.old waits.new) }
{
    match columns.by_lane.lane(level, index, into, edge.port) {
        Some(lane) => waits.add(channel, lane_number(index, edge.port, lane)),
        None => Ok(()),
    }
}

/// Sets the mark at `number` to `lid`.
fn mark(marks: &mut [u16], number: usize, lid: Lid)
    requires { number < length marks.old }
    ensures { marks.new ≡ slice_set marks.old number lid }
{
    marks[number] = lid.number();
}

/// Returns whether `stop` is at none of `count` switches, or was followed at `level` for `lid` before.
fn is_done(count: usize, lid: Lid, marks: &[u16], level: u8, stop: usize) -> bool
    requires level { level < 16 }
    requires room { 4096 * count < 2 ^ 64 }
    ensures { result ≡ is_done count lid marks.now level stop }
{
    256 * count <= stop || mark_at(marks, mark_number(level, stop)) == lid.number()
}

/// Returns the mark at `number`, or 0 if there is none.
fn mark_at(marks: &[u16], number: usize) -> u16
    ensures { result ≡ slice_index_or marks.now number 0 }
{
    marks.get(number).copied().unwrap_or(0)
}

/// Returns the number of the mark of `stop` and `level`.
fn mark_number(level: u8, stop: usize) -> usize
    requires level { level < 16 }
    requires room { 16 * stop + 16 < 2 ^ 64 + 1 }
    ensures is { result ≡ mark_number level stop }
    ensures within { result < 16 * stop + 16 }
{
    16 * stop + usize::from(level)
}
