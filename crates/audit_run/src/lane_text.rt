//! What an audit finds by lane, as text.
ghost use Rattle.std.specs.List.{flat_map};
ghost use Rattle.fact_store.specs.View.{cells_of};
ghost use Rattle.byte_io.specs.Writes.{Writes};
ghost use Rattle.byte_io.specs.Prints.{WritesPart};
ghost use Rattle.audit_run.specs.LaneText.{drop_line, dropped_text, missing_text, order_text, pair_line};

use crate::levels_missing::PacketPair;
use audit_channels::{ChannelKind, write_cycle};
use audit_counts::FirstFew;
use audit_report::write_more;
use byte_io::{Sink, WriteFault, write_guid, write_number, write_port};
use lane_channels::{Dropped, LaneOrder};
use packet_walks::Network;

/// Writes the first packets without a service level, and how many more there are.
pub(crate) fn write_missing<W: Sink>(
    sink: &mut W,
    few: &FirstFew<PacketPair>,
) -> Result<(), WriteFault>
    ensures { WritesPart W.written W.has_failed result sink.old sink.new (missing_text few.now) }
{
    write_pairs(sink, few.first())?;
    write_more(sink, "no-level", few.more())
}

/// Writes a line for each of `pairs`, packets without a service level.
fn write_pairs<W: Sink>(sink: &mut W, pairs: &[PacketPair]) -> Result<(), WriteFault>
    ensures { WritesPart W.written W.has_failed result sink.old sink.new (flat_map pair_line pairs.now) }
{
    for pair in pairs {
        write_pair(sink, pair)?;
    }
    Ok(())
}

/// Writes the line of `pair`, a packet without a service level: the end port that sends it, and its LID.
fn write_pair<W: Sink>(sink: &mut W, pair: &PacketPair) -> Result<(), WriteFault>
    ensures { Writes W.written W.has_failed result sink.old sink.new (pair_line pair.now) }
{
    sink.write(b"no-level ")?;
    write_port(sink, pair.source.node, pair.source.port)?;
    sink.write(b" ")?;
    write_number(sink, u64::from(pair.lid.number()))?;
    sink.write(b"\n")
}

/// Writes the line of a dropped packet, if one was found, and that of the credit loop, each after `lead`.
pub(crate) fn write_order<W: Sink>(
    sink: &mut W,
    network: &Network,
    lead: &str,
    order: &LaneOrder,
) -> Result<(), WriteFault>
    ensures { Writes W.written W.has_failed result sink.old sink.new
        (order_text (cells_of network.now.facts) lead.now order.now) }
{
    write_dropped(sink, network, lead, order.dropped)?;
    sink.write(lead.as_bytes())?;
    write_cycle(sink, network, ChannelKind::ByLane, &order.cycle)
}

/// Writes the line of `dropped`, a packet that is dropped for want of a lane, after `lead`, if there is one.
fn write_dropped<W: Sink>(
    sink: &mut W,
    network: &Network,
    lead: &str,
    dropped: Option<Dropped>,
) -> Result<(), WriteFault>
    ensures { WritesPart W.written W.has_failed result sink.old sink.new
        (dropped_text (cells_of network.now.facts) lead.now dropped) }
{
    match dropped {
        None => Ok(()),
        Some(dropped) => write_drop(sink, network, lead, dropped),
    }
}

/// Writes the line of `dropped`, a packet that is dropped: `lead`, its LID, the switch, the packet's incoming and
/// outgoing port there, and its service level.
fn write_drop<W: Sink>(
    sink: &mut W,
    network: &Network,
    lead: &str,
    dropped: Dropped,
) -> Result<(), WriteFault>
    ensures { Writes W.written W.has_failed result sink.old sink.new
        (drop_line (cells_of network.now.facts) lead.now dropped) }
{
    sink.write(lead.as_bytes())?;
    sink.write(b"dropped ")?;
    write_number(sink, u64::from(dropped.lid.number()))?;
    sink.write(b" at ")?;
    write_guid(sink, network.guid(dropped.stop / 256))?;
    sink.write(b" ")?;
    write_number(sink, (dropped.stop % 256) as u64)?;
    sink.write(b" ")?;
    write_number(sink, u64::from(dropped.out.number()))?;
    sink.write(b" level ")?;
    write_number(sink, u64::from(dropped.level))?;
    sink.write(b"\n")
}
