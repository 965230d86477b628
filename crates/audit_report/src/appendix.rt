//! The lines that follow an audit if they are asked for: the load of each channel, and the way of one packet.
ghost use Rattle.std.specs.Prelude.{◌≡◌, [], IfOk, if◌then◌else◌, option_map};
ghost use Rattle.std.specs.List.{flat_map};
ghost use Rattle.std.specs.Option.{option_map_or};
ghost use Rattle.fact_store.specs.View.{cells_of};
ghost use Rattle.byte_io.specs.Writes.{Writes};
ghost use Rattle.byte_io.specs.Prints.{WritesPart};
ghost use Rattle.audit_channels.specs.CycleText.{exit_text};
ghost use Rattle.audit_counts.specs.ChannelList.{loaded_channels};
ghost use Rattle.audit_counts.specs.PacketWay.{way_value};
ghost use Rattle.audit_report.specs.Appendix.{appendix_text, end_word, found_text, load_line, shown, way_end};
ghost use Rattle.audit_report.specs.Appendix.{way_head, way_tail, way_text};
ghost use Rattle.audit_report.specs.AuditText.{end_text};

use crate::audit_text::write_end;
use audit_channels::{ChannelKind, write_channel};
use audit_counts::{LoadedChannel, PacketWay, loaded_channels, way_of_packet};
use byte_io::{Sink, WriteFault, write_number, write_port};
use packet_walks::{End, Network};
use sm_cli::{AuditAsked, WayAsked};
use smp_bytes::Lid;
use std::alloc::{AllocError, Global};

/// What the lines after an audit tell.
#[derive(Drop)]
pub struct Appendix {
    /// The channels with their loads; empty if they are not asked for.
    loads: Vec<LoadedChannel>,
    /// The packet whose way is asked for, with its way.
    way: Option<WayFound>,
}

/// The way of a packet that was asked for.
#[derive(Drop)]
pub(crate) struct WayFound {
    asked: WayAsked,
    /// The way, or `None` if the sender is no end port of the facts.
    way: Option<PacketWay>,
}

impl Appendix {
    /// Finds what `asked` asks for in `network`: the loads of channels, and the way of a packet.
    pub fn of(alloc: Global, asked: &AuditAsked, network: &Network) -> Result<Self, AllocError>
        ensures { IfOk result (λ appendix. shown (cells_of network.now.facts) network.now.held appendix
            ≡ appendix_text asked.now (cells_of network.now.facts) network.now.held) }
    {
        let loads = asked_loads(alloc, asked.loads, network)?;
        let way = asked_way(alloc, &asked.way, network)?;
        Ok(Appendix { loads, way })
    }

    /// Writes a line for each channel with its load, and the line of the packet whose way was asked for. Does not
    /// allocate.
    pub fn write<W: Sink>(&self, sink: &mut W, network: &Network) -> Result<(), WriteFault>
        ensures { WritesPart W.written W.has_failed result sink.old sink.new
            (shown (cells_of network.now.facts) network.now.held self.now) }
    {
        write_loads(sink, network, &self.loads)?;
        match &self.way {
            Some(found) => write_way(sink, network, found),
            None => Ok(()),
        }
    }
}

/// Returns the channels of `network` with their loads if `loads` is true, and otherwise no channel.
fn asked_loads(
    alloc: Global,
    loads: bool,
    network: &Network,
) -> Result<Vec<LoadedChannel>, AllocError>
    ensures { IfOk result (λ listed. listed.items
        ≡ (if loads then loaded_channels (cells_of network.now.facts) network.now.held else [])) }
{
    if loads {
        loaded_channels(alloc, network)
    } else {
        Ok(Vec::new(alloc))
    }
}

/// Finds the way of the packet `asked`, if there is one.
fn asked_way(
    alloc: Global,
    asked: &Option<WayAsked>,
    network: &Network,
) -> Result<Option<WayFound>, AllocError>
    ensures { IfOk result (λ found. option_map_or (found_text (cells_of network.now.facts) network.now.held) found []
        ≡ option_map_or (way_text (cells_of network.now.facts) network.now.held) asked.now []) }
{
    match asked {
        Some(asked) => {
            let way = way_of_packet(alloc, network, asked.node, asked.port, asked.lid)?;
            Ok(Some(WayFound { asked: *asked, way }))
        }
        None => Ok(None),
    }
}

/// Writes a line for each of `channels`, with its load.
fn write_loads<W: Sink>(
    sink: &mut W,
    network: &Network,
    channels: &[LoadedChannel],
) -> Result<(), WriteFault>
    ensures { WritesPart W.written W.has_failed result sink.old sink.new
        (flat_map (load_line (cells_of network.now.facts)) channels.now) }
{
    for loaded in channels {
        write_load(sink, network, loaded)?;
    }
    Ok(())
}

/// Writes the line of the channel `loaded` with its load.
fn write_load<W: Sink>(
    sink: &mut W,
    network: &Network,
    loaded: &LoadedChannel,
) -> Result<(), WriteFault>
    ensures { Writes W.written W.has_failed result sink.old sink.new
        (load_line (cells_of network.now.facts) loaded.now) }
{
    sink.write(b"channel")?;
    write_channel(sink, network, ChannelKind::OnOneLane, loaded.channel)?;
    sink.write(b" load ")?;
    write_number(sink, loaded.load)?;
    sink.write(b"\n")
}

/// Writes the line of the packet of `found`: who sends it, its LID, its channels, and how it ends.
fn write_way<W: Sink>(sink: &mut W, network: &Network, found: &WayFound) -> Result<(), WriteFault>
    ensures { Writes W.written W.has_failed result sink.old sink.new
        (found_text (cells_of network.now.facts) network.now.held found.now) }
{
    write_head(sink, &found.asked)?;
    write_tail(sink, network, found.asked.lid, &found.way)?;
    sink.write(b"\n")
}

/// Writes the channels of `way`, for `lid`, and how the packet ends or, without a way, that the sender is no end port.
fn write_tail<W: Sink>(
    sink: &mut W,
    network: &Network,
    lid: Lid,
    way: &Option<PacketWay>,
) -> Result<(), WriteFault>
    ensures { Writes W.written W.has_failed result sink.old sink.new
        (way_tail (cells_of network.now.facts) network.now.held lid (option_map way_value way.now)) }
{
    match way {
        Some(way) => write_channels_and_end(sink, network, lid, way),
        None => sink.write(b": no end port"),
    }
}

/// Writes who sends the packet `asked`, and its LID.
fn write_head<W: Sink>(sink: &mut W, asked: &WayAsked) -> Result<(), WriteFault>
    ensures { Writes W.written W.has_failed result sink.old sink.new (way_head asked.now) }
{
    sink.write(b"way ")?;
    write_port(sink, asked.node, asked.port)?;
    sink.write(b" ")?;
    write_number(sink, u64::from(asked.lid.number()))
}

/// Writes the channels of `way`, which a packet for `lid` takes, and how the packet ends.
fn write_channels_and_end<W: Sink>(
    sink: &mut W,
    network: &Network,
    lid: Lid,
    way: &PacketWay,
) -> Result<(), WriteFault>
    ensures { Writes W.written W.has_failed result sink.old sink.new
        (way_end (cells_of network.now.facts) network.now.held lid (way_value way.now)) }
{
    write_channels(sink, network, &way.channels)?;
    write_end_word(sink, &way.end)?;
    write_end(sink, network, lid, &way.end)
}

/// Writes the switch and the outgoing port of each of `channels`, with a space before each.
fn write_channels<W: Sink>(
    sink: &mut W,
    network: &Network,
    channels: &[usize],
) -> Result<(), WriteFault>
    ensures { WritesPart W.written W.has_failed result sink.old sink.new
        (flat_map (exit_text (cells_of network.now.facts)) channels.now) }
{
    for channel in channels {
        write_channel(sink, network, ChannelKind::OnOneLane, *channel)?;
    }
    Ok(())
}

/// Writes a word for `end`, how a packet ends, after a space.
fn write_end_word<W: Sink>(sink: &mut W, end: &Option<End>) -> Result<(), WriteFault>
    ensures { Writes W.written W.has_failed result sink.old sink.new (end_word end.now) }
{
    match end {
        None => sink.write(b" round"),
        Some(End::Taken(_)) => sink.write(b" taken"),
        Some(End::Lost(..)) => sink.write(b" lost"),
    }
}
