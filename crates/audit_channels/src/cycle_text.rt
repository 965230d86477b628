//! The line of a credit loop.
ghost use Rattle.std.specs.List.{flat_map};
ghost use Rattle.fact_store.specs.View.{cells_of};
ghost use Rattle.byte_io.specs.Writes.{Writes};
ghost use Rattle.byte_io.specs.Prints.{WritesPart};
ghost use Rattle.audit_channels.specs.CycleText.{channel_text, channels_text, cycle_line, exit_text, words_of};

use byte_io::{Sink, WriteFault, write_number, write_port};
use packet_walks::Network;
use smp_bytes::PortNum;

/// How the channels of a credit loop are numbered.
#[derive(Clone, Copy, Debug, PartialEq, Eq)]
pub enum ChannelKind {
    /// A channel that leaves the switch with index `i` by port `p` has the number 256 * `i` + `p`.
    OnOneLane,
    /// The number of a channel is 16 times its number on one lane, plus its lane.
    ByLane,
}

/// Writes the line of the credit loop `cycle`, or that there is none if `cycle` is empty. Each channel is written as a
/// switch and its outgoing port and, by lane, its lane. The channels are numbered as `kind` says.
pub fn write_cycle<W: Sink>(
    sink: &mut W,
    network: &Network,
    kind: ChannelKind,
    cycle: &[usize],
) -> Result<(), WriteFault>
    ensures { Writes W.written W.has_failed result sink.old sink.new
        (cycle_line (cells_of network.now.facts) kind cycle.now) }
{
    sink.write(b"credit loop")?;
    write_channels(sink, network, kind, cycle)?;
    sink.write(b"\n")
}

/// Writes the kind and the channels of the credit loop `cycle`, or that there is none if `cycle` is empty.
fn write_channels<W: Sink>(
    sink: &mut W,
    network: &Network,
    kind: ChannelKind,
    cycle: &[usize],
) -> Result<(), WriteFault>
    ensures { Writes W.written W.has_failed result sink.old sink.new
        (channels_text (cells_of network.now.facts) kind cycle.now) }
{
    if cycle.is_empty() {
        return sink.write(b" none");
    }
    write_kind(sink, kind)?;
    write_each_channel(sink, network, kind, cycle)
}

/// Writes whether the channels are on one lane or by lane.
fn write_kind<W: Sink>(sink: &mut W, kind: ChannelKind) -> Result<(), WriteFault>
    ensures { Writes W.written W.has_failed result sink.old sink.new (words_of kind) }
{
    match kind {
        ChannelKind::OnOneLane => sink.write(b" on one lane"),
        ChannelKind::ByLane => sink.write(b" by lane"),
    }
}

/// Writes each of `channels`, with a space before it.
fn write_each_channel<W: Sink>(
    sink: &mut W,
    network: &Network,
    kind: ChannelKind,
    channels: &[usize],
) -> Result<(), WriteFault>
    ensures { WritesPart W.written W.has_failed result sink.old sink.new
        (flat_map (channel_text (cells_of network.now.facts) kind) channels.now) }
{
    for channel in channels {
        write_channel(sink, network, kind, *channel)?;
    }
    Ok(())
}

/// Writes a space, the switch and the outgoing port of `channel` and, by lane, its lane.
pub fn write_channel<W: Sink>(
    sink: &mut W,
    network: &Network,
    kind: ChannelKind,
    channel: usize,
) -> Result<(), WriteFault>
    ensures { Writes W.written W.has_failed result sink.old sink.new
        (channel_text (cells_of network.now.facts) kind channel) }
{
    match kind {
        ChannelKind::OnOneLane => write_exit(sink, network, channel),
        ChannelKind::ByLane => {
            write_exit(sink, network, channel / 16)?;
            sink.write(b" vl ")?;
            write_number(sink, channel as u64 % 16)
        }
    }
}

/// Writes a space, and the switch and the outgoing port of a channel that has the number `channel` on one lane.
fn write_exit<W: Sink>(sink: &mut W, network: &Network, channel: usize) -> Result<(), WriteFault>
    ensures { Writes W.written W.has_failed result sink.old sink.new
        (exit_text (cells_of network.now.facts) channel) }
{
    sink.write(b" ")?;
    let port = PortNum::new((channel % 256) as u8);
    write_port(sink, network.guid(channel / 256), port)
}
