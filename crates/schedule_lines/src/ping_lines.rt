//! The lines of pings and of packets in flight.
ghost use Rattle.std.specs.Prelude.{◌≡◌};
ghost use Rattle.byte_io.specs.Writes.{Writes};
ghost use Rattle.text_words.specs.Printed.{quoted_text};
ghost use Rattle.topo_file.specs.Printed.{name_at};
ghost use Rattle.schedule_lines.specs.Lines.{end_text, flight_line, ping_line, port_text, start_text};

use crate::line_parts::{write_between, write_count};
use byte_io::{Sink, WriteFault};
use fabric_model::{NodeId, NodePort};
use fabric_sim::Ping;
use smp_bytes::Lid;
use topo_file::Topology;

/// Returns the name of `node`, or an empty name if the topology has no such node.
fn name_at(topology: &Topology, node: NodeId) -> &str
    ensures { result.now ≡ name_at topology.now.nodes node }
{
    match topology.node(node) {
        Some(node) => node.name.as_str(),
        None => "",
    }
}

/// Prints the line of a ping, a packet that is sent from the port `from` to `lid`: the port, the LID, and where the
/// packet ends. That is the port that it reaches and the number of wires that it takes, or the node where it is lost.
pub fn write_ping<W: Sink>(
    sink: &mut W,
    topology: &Topology,
    from: &NodePort,
    lid: Lid,
    ping: &Ping,
) -> Result<(), WriteFault>
    ensures writes { Writes W.written W.has_failed result sink.old sink.new
        (ping_line topology.now.nodes from.now lid ping.now) }
{
    write_start(sink, topology, from, lid)?;
    write_end(sink, topology, ping)?;
    sink.write(b"\n")
}

/// Prints the word `ping`, the port `from` that a packet is sent from, and the LID `lid` that it is for.
#[tactic(auto, unfolding(crate::specs::Lines::start_text))]
fn write_start<W: Sink>(
    sink: &mut W,
    topology: &Topology,
    from: &NodePort,
    lid: Lid,
) -> Result<(), WriteFault>
    ensures writes { Writes W.written W.has_failed result sink.old sink.new
        (start_text topology.now.nodes from.now lid) }
{
    sink.write(b"ping ")?;
    write_port(sink, topology, from)?;
    write_count(sink, b" ", u64::from(lid.number()))
}

/// Prints the port where a packet ends and the number of wires that it took, or the node where it is lost.
#[tactic(auto, unfolding(crate::specs::Lines::end_text))]
fn write_end<W: Sink>(sink: &mut W, topology: &Topology, ping: &Ping) -> Result<(), WriteFault>
    ensures writes { Writes W.written W.has_failed result sink.old sink.new
        (end_text topology.now.nodes ping.now) }
{
    match ping {
        Ping::Reached(port, hops) => {
            sink.write(b" reached ")?;
            write_port(sink, topology, port)?;
            write_count(sink, b" hops ", *hops as u64)
        }
        Ping::Lost(node) => {
            sink.write(b" lost ")?;
            write_name(sink, name_at(topology, *node))
        }
    }
}

/// Prints `port`: the name of its node in quotes, and its number in brackets.
fn write_port<W: Sink>(sink: &mut W, topology: &Topology, port: &NodePort) -> Result<(), WriteFault>
    ensures writes { Writes W.written W.has_failed result sink.old sink.new
        (port_text topology.now.nodes port.now) }
{
    write_name(sink, name_at(topology, port.node))?;
    write_count(sink, b"[", u64::from(port.port.number()))?;
    sink.write(b"]")
}

/// Prints `name` in quotes.
fn write_name<W: Sink>(sink: &mut W, name: &str) -> Result<(), WriteFault>
    ensures writes { Writes W.written W.has_failed result sink.old sink.new (quoted_text name.now) }
{
    write_between(sink, b"\"", name.as_bytes(), b"\"")
}

/// Prints the line of a packet in flight: its serial number, and the node where it waits.
pub fn write_flight<W: Sink>(
    sink: &mut W,
    topology: &Topology,
    serial: u64,
    node: NodeId,
) -> Result<(), WriteFault>
    ensures writes { Writes W.written W.has_failed result sink.old sink.new
        (flight_line topology.now.nodes serial node) }
{
    write_count(sink, b"packet ", serial)?;
    sink.write(b" ")?;
    write_name(sink, name_at(topology, node))?;
    sink.write(b"\n")
}
