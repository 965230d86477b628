//! An audit as text.
ghost use Rattle.std.specs.Prelude.{◌-◌, codes};
ghost use Rattle.std.specs.List.{flat_map};
ghost use Rattle.fact_store.specs.View.{cells_of};
ghost use Rattle.byte_io.specs.Writes.{Writes};
ghost use Rattle.byte_io.specs.Prints.{WritesPart};
ghost use Rattle.audit_channels.specs.CycleText.{cycle_line};
ghost use Rattle.audit_channels.specs.declared.cycle_text.ChannelKind.TheVariants.{OnOneLane};
ghost use Rattle.audit_report.specs.AuditText.{disputed_line};
ghost use Rattle.audit_report.specs.AuditText.{cause_text, causes_text, count_text, counts_line, findings_text};
ghost use Rattle.audit_report.specs.AuditText.{listed_text, missed_line};
ghost use Rattle.audit_report.specs.AuditText.{more_line, others_text, pairs_text, tally_text};
ghost use Rattle.audit_report.specs.AuditText.{figures_line, figures_text, hundredths_text, ways_text};
ghost use Rattle.audit_report.specs.AuditText.{end_text, entry_text, lid_line, packet_line, packets_text};
ghost use Rattle.audit_report.specs.AuditText.{port_line, kind_text};
ghost use Rattle.audit_report.specs.AuditText.{lost_text, missed_text, sent_text, switch_line, taken_text};
ghost use Rattle.audit_report.specs.AuditText.{unmatched_text};

use crate::findings::Audit;
use audit_channels::{ChannelKind, write_cycle};
use audit_counts::{
    Causes, Figures, FirstFew, PacketTally, Pairs, SentPacket, Unmatched, WayFigures,
};
use byte_io::{Sink, WriteFault, write_guid, write_number, write_port};
use held_tables::HeldLid;
use packet_walks::{Cause, End, Network};
use smp_bytes::{Guid, Lid};
use subnet_view::EndPort;

/// Writes what `audit` found, except for the credit loop:
///
/// - how many packets there are and how many arrive: of all packets, of packets between adapter ports, and of packets
///   to or from a switch;
/// - how many packets are lost for each cause, are misdelivered, and loop;
/// - the first packets of each kind that do not arrive, in ascending order of LID and then in the order of the end
///   ports, and how many more there are;
/// - the first differences of each kind between tables and facts, the first gaps of each kind in the facts, and how
///   many more there are;
/// - how many facts are disputed, if any are;
/// - the greatest and the mean number of wires that packets between adapter ports take, and the greatest and the mean
///   load of a channel.
///
/// Does not allocate.
pub fn write_findings<W: Sink>(sink: &mut W, audit: &Audit) -> Result<(), WriteFault>
    ensures { Writes W.written W.has_failed result sink.old sink.new
        (findings_text audit.now.most (cells_of audit.now.facts) audit.now.held) }
{
    let findings = &audit.findings;
    write_tally(sink, &audit.network, &findings.tally)?;
    write_unmatched(sink, &findings.unmatched)?;
    write_disputed(sink, findings.disputed)?;
    write_ways(sink, &findings.ways)
}

/// Writes the channels of the credit loop on one lane that `audit` found, or that there is none.
pub fn write_loop<W: Sink>(sink: &mut W, audit: &Audit) -> Result<(), WriteFault>
    ensures { Writes W.written W.has_failed result sink.old sink.new
        (cycle_line (cells_of audit.now.facts) OnOneLane audit.now.cycle) }
{
    write_cycle(
        sink,
        &audit.network,
        ChannelKind::OnOneLane,
        &audit.findings.cycle,
    )
}

/// Writes the counts of packets, and the first of each kind that do not arrive.
fn write_tally<W: Sink>(
    sink: &mut W,
    network: &Network,
    tally: &PacketTally,
) -> Result<(), WriteFault>
    ensures { Writes W.written W.has_failed result sink.old sink.new
        (tally_text (cells_of network.now.facts) network.now.held tally.now) }
{
    write_pairs(sink, &tally.all, &tally.between)?;
    write_counted(
        sink,
        &tally.causes,
        tally.misdelivered.count(),
        tally.round.count(),
    )?;
    write_missed(sink, network, tally)
}

/// Writes how many packets there are and arrive: of all, of those between adapter ports, and of those with a switch.
fn write_pairs<W: Sink>(sink: &mut W, all: &Pairs, between: &Pairs) -> Result<(), WriteFault>
    ensures { Writes W.written W.has_failed result sink.old sink.new (pairs_text all.now between.now) }
{
    write_counts(sink, "", all.sent, all.arrived)?;
    write_counts(sink, "between adapters ", between.sent, between.arrived)?;
    write_with_switch(sink, all, between)
}

/// Writes how many packets of `all` are not in `between`, those to or from a switch, and how many of them arrive.
fn write_with_switch<W: Sink>(sink: &mut W, all: &Pairs, between: &Pairs) -> Result<(), WriteFault>
    ensures { Writes W.written W.has_failed result sink.old sink.new
        (counts_line (codes "with a switch ") (all.now.sent - between.now.sent)
        (all.now.arrived - between.now.arrived)) }
{
    let sent = all.sent.saturating_sub(between.sent);
    let arrived = all.arrived.saturating_sub(between.arrived);
    write_counts(sink, "with a switch ", sent, arrived)
}

/// Writes a line of counts: `words`, then `sent` packets, of which `arrived` arrive.
fn write_counts<W: Sink>(
    sink: &mut W,
    words: &str,
    sent: u64,
    arrived: u64,
) -> Result<(), WriteFault>
    ensures { Writes W.written W.has_failed result sink.old sink.new (counts_line words.now sent arrived) }
{
    sink.write(words.as_bytes())?;
    sink.write(b"pairs ")?;
    write_number(sink, sent)?;
    sink.write(b" arrive ")?;
    write_number(sink, arrived)?;
    sink.write(b"\n")
}

/// Writes the line of the packets that do not arrive: how many are lost for each cause, are misdelivered, and loop.
fn write_counted<W: Sink>(
    sink: &mut W,
    causes: &Causes,
    misdelivered: u64,
    round: u64,
) -> Result<(), WriteFault>
    ensures { Writes W.written W.has_failed result sink.old sink.new
        (missed_line causes.now misdelivered round) }
{
    sink.write(b"missed")?;
    write_causes(sink, causes)?;
    write_others(sink, misdelivered, round)?;
    sink.write(b"\n")
}

/// Writes how many packets are misdelivered, and how many loop.
fn write_others<W: Sink>(sink: &mut W, misdelivered: u64, round: u64) -> Result<(), WriteFault>
    ensures { Writes W.written W.has_failed result sink.old sink.new (others_text misdelivered round) }
{
    write_count(sink, "misdelivered", misdelivered)?;
    write_count(sink, "round", round)
}

/// Writes how many packets are lost for each cause.
fn write_causes<W: Sink>(sink: &mut W, causes: &Causes) -> Result<(), WriteFault>
    ensures { Writes W.written W.has_failed result sink.old sink.new (causes_text causes.now) }
{
    write_count(sink, "above-top", causes.above_top)?;
    write_count(sink, "no-entry", causes.no_entry)?;
    write_count(sink, "no-port", causes.no_port)?;
    write_count(sink, "no-link", causes.no_link)?;
    write_count(sink, "foreign", causes.foreign)
}

/// Writes `word` and `count`, with a space before each.
fn write_count<W: Sink>(sink: &mut W, word: &str, count: u64) -> Result<(), WriteFault>
    ensures { Writes W.written W.has_failed result sink.old sink.new (count_text word.now count) }
{
    sink.write(b" ")?;
    sink.write(word.as_bytes())?;
    sink.write(b" ")?;
    write_number(sink, count)
}

/// Writes the first packets of each kind that do not arrive, and how many more there are.
fn write_missed<W: Sink>(
    sink: &mut W,
    network: &Network,
    tally: &PacketTally,
) -> Result<(), WriteFault>
    ensures { WritesPart W.written W.has_failed result sink.old sink.new
        (missed_text (cells_of network.now.facts) network.now.held
        tally.now.lost tally.now.misdelivered tally.now.round) }
{
    write_listed(sink, network, "lost", &tally.lost)?;
    write_listed(sink, network, "misdelivered", &tally.misdelivered)?;
    write_listed(sink, network, "round", &tally.round)
}

/// Writes the first packets of the kind `word`, and how many more there are.
fn write_listed<W: Sink>(
    sink: &mut W,
    network: &Network,
    word: &str,
    few: &FirstFew<SentPacket>,
) -> Result<(), WriteFault>
    ensures { WritesPart W.written W.has_failed result sink.old sink.new
        (listed_text (cells_of network.now.facts) network.now.held word.now few.now) }
{
    write_packets(sink, network, word, few.first())?;
    write_more(sink, word, few.more())
}

/// Writes a line for each of `packets`. Each line begins with `word`.
fn write_packets<W: Sink>(
    sink: &mut W,
    network: &Network,
    word: &str,
    packets: &[SentPacket],
) -> Result<(), WriteFault>
    ensures { WritesPart W.written W.has_failed result sink.old sink.new
        (packets_text (cells_of network.now.facts) network.now.held word.now packets.now) }
{
    for packet in packets {
        write_packet(sink, network, word, packet)?;
    }
    Ok(())
}

/// Writes the line of `packet`: `word`, the end port that sends it, its LID, and where it ends.
fn write_packet<W: Sink>(
    sink: &mut W,
    network: &Network,
    word: &str,
    packet: &SentPacket,
) -> Result<(), WriteFault>
    ensures { Writes W.written W.has_failed result sink.old sink.new
        (packet_line (cells_of network.now.facts) network.now.held word.now packet.now) }
{
    write_sent(sink, word, packet)?;
    write_end(sink, network, packet.line.lid, &packet.end)?;
    sink.write(b"\n")
}

/// Writes `word`, the end port that sends `packet`, and the packet's LID.
fn write_sent<W: Sink>(sink: &mut W, word: &str, packet: &SentPacket) -> Result<(), WriteFault>
    ensures { Writes W.written W.has_failed result sink.old sink.new (sent_text word.now packet.now) }
{
    sink.write(word.as_bytes())?;
    sink.write(b" ")?;
    write_port(sink, packet.source.node, packet.source.port)?;
    sink.write(b" ")?;
    write_number(sink, u64::from(packet.line.lid.number()))
}

/// Writes `end`, where a packet for `lid` ends. Writes nothing if `end` is `None`, which means that the packet loops.
pub(crate) fn write_end<W: Sink>(
    sink: &mut W,
    network: &Network,
    lid: Lid,
    end: &Option<End>,
) -> Result<(), WriteFault>
    ensures { WritesPart W.written W.has_failed result sink.old sink.new
        (end_text (cells_of network.now.facts) network.now.held lid end.now) }
{
    match end {
        None => Ok(()),
        Some(End::Taken(port)) => write_taken(sink, port),
        Some(End::Lost(node, cause)) => write_lost(sink, network, lid, *node, *cause),
    }
}

/// Writes that a packet is delivered at `port`.
fn write_taken<W: Sink>(sink: &mut W, port: &EndPort) -> Result<(), WriteFault>
    ensures { Writes W.written W.has_failed result sink.old sink.new (taken_text port.now) }
{
    sink.write(b" at ")?;
    write_port(sink, port.node, port.port)
}

/// Writes `node`, where a packet for `lid` is lost, its entry for `lid` if it is a usable switch, and `cause`.
fn write_lost<W: Sink>(
    sink: &mut W,
    network: &Network,
    lid: Lid,
    node: Guid,
    cause: Cause,
) -> Result<(), WriteFault>
    ensures { Writes W.written W.has_failed result sink.old sink.new
        (lost_text (cells_of network.now.facts) network.now.held lid node cause) }
{
    sink.write(b" at ")?;
    write_guid(sink, node)?;
    write_entry(sink, network.entry(node, lid))?;
    write_cause(sink, cause)
}

/// Writes `cause`, for which a packet is lost.
fn write_cause<W: Sink>(sink: &mut W, cause: Cause) -> Result<(), WriteFault>
    ensures { Writes W.written W.has_failed result sink.old sink.new (cause_text cause) }
{
    match cause {
        Cause::AboveTop => sink.write(b": above top"),
        Cause::NoEntry => sink.write(b": no entry"),
        Cause::NoPort => sink.write(b": no such port"),
        Cause::NoLink => sink.write(b": no link"),
        Cause::Foreign => sink.write(b": foreign port"),
    }
}

/// Writes `entry`, the table entry of a lost packet, or nothing if it is `None`.
fn write_entry<W: Sink>(sink: &mut W, entry: Option<u8>) -> Result<(), WriteFault>
    ensures { WritesPart W.written W.has_failed result sink.old sink.new (entry_text entry) }
{
    match entry {
        Some(port) => {
            sink.write(b" by ")?;
            write_number(sink, u64::from(port))
        }
        None => Ok(()),
    }
}

/// Writes where tables and facts differ, and the gaps in the facts.
fn write_unmatched<W: Sink>(sink: &mut W, unmatched: &Unmatched) -> Result<(), WriteFault>
    ensures { WritesPart W.written W.has_failed result sink.old sink.new (unmatched_text unmatched.now) }
{
    write_lids(sink, "unowned", &unmatched.unowned)?;
    write_lids(sink, "twice", &unmatched.twice)?;
    write_switches(sink, "unknown", &unmatched.unknown)?;
    write_switches(sink, "tableless", &unmatched.tableless)?;
    write_switches(sink, "unusable", &unmatched.unusable)?;
    write_ports(sink, "lidless", &unmatched.lidless)?;
    write_ports(sink, "unjoined", &unmatched.unjoined)
}

/// Writes the first LIDs of the kind `word`, and how many more there are.
fn write_lids<W: Sink>(sink: &mut W, word: &str, few: &FirstFew<HeldLid>) -> Result<(), WriteFault>
    ensures { WritesPart W.written W.has_failed result sink.old sink.new (kind_text lid_line word.now few.now) }
{
    write_each_lid(sink, word, few.first())?;
    write_more(sink, word, few.more())
}

/// Writes a line for each of `lines`. Each written line begins with `word`.
fn write_each_lid<W: Sink>(sink: &mut W, word: &str, lines: &[HeldLid]) -> Result<(), WriteFault>
    ensures { WritesPart W.written W.has_failed result sink.old sink.new (flat_map (lid_line word.now) lines.now) }
{
    for line in lines {
        write_lid(sink, word, line)?;
    }
    Ok(())
}

/// Writes `word`, the LID of `line` and the end port that holds it, as a line.
fn write_lid<W: Sink>(sink: &mut W, word: &str, line: &HeldLid) -> Result<(), WriteFault>
    ensures { Writes W.written W.has_failed result sink.old sink.new (lid_line word.now line.now) }
{
    sink.write(word.as_bytes())?;
    sink.write(b" ")?;
    write_number(sink, u64::from(line.lid.number()))?;
    sink.write(b" ")?;
    write_port(sink, line.port.node, line.port.port)?;
    sink.write(b"\n")
}

/// Writes the first nodes of the kind `word`, and how many more there are.
fn write_switches<W: Sink>(sink: &mut W, word: &str, few: &FirstFew<Guid>) -> Result<(), WriteFault>
    ensures { WritesPart W.written W.has_failed result sink.old sink.new (kind_text switch_line word.now few.now) }
{
    write_each_switch(sink, word, few.first())?;
    write_more(sink, word, few.more())
}

/// Writes a line for each of `guids`. Each line begins with `word`.
fn write_each_switch<W: Sink>(sink: &mut W, word: &str, guids: &[Guid]) -> Result<(), WriteFault>
    ensures { WritesPart W.written W.has_failed result sink.old sink.new (flat_map (switch_line word.now) guids.now) }
{
    for guid in guids {
        write_switch(sink, word, *guid)?;
    }
    Ok(())
}

/// Writes `word` and `guid`, as a line.
fn write_switch<W: Sink>(sink: &mut W, word: &str, guid: Guid) -> Result<(), WriteFault>
    ensures { Writes W.written W.has_failed result sink.old sink.new (switch_line word.now guid) }
{
    sink.write(word.as_bytes())?;
    sink.write(b" ")?;
    write_guid(sink, guid)?;
    sink.write(b"\n")
}

/// Writes the first ports of the kind `word`, and how many more there are.
fn write_ports<W: Sink>(sink: &mut W, word: &str, few: &FirstFew<EndPort>) -> Result<(), WriteFault>
    ensures { WritesPart W.written W.has_failed result sink.old sink.new (kind_text port_line word.now few.now) }
{
    write_each_port(sink, word, few.first())?;
    write_more(sink, word, few.more())
}

/// Writes a line for each of `ports`. Each line begins with `word`.
fn write_each_port<W: Sink>(sink: &mut W, word: &str, ports: &[EndPort]) -> Result<(), WriteFault>
    ensures { WritesPart W.written W.has_failed result sink.old sink.new (flat_map (port_line word.now) ports.now) }
{
    for port in ports {
        write_end_port(sink, word, port)?;
    }
    Ok(())
}

/// Writes `word` and `port`, as a line.
fn write_end_port<W: Sink>(sink: &mut W, word: &str, port: &EndPort) -> Result<(), WriteFault>
    ensures { Writes W.written W.has_failed result sink.old sink.new (port_line word.now port.now) }
{
    sink.write(word.as_bytes())?;
    sink.write(b" ")?;
    write_port(sink, port.node, port.port)?;
    sink.write(b"\n")
}

/// Writes that `count` more items of the kind `word` are not listed, or nothing if `count` is 0.
pub fn write_more<W: Sink>(sink: &mut W, word: &str, count: u64) -> Result<(), WriteFault>
    ensures { WritesPart W.written W.has_failed result sink.old sink.new (more_line word.now count) }
{
    if count == 0 {
        return Ok(());
    }
    sink.write(b"more ")?;
    sink.write(word.as_bytes())?;
    sink.write(b" ")?;
    write_number(sink, count)?;
    sink.write(b"\n")
}

/// Writes that `count` facts are disputed, or nothing if `count` is 0.
fn write_disputed<W: Sink>(sink: &mut W, count: usize) -> Result<(), WriteFault>
    ensures { WritesPart W.written W.has_failed result sink.old sink.new (disputed_line count) }
{
    if count == 0 {
        return Ok(());
    }
    sink.write(b"disputed ")?;
    write_number(sink, count as u64)?;
    sink.write(b"\n")
}

/// Writes the line of figures of the wires that packets take, and the line of figures of the loads of channels.
fn write_ways<W: Sink>(sink: &mut W, ways: &WayFigures) -> Result<(), WriteFault>
    ensures { Writes W.written W.has_failed result sink.old sink.new (ways_text ways.now.hops ways.now.load) }
{
    write_line(sink, "hops", &ways.hops)?;
    write_line(sink, "load", &ways.load)
}

/// Writes a line of figures: `word`, and the greatest number and the mean, or `none` if `figures` is `None`.
fn write_line<W: Sink>(
    sink: &mut W,
    word: &str,
    figures: &Option<Figures>,
) -> Result<(), WriteFault>
    ensures { Writes W.written W.has_failed result sink.old sink.new (figures_line word.now figures.now) }
{
    sink.write(word.as_bytes())?;
    write_figures(sink, figures)?;
    sink.write(b"\n")
}

/// Writes the greatest number and the mean of `figures`, or `none` if `figures` is `None`.
fn write_figures<W: Sink>(sink: &mut W, figures: &Option<Figures>) -> Result<(), WriteFault>
    ensures { Writes W.written W.has_failed result sink.old sink.new (figures_text figures.now) }
{
    match figures {
        None => sink.write(b" none"),
        Some(figures) => {
            sink.write(b" max ")?;
            write_number(sink, figures.most)?;
            sink.write(b" mean ")?;
            write_hundredths(sink, figures.hundredths)
        }
    }
}

/// Writes `number` hundredths as a decimal number with two digits after the point.
fn write_hundredths<W: Sink>(sink: &mut W, number: u64) -> Result<(), WriteFault>
    ensures { Writes W.written W.has_failed result sink.old sink.new (hundredths_text number) }
{
    write_number(sink, number / 100)?;
    sink.write(b".")?;
    write_number(sink, number / 10 % 10)?;
    write_number(sink, number % 10)
}
