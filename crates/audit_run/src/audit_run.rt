//! An audit of a text of lanes, if it is given, of tables and of files of records.
ghost use Rattle.std.specs.Prelude.{◌≡◌, ◌+◌, ◌≤◌, ◌↔◌, ◌⊎◌, ◌++◌, [], Err, IfErr, IfOk, IsTrue, None, OnErr, OnOk};
ghost use Rattle.std.specs.Prelude.{false, length, true};
ghost use Rattle.std.specs.Io.KnownBytes.{Appends};
ghost use Rattle.fact_store.specs.View.{cells_of};
ghost use Rattle.byte_io.specs.Writes.{Writes};
ghost use Rattle.audit_report.specs.Appendix.{appendix_text, shown};
ghost use Rattle.audit_report.specs.AuditText.{findings_text};
ghost use Rattle.audit_channels.specs.ChannelOrders.{CanRise};
ghost use Rattle.audit_channels.specs.Waiting.{WaitsFor};
ghost use Rattle.lanes_file.specs.Carried.{CarriesAll};
ghost use Rattle.audit_run.specs.AuditRun.{AreFoundByLane, HasAudited, IsAuditFault, IsAudited, IsFoundByLane};
ghost use Rattle.audit_run.specs.AuditRun.{IsLaneOrder, TellsFlaws, loops_text, seen_of};
ghost use Rattle.audit_run.specs.VerdictText.{verdict_line};
ghost use Rattle.sm_cli.specs.Asked.{texts_if};
ghost use Rattle.sm_cli.specs.Fault.{IsOutputFault};

use crate::flaw::Flaw;
use crate::flaws::flaws_of;
use crate::lane_findings::LaneFindings;
use crate::levels_missing::pairs_without_level;
use crate::verdict_text::write_verdict;
use audit_report::{Appendix, Audit, most_lines, write_findings, write_loop};
use byte_io::{Sink, Source, WriteFault};
use fact_store::Refused;
use held_tables::WiredSubnet;
use lane_channels::{LaneNetwork, LaneOrder, lane_order};
use lanes_file::Lanes;
use sm_cli::{AuditAsked, Fault, TextAndTables, read_text_and_tables};
use std::alloc::Global;
use subnet_view::Subnet;

/// Reads the lanes from the first input if `asked.lanes` is true, then the tables from the next input, and then the
/// files from the other inputs, one after the other. There must be an input for each text. Writes what these tables do
/// with the packets of the subnet that the files describe together and, if there are lanes, what is found by lane, with
/// answers and without. Then flushes. Returns whether the tables pass and, if there is an `asked.max_load`, no channel
/// has a greater load. If there are lanes, credit loops are judged by lane, without answers.
///
/// # Errors
///
/// Returns the fault of the first input that is refused, `Memory` if memory is refused, or `Write` if a write fails.
/// Nothing is written unless the error is `Write`; how much is written then is unspecified.
pub fn run_audit<S: Source, W: Sink>(
    alloc: Global,
    inputs: &mut [S],
    asked: AuditAsked,
    sink: &mut W,
) -> Result<bool, Fault>
    requires { texts_if asked.lanes + 1 ≤ length inputs.old }
    ensures done { IfOk result (HasAudited S.state asked inputs.old inputs.new
        (Appends (W.written sink.old) (W.written sink.new))) }
    ensures flushed { OnOk result (IsTrue (W.is_flushed sink.new)) }
    ensures sink_works { OnOk result (W.has_failed sink.new ≡ false) }
    ensures refused { IfErr result (IsAuditFault S.state asked.lanes
        inputs.old inputs.new (W.has_failed sink.new)) }
    ensures nothing_written { OnErr result ((result ≡ Err Fault.Write) ⊎ (sink.new ≡ sink.old)) }
{
    let told = read_text_and_tables(alloc, 0, asked.lanes, inputs)?;
    answer(alloc, sink, &asked, &told)
}

/// Writes the audit of the tables of `told` in the subnet of its facts, by its lanes too if there are any, and flushes.
/// Returns whether the tables pass and, if there is an `asked.max_load`, no channel has a greater load.
fn answer<W: Sink>(
    alloc: Global,
    sink: &mut W,
    asked: &AuditAsked,
    told: &TextAndTables<Lanes>,
) -> Result<bool, Fault>
    ensures audited { IfOk result (IsAudited asked.now told.now.read.store told.now.read.held told.now.text
        (Appends (W.written sink.old) (W.written sink.new))) }
    ensures flushed { OnOk result (IsTrue (W.is_flushed sink.new)) }
    ensures sink_works { OnOk result (W.has_failed sink.new ≡ false) }
    ensures refused { IfErr result (IsOutputFault (W.has_failed sink.new)) }
    ensures nothing_written { OnErr result ((result ≡ Err Fault.Write) ⊎ (sink.new ≡ sink.old)) }
{
    let most = most_lines(asked.all);
    let subnet = Subnet::of(alloc, &told.read.store)?;
    let wired = WiredSubnet::of(alloc, &subnet)?;
    let audit = Audit::of(alloc, most, &wired, &told.read.held)?;
    let found = found_by_lane(alloc, most, &audit, &told.text)?;
    let appendix = Appendix::of(alloc, asked, audit.network())?;
    tell(alloc, sink, asked, &audit, &found, &appendix)
}

/// Finds what `lanes`, if there are any, do with the packets of `audit`. Keeps `most` packets without a level.
fn found_by_lane(
    alloc: Global,
    most: usize,
    audit: &Audit,
    lanes: &Option<Lanes>,
) -> Result<Option<LaneFindings>, Refused>
    ensures { IfOk result (AreFoundByLane most audit.now.facts audit.now.held lanes.now) }
{
    match lanes {
        None => Ok(None),
        Some(lanes) => Ok(Some(findings(alloc, most, audit, lanes)?)),
    }
}

/// Finds packets between adapter ports without a service level, the first `most`, and drops and credit loops by lane.
fn findings(
    alloc: Global,
    most: usize,
    audit: &Audit,
    lanes: &Lanes,
) -> Result<LaneFindings, Refused>
    ensures { IfOk result (IsFoundByLane most (seen_of audit.now.facts audit.now.held lanes.now)) }
{
    let missing = pairs_without_level(alloc, most, audit.network(), audit.sites(), lanes)?;
    let (order, answers) = orders(alloc, audit, lanes)?;
    Ok(LaneFindings {
        missing,
        order,
        answers,
    })
}

/// Finds a shortest credit loop of channels by lane, and a packet that is dropped for want of a lane, without answers
/// and with them. Follows packets by lane, unless there is nothing to find.
fn orders(alloc: Global, audit: &Audit, lanes: &Lanes) -> Result<(LaneOrder, LaneOrder), Refused>
    ensures order { IfOk result (λ both.
        IsLaneOrder (seen_of audit.now.facts audit.now.held lanes.now) false both.0) }
    ensures answers { IfOk result (λ both.
        IsLaneOrder (seen_of audit.now.facts audit.now.held lanes.now) true both.1) }
{
    if has_nothing_to_find(audit, lanes) {
        return Ok((nothing_found(alloc), nothing_found(alloc)));
    }
    let by_lane = LaneNetwork::of(alloc, audit.network(), lanes)?;
    let order = lane_order(alloc, &by_lane, false)?;
    let answers = lane_order(alloc, &by_lane, true)?;
    Ok((order, answers))
}

/// Returns whether there is nothing to find by lane: channels on one lane have numbers that rise, and each packet with
/// a service level has a lane below 15.
fn has_nothing_to_find(audit: &Audit, lanes: &Lanes) -> bool
    ensures { IsTrue result → CanRise (WaitsFor (cells_of audit.now.facts) audit.now.held) × CarriesAll lanes.now }
{
    audit.can_rise() && lanes.carries_all()
}

/// Returns no credit loop and no dropped packet.
fn nothing_found(alloc: Global) -> LaneOrder
    ensures cycle { result.cycle.items ≡ [] }
    ensures dropped { result.dropped ≡ None }
{
    LaneOrder {
        cycle: Vec::new(alloc),
        dropped: None,
    }
}

/// Finds the flaws by `audit` and what was `found` by lane. Writes both, the lines of `appendix`, and the line of the
/// flaws, and flushes. Returns whether there are no flaws.
fn tell<W: Sink>(
    alloc: Global,
    sink: &mut W,
    asked: &AuditAsked,
    audit: &Audit,
    found: &Option<LaneFindings>,
    appendix: &Appendix,
) -> Result<bool, Fault>
    requires { shown (cells_of audit.now.facts) audit.now.held appendix.now
        ≡ appendix_text asked.now (cells_of audit.now.facts) audit.now.held }
    ensures told { IfOk result (TellsFlaws asked.now.max_load audit.now.facts audit.now.held found.now
        (Appends (W.written sink.old) (W.written sink.new))
        (findings_text audit.now.most (cells_of audit.now.facts) audit.now.held
        ++ loops_text (cells_of audit.now.facts) audit.now.cycle found.now
        ++ appendix_text asked.now (cells_of audit.now.facts) audit.now.held)) }
    ensures flushed { OnOk result (IsTrue (W.is_flushed sink.new)) }
    ensures sink_works { OnOk result (W.has_failed sink.new ≡ false) }
    ensures refused { IfErr result (IsOutputFault (W.has_failed sink.new)) }
    ensures nothing_written { OnErr result ((result ≡ Err Fault.Write) ⊎ (sink.new ≡ sink.old)) }
{
    let flaws = flaws_of(alloc, asked.max_load, audit, found)?;
    tell_flaws(sink, asked, audit, found, appendix, &flaws)
}

/// Writes `audit`, what was `found` by lane, the lines of `appendix`, and the line of `flaws`, and flushes. Returns
/// whether there are no flaws.
fn tell_flaws<W: Sink>(
    sink: &mut W,
    asked: &AuditAsked,
    audit: &Audit,
    found: &Option<LaneFindings>,
    appendix: &Appendix,
    flaws: &[Flaw],
) -> Result<bool, Fault>
    requires { shown (cells_of audit.now.facts) audit.now.held appendix.now
        ≡ appendix_text asked.now (cells_of audit.now.facts) audit.now.held }
    ensures told { IfOk result (λ passed.
        Appends (W.written sink.old) (W.written sink.new)
        (findings_text audit.now.most (cells_of audit.now.facts) audit.now.held
        ++ loops_text (cells_of audit.now.facts) audit.now.cycle found.now
        ++ appendix_text asked.now (cells_of audit.now.facts) audit.now.held ++ verdict_line flaws.now)
        × (IsTrue passed ↔ (flaws.now ≡ []))) }
    ensures flushed { OnOk result (IsTrue (W.is_flushed sink.new)) }
    ensures sink_works { OnOk result (W.has_failed sink.new ≡ false) }
    ensures refused { IfErr result (IsOutputFault (W.has_failed sink.new)) }
    ensures nothing_written { OnErr result ((result ≡ Err Fault.Write) ⊎ (sink.new ≡ sink.old)) }
{
    write_all(sink, audit, found, appendix, flaws)?;
    Ok(flaws.is_empty())
}

/// Writes `audit`, what was `found` by lane, the lines of `appendix` and the line of `flaws`, and flushes.
fn write_all<W: Sink>(
    sink: &mut W,
    audit: &Audit,
    found: &Option<LaneFindings>,
    appendix: &Appendix,
    flaws: &[Flaw],
) -> Result<(), WriteFault>
    ensures writes { Writes W.written W.has_failed result sink.old sink.new
        (findings_text audit.now.most (cells_of audit.now.facts) audit.now.held
        ++ loops_text (cells_of audit.now.facts) audit.now.cycle found.now
        ++ shown (cells_of audit.now.facts) audit.now.held appendix.now ++ verdict_line flaws.now) }
    ensures flushed { OnOk result (IsTrue (W.is_flushed sink.new)) }
{
    write_findings(sink, audit)?;
    write_loops(sink, audit, found)?;
    appendix.write(sink, audit.network())?;
    write_verdict(sink, flaws)?;
    sink.flush()
}

/// Writes what was `found` by lane or, if it is `None`, the credit loop on one lane of `audit`.
fn write_loops<W: Sink>(
    sink: &mut W,
    audit: &Audit,
    found: &Option<LaneFindings>,
) -> Result<(), WriteFault>
    ensures { Writes W.written W.has_failed result sink.old sink.new
        (loops_text (cells_of audit.now.facts) audit.now.cycle found.now) }
{
    match found {
        None => write_loop(sink, audit),
        Some(found) => found.write(sink, audit.network()),
    }
}
