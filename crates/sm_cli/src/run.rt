//! A run on files of records.
ghost use Rattle.std.specs.Prelude.{◌≡◌, ◌⊎◌, ◌≤◌, Err, None, false, length, OnOk, OnErr, IfErr, IfOk, IsTrue};
ghost use Rattle.std.specs.Io.KnownBytes.{Appends};
ghost use Rattle.fact_store.specs.View.{cells_of};
ghost use Rattle.lid_assign.specs.LidFault.{no_room};
ghost use Rattle.lft_blocks.specs.Rule.{value_of};
ghost use Rattle.lft_blocks.specs.Plan.{plan_of};
ghost use Rattle.lft_blocks.specs.PlanText.{plan_text};
ghost use Rattle.sm_cli.specs.Asked.{rule_for, texts_for};
ghost use Rattle.sm_cli.specs.OrderText.{order_text};
ghost use Rattle.sm_cli.specs.Fault.{IsOutputFault};
ghost use Rattle.sm_cli.specs.Run.{HasAnswered, IsAnswer, IsAnswerFault, IsFaultOf};
ghost use Rattle.sm_cli.specs.Run.{IsWritingFault};
ghost use Rattle.plan_order.specs.PlanOrder.{switches_by};

use crate::asked::{Invocation, Output};
use crate::fault::Fault;
use crate::input_files::FilesFrom;
use crate::inputs::read_inputs;
use crate::order_text::write_order;
use attr_codec::Lmc;
use byte_io::{Sink, Source};
use fact_store::Store;
use lft_blocks::{Plan, Rule, write_plan};
use plan_order::plan_switches;
use record_file::{write_facts, write_store};
use std::alloc::Global;

/// Reads the inputs in order: the text that the rule takes, if any, and then the files (`read_inputs`). Writes what
/// `request` asks for, from all that the files say together, and flushes. There must be a text if the rule takes one.
/// Returns an error if an input is refused, if there is no room for the LIDs of a plan, if memory is refused, or if a
/// write fails. How much is written before a write fails is unspecified; with any other error nothing is written.
pub fn run_files<S: Source, W: Sink>(
    alloc: Global,
    inputs: &mut [S],
    request: Invocation,
    sink: &mut W,
) -> Result<(), Fault>
    requires { texts_for (rule_for request.output) ≤ length inputs.old }
    ensures done { OnOk result (HasAnswered S.state request inputs.old inputs.new
        (Appends (W.written sink.old) (W.written sink.new))) }
    ensures flushed { OnOk result (IsTrue (W.is_flushed sink.new)) }
    ensures sink_works { OnOk result (W.has_failed sink.new ≡ false) }
    ensures refused { IfErr result (IsFaultOf S.state request
        inputs.old inputs.new (W.has_failed sink.new)) }
    ensures nothing_written { OnErr result ((result ≡ Err Fault.Write) ⊎ (sink.new ≡ sink.old)) }
{
    let reader = FilesFrom {
        floor: request.floor,
    };
    let (rule, store) = read_inputs(alloc, request.output.rule(), &reader, inputs)?;
    write_answer(alloc, sink, request.output, &rule, &store)
}

/// Writes what `output` asks for from the facts in `store`, by `rule` whatever rule it names, and flushes.
fn write_answer<W: Sink>(
    alloc: Global,
    sink: &mut W,
    output: Output,
    rule: &Rule,
    store: &Store,
) -> Result<(), Fault>
    ensures done { OnOk result (IsAnswer output (value_of rule.now) store.now
        (Appends (W.written sink.old) (W.written sink.new))) }
    ensures flushed { OnOk result (IsTrue (W.is_flushed sink.new)) }
    ensures sink_works { OnOk result (W.has_failed sink.new ≡ false) }
    ensures refused { IfErr result (IsAnswerFault output store.now (W.has_failed sink.new)) }
    ensures nothing_written { OnErr result ((result ≡ Err Fault.Write) ⊎ (sink.new ≡ sink.old)) }
{
    match output {
        Output::Facts => write_facts(sink, store)?,
        Output::Join => write_store(sink, store)?,
        Output::Plan(lmc, _) => write_plan_by(alloc, sink, store, lmc, rule)?,
        Output::Order(_) => write_order_by(alloc, sink, store, rule)?,
    }
    Ok(())
}

/// Writes the plan of the facts in `store`, under `lmc` and by `rule`, and flushes.
#[tactic(auto, using(crate::proofs::Plans::has_room, crate::proofs::Plans::plan_fault))]
fn write_plan_by<W: Sink>(
    alloc: Global,
    sink: &mut W,
    store: &Store,
    lmc: Lmc,
    rule: &Rule,
) -> Result<(), Fault>
    ensures written { OnOk result (Appends (W.written sink.old) (W.written sink.new) (plan_text
        (plan_of (value_of rule.now) lmc (cells_of store.now)))) }
    ensures has_room { OnOk result (no_room lmc (cells_of store.now) ≡ None) }
    ensures flushed { OnOk result (IsTrue (W.is_flushed sink.new)) }
    ensures sink_works { OnOk result (W.has_failed sink.new ≡ false) }
    ensures refused { IfErr result (IsWritingFault lmc store.now (W.has_failed sink.new)) }
    ensures nothing_written { OnErr result ((result ≡ Err Fault.Write) ⊎ (sink.new ≡ sink.old)) }
{
    let plan = Plan::of(alloc, store, lmc, rule)?;
    write_plan(sink, &plan)?;
    Ok(())
}

/// Writes the usable switches of the facts in `store`, in the order by which `rule` plans, and flushes.
fn write_order_by<W: Sink>(
    alloc: Global,
    sink: &mut W,
    store: &Store,
    rule: &Rule,
) -> Result<(), Fault>
    ensures written { OnOk result (Appends (W.written sink.old) (W.written sink.new)
        (order_text (switches_by (value_of rule.now) (cells_of store.now)))) }
    ensures flushed { OnOk result (IsTrue (W.is_flushed sink.new)) }
    ensures sink_works { OnOk result (W.has_failed sink.new ≡ false) }
    ensures refused { IfErr result (IsOutputFault (W.has_failed sink.new)) }
    ensures nothing_written { OnErr result ((result ≡ Err Fault.Write) ⊎ (sink.new ≡ sink.old)) }
{
    let switches = plan_switches(alloc, store, rule)?;
    write_order(sink, &switches)?;
    Ok(())
}
