//! A step from held tables towards the plan of the subnet that files describe.
ghost use Rattle.std.specs.Prelude.{◌≡◌, ◌⊎◌, ◌+◌, ◌++◌, ◌≤◌, Err, IfErr, IfOk, IsTrue, None, OnErr, OnOk, false};
ghost use Rattle.std.specs.Prelude.{length};
ghost use Rattle.std.specs.Io.KnownBytes.{Appends};
ghost use Rattle.byte_io.specs.Writes.{Writes};
ghost use Rattle.fact_store.specs.View.{cells_of};
ghost use Rattle.subnet_view.specs.Graph.{graph_of};
ghost use Rattle.subnet_view.specs.Reading.{switches};
ghost use Rattle.lft_blocks.specs.Rule.{RuleValue, value_of};
ghost use Rattle.plan_order.specs.PlanOrder.{positions_by};
ghost use Rattle.next_run.specs.NextRun.{HasStepped, IsMade, IsMadeNear, IsSaid, IsStepFault, IsStepOf, StopsBy};
ghost use Rattle.next_run.specs.NextRun.{StopsStep, choice_of, fault_of_step, goal_or, next_by_choice, texts_before};
ghost use Rattle.next_run.specs.LoopText.{loop_text};
ghost use Rattle.next_run.specs.StepLoops.{IsLoopInStep};
ghost use Rattle.next_run.specs.StepOrderText.{items_of, step_order_text};
ghost use Rattle.next_tables.specs.NextTables.{first_moved};
ghost use Rattle.plan_tables.specs.PlanTables.{held_plan};

use crate::loop_text::StepLoop;
use crate::planned_step::PlannedStep;
use crate::same_tables::are_same_tables;
use crate::step_choice::{StepChoice, step_choice};
use crate::step_order_text::write_step_order;
use byte_io::{Sink, Source, WriteFault};
use held_tables::{Held, WiredSubnet};
use lft_blocks::{Plan, Rule};
use next_tables::{StepFault, next_tables};
use packet_walks::Network;
use plan_order::{plan_in_order, subnet_to_plan};
use plan_tables::held_plan;
use sm_cli::{Fault, StepAsked, StepReader, TextAndTables, TextFault, read_inputs, texts_if};
use smp_bytes::Guid;
use std::alloc::{AllocError, Global};
use subnet_view::SwitchGraph;
use tables_file::write_next;

/// A step from held tables: the tables to write next, and the order that the step goes by.
#[derive(Drop)]
struct MadeStep {
    /// The tables to write next.
    next: Held,
    /// The usable switches in the order that the step goes by. `None` if the step goes by the order of the plan's
    /// switches, or by settled entries.
    order: Option<Vec<Guid>>,
}

/// Reads the inputs in order (`read_inputs`): the text that the rule takes, the text with the order of the last step,
/// if there is one, then the text of the held tables and the files. There must be an input for each text. Writes to
/// `sink` the tables to write next, towards the plan of the subnet that the files describe together.
///
/// Writes to `told` what can happen while these tables are written, under any mixtures of the held and the next
/// tables: a shortest credit loop and its LIDs, or that there is no credit loop. If the step goes towards a goal in
/// between, the last lines have the switches in the order that the step goes by, one on each line. Returns whether
/// there is no credit loop. A failed write to `told` is not an error.
///
/// # Errors
///
/// Returns the fault of `read_inputs` if an input is refused. Otherwise returns `NoRoom` if the plan has no room for
/// its LIDs. If the plan has room, returns a fault of the held tables' text if the plan gives a LID to an end port
/// while another end port holds the LID, `Memory` if memory is refused, or `Write` if a write to `sink` fails. Nothing
/// is written to `sink` unless the error is `Write`; how much is written then is unspecified. Nothing is written to
/// `told` if an error is returned.
pub fn run_next<S: Source, W: Sink, E: Sink>(
    alloc: Global,
    inputs: &mut [S],
    asked: StepAsked,
    sink: &mut W,
    told: &mut E,
) -> Result<bool, Fault>
    requires { texts_before asked + 1 ≤ length inputs.old }
    ensures done { IfOk result (HasStepped S.state asked inputs.old inputs.new
        (Appends (W.written sink.old) (W.written sink.new))
        (IsSaid E.written E.has_failed told.old told.new)) }
    ensures flushed { OnOk result (IsTrue (W.is_flushed sink.new)) }
    ensures sink_works { OnOk result (W.has_failed sink.new ≡ false) }
    ensures refused { IfErr result (IsStepFault S.state asked
        inputs.old inputs.new (W.has_failed sink.new)) }
    ensures nothing_written { OnErr result ((result ≡ Err Fault.Write) ⊎ (sink.new ≡ sink.old)) }
    ensures nothing_told { OnErr result (told.new ≡ told.old) }
{
    let reader = StepReader {
        has_order: asked.has_last,
    };
    let (rule, found) = read_inputs(alloc, asked.rule, &reader, inputs)?;
    step(alloc, asked, &rule, &found, sink, told)
}

/// Returns the number of texts that a step reads before the text of the held tables.
fn texts_before(asked: StepAsked) -> usize
    ensures { result ≡ texts_before asked }
{
    asked.rule.texts() + texts_if(asked.has_last)
}

/// Writes the step that `asked` asks for, from `found`, towards the plan by `rule`, as `run_next` does.
fn step<W: Sink, E: Sink>(
    alloc: Global,
    asked: StepAsked,
    rule: &Rule,
    found: &TextAndTables<Vec<Guid>>,
    sink: &mut W,
    told: &mut E,
) -> Result<bool, Fault>
    ensures done { IfOk result (IsStepOf asked (value_of rule.now) found.now
        (Appends (W.written sink.old) (W.written sink.new))
        (IsSaid E.written E.has_failed told.old told.new)) }
    ensures flushed { OnOk result (IsTrue (W.is_flushed sink.new)) }
    ensures sink_works { OnOk result (W.has_failed sink.new ≡ false) }
    ensures refused { IfErr result (StopsStep (texts_before asked) asked.lmc (value_of rule.now)
        found.now.read.store found.now.read.held (W.has_failed sink.new)) }
    ensures nothing_written { OnErr result ((result ≡ Err Fault.Write) ⊎ (sink.new ≡ sink.old)) }
    ensures nothing_told { OnErr result (told.new ≡ told.old) }
{
    let read = &found.read;
    let planned = subnet_to_plan(alloc, &read.store, asked.lmc)?;
    let (plan, positions) = plan_in_order(alloc, &planned, asked.lmc, rule)?;
    let wired = WiredSubnet::of(alloc, &planned.subnet)?;
    let from = Network::of(alloc, &wired, &read.held)?;
    let made = match made_step(alloc, &planned.graph, &positions, &found.text, &from, &plan) {
        Ok(made) => made,
        Err(fault) => return Err(fault_of_step(texts_before(asked), &fault)),
    };
    let cycle = loop_in_step(alloc, &from, &made.next)?;
    write_next(sink, plan.lids(), &made.next)?;
    let _ = write_loop_and_order(told, &from, &cycle, &made.order);
    Ok(cycle.is_none())
}

/// Returns a shortest credit loop that mixtures of the tables of `from` and `next` make, with its LIDs, or empty lists.
fn loop_in_step(alloc: Global, from: &Network, next: &Held) -> Result<StepLoop, AllocError>
    ensures { IfOk result (λ found. IsLoopInStep (cells_of from.now.facts) from.now.held next.now
        found.channels.items found.lids.items) }
{
    let after = Network::of(alloc, from.wired(), next)?;
    StepLoop::of(alloc, from, &after)
}

/// Writes to `told` the lines of `cycle`, a credit loop that the step can make, and then those of `order`, if given.
fn write_loop_and_order<E: Sink>(
    told: &mut E,
    from: &Network,
    cycle: &StepLoop,
    order: &Option<Vec<Guid>>,
) -> Result<(), WriteFault>
    ensures { Writes E.written E.has_failed result told.old told.new
        (loop_text (cells_of from.now.facts) cycle.now.channels.items cycle.now.lids.items
        ++ step_order_text (items_of order.now)) }
{
    cycle.write(told, from)?;
    write_step_order(told, order)
}

/// Makes the step from the tables of `from` towards `plan`, where `positions` is meant to be the order that the plan
/// goes by. If the step goes by an order that the tables imply, it takes the one nearest to the order `last`, as long
/// as that changes something, and otherwise, or without `last`, the one nearest to that of `positions`.
fn made_step(
    alloc: Global,
    graph: &SwitchGraph,
    positions: &[usize],
    last: &Option<Vec<Guid>>,
    from: &Network,
    plan: &Plan,
) -> Result<MadeStep, StepFault>
    requires graph { graph.now ≡ graph_of (cells_of from.now.facts) }
    requires positions { length positions.now ≡ length (switches (cells_of from.now.facts)) }
    ensures made { (rule : RuleValue) → positions.now ≡ positions_by rule (cells_of from.now.facts)
        → IfOk result (λ made. IsMade rule (items_of last.now) from.now.facts from.now.held
        (held_plan plan.now) made.next (items_of made.order)) }
    ensures still { (rule : RuleValue) → positions.now ≡ positions_by rule (cells_of from.now.facts)
        → OnOk result (first_moved from.now.held (held_plan plan.now) ≡ None) }
    ensures refused { (rule : RuleValue) → positions.now ≡ positions_by rule (cells_of from.now.facts)
        → IfErr result (StopsBy (first_moved from.now.held (held_plan plan.now))) }
{
    let planned = held_plan(alloc, plan)?;
    let to = Network::of(alloc, from.wired(), &planned)?;
    let step = PlannedStep {
        graph,
        positions,
        from: &*from,
        plan: &to,
    };
    let made = step_near(alloc, &step, last)?;
    if last.is_some() && made.order.is_some() && are_same_tables(&made.next, from.held()) {
        return step_near(alloc, &step, &None);
    }
    Ok(made)
}

/// Makes `step`. If the step goes by an order that the held tables imply, it takes the one nearest to the order `last`,
/// or to that of the step's positions if `last` is `None`.
fn step_near(
    alloc: Global,
    step: &PlannedStep,
    last: &Option<Vec<Guid>>,
) -> Result<MadeStep, StepFault>
    ensures made { (rule : RuleValue) → step.now.positions.now ≡ positions_by rule (cells_of step.now.from.now.facts)
        → IfOk result (λ made. IsMadeNear rule (items_of last.now) step.now.from.now.facts step.now.from.now.held
        step.now.plan.now.held made.next (items_of made.order)) }
    ensures still { (rule : RuleValue) → step.now.positions.now ≡ positions_by rule (cells_of step.now.from.now.facts)
        → OnOk result (first_moved step.now.from.now.held step.now.plan.now.held ≡ None) }
    ensures refused { (rule : RuleValue) → step.now.positions.now ≡ positions_by rule (cells_of step.now.from.now.facts)
        → IfErr result (StopsBy (first_moved step.now.from.now.held step.now.plan.now.held)) }
{
    let choice = step_choice(alloc, step, last)?;
    let next = next_by_choice(alloc, &choice, step.from, step.plan)?;
    let StepChoice { order, .. } = choice;
    Ok(MadeStep { next, order })
}

/// Returns the tables to write next by the rule of `choice`, from the tables of `from` towards the goal of `choice` or,
/// if it has none, those of `plan`. Fails with `Moves` if another end port holds a LID of the goal in `from`.
fn next_by_choice(
    alloc: Global,
    choice: &StepChoice,
    from: &Network,
    plan: &Network,
) -> Result<Held, StepFault>
    requires { plan.now.facts ≡ from.now.facts }
    ensures tables { IfOk result (λ next.
        next ≡ next_by_choice (cells_of from.now.facts) (choice_of choice.now) from.now.held plan.now.held) }
    ensures still { OnOk result (first_moved from.now.held (goal_or plan.now.held choice.now.goal) ≡ None) }
    ensures refused { IfErr result (StopsBy (first_moved from.now.held (goal_or plan.now.held choice.now.goal))) }
{
    match &choice.goal {
        Some(goal) => {
            let to = Network::of(alloc, from.wired(), goal)?;
            next_tables(alloc, &choice.by, from, &to)
        }
        None => next_tables(alloc, &choice.by, from, plan),
    }
}

/// Returns `fault`, the reason why no step is made, as a fault of the run with the held tables at the index `input`.
fn fault_of_step(input: usize, fault: &StepFault) -> Fault
    ensures { result ≡ fault_of_step input fault.now }
{
    match fault {
        StepFault::Moves(lid) => Fault::Text {
            input,
            fault: TextFault::Moves(*lid),
        },
        StepFault::Memory => Fault::Memory,
    }
}
