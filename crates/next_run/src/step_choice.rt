//! The choice of a step: how it chooses entries, and which tables it goes towards.
ghost use Rattle.std.specs.Prelude.{◌≡◌, IfOk, false, length};
ghost use Rattle.std.specs.Option.{option_map};
ghost use Rattle.fact_store.specs.View.{cells_of};
ghost use Rattle.lft_blocks.specs.Rule.{RuleValue};
ghost use Rattle.plan_order.specs.PlanOrder.{positions_by};
ghost use Rattle.subnet_view.specs.Reading.{switches};
ghost use Rattle.held_order.specs.Between.{goal_of};
ghost use Rattle.next_run.specs.LastOrder.{near_positions};
ghost use Rattle.next_run.specs.NextRun.{IsChoice, IsGoalFrom, choice_of};
ghost use Rattle.next_run.specs.StepOrderText.{items_of};

use crate::planned_step::PlannedStep;
use crate::step_order_text::switches_by;
use fact_store::Refused;
use held_order::{StepGoal, are_right, between};
use held_tables::Held;
use next_tables::StepRule;
use packet_walks::Network;
use plan_order::positions_named;
use smp_bytes::Guid;
use std::alloc::{AllocError, Global};

/// How a step chooses entries, and which tables it goes towards.
#[derive(Drop)]
pub(crate) struct StepChoice {
    /// The rule by which a switch takes its next entry.
    pub by: StepRule,
    /// The goal in between towards which the step goes, or `None` if the step goes towards the plan's tables.
    pub goal: Option<Held>,
    /// The usable switches in the order that the step goes by. `None` if the step goes by the order of the plan's
    /// switches, or by settled entries.
    pub order: Option<Vec<Guid>>,
}

/// Returns how `step` chooses entries.
///
/// The step goes by the order of its positions if the held tables are right by it. Otherwise, if these tables imply an
/// order, the step goes by that order, towards the goal in between. Of several implied orders, the step takes the one
/// nearest to the order `last`, or to that of its positions if `last` is `None`. If the tables imply no order, the step
/// goes by settled entries.
pub(crate) fn step_choice(
    alloc: Global,
    step: &PlannedStep,
    last: &Option<Vec<Guid>>,
) -> Result<StepChoice, Refused>
    ensures { (rule : RuleValue) → step.now.positions.now ≡ positions_by rule (cells_of step.now.from.now.facts)
        → IfOk result (λ choice. IsChoice rule (items_of last.now) step.now.from.now.facts step.now.from.now.held
        step.now.plan.now.held (choice_of choice)) }
{
    if are_right(alloc, step.from, step.positions)? {
        return Ok(StepChoice {
            by: StepRule::ByOrder(Vec::from_slice(alloc, step.positions)?),
            goal: None,
            order: None,
        });
    }
    match goal_near(alloc, step, last)? {
        Some(StepGoal { positions, tables }) => {
            let switches = switches_by(alloc, step.from, &positions)?;
            Ok(StepChoice {
                by: StepRule::ByOrder(positions),
                goal: Some(tables),
                order: Some(switches),
            })
        }
        None => Ok(StepChoice {
            by: StepRule::SettledFirst,
            goal: None,
            order: None,
        }),
    }
}

/// Returns the goal in between of `step` by an order that the held tables imply, if they imply any: the one nearest to
/// the order `last`, or to that of the step's positions if `last` is `None`.
fn goal_near(
    alloc: Global,
    step: &PlannedStep,
    last: &Option<Vec<Guid>>,
) -> Result<Option<StepGoal>, Refused>
    ensures { IfOk result (λ found. IsGoalFrom false (cells_of step.now.from.now.facts)
        step.now.from.now.held step.now.plan.now.held step.now.positions.now
        (near_positions step.now.positions.now (cells_of step.now.from.now.facts) (items_of last.now))
        (option_map goal_of found)) }
{
    let near = near_positions(alloc, step.positions, step.from, last)?;
    between(
        alloc,
        step.graph,
        step.from,
        step.plan,
        step.positions,
        &near,
    )
}

/// Returns the position of each usable switch, in ascending order of GUID, in the order `last`, or `positions` if
/// `last` is `None`. A switch that `last` does not have gets the length of `last`.
fn near_positions(
    alloc: Global,
    positions: &[usize],
    network: &Network,
    last: &Option<Vec<Guid>>,
) -> Result<Vec<usize>, AllocError>
    requires { length positions.now ≡ length (switches (cells_of network.now.facts)) }
    ensures near { IfOk result (λ near. near.items
        ≡ near_positions positions.now (cells_of network.now.facts) (items_of last.now)) }
    ensures all { IfOk result (λ near. length near.items ≡ length (switches (cells_of network.now.facts))) }
{
    match last {
        Some(switches) => positions_named(alloc, switches, network.subnet().switches()),
        None => Vec::from_slice(alloc, positions),
    }
}
