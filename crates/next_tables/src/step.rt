//! The tables to write next.
ghost use Rattle.std.specs.Prelude.{◌≡◌, IfOk};
ghost use Rattle.fact_store.specs.View.{cells_of};
ghost use Rattle.smp_bytes.specs.Judges.{JudgesButFor};
ghost use Rattle.next_tables.specs.NextTables.{first_moved, is_memory, moves, next_tables, step_fault, value_of};

use crate::assembly::{most_blocks, tables_with};
use crate::entries_by_lid::columns;
use crate::step_fault::StepFault;
use crate::step_rule::StepRule;
use held_tables::{Held, HeldLid};
use packet_walks::Network;
use smp_bytes::Lid;
use std::alloc::{AllocError, Global};

/// Returns the tables to write next by `rule`, from the tables of `held` towards those of `plan`. `held` and `plan`
/// must have the same facts. The returned tables have the plan's LIDs and, for each usable switch, the greater of the
/// switch's tops in `held` and `plan`, and the switch's next entries up to the block of that top. Returns `Moves`
/// with the first LID that moves, if one does. Otherwise returns `Memory` if memory is refused.
pub fn next_tables(
    alloc: Global,
    rule: &StepRule,
    held: &Network,
    plan: &Network,
) -> Result<Held, StepFault>
    requires facts { plan.now.facts ≡ held.now.facts }
    ensures judged { JudgesButFor is_memory result (step_fault (first_moved held.now.held plan.now.held)) }
    ensures tables { IfOk result (λ next.
        next ≡ next_tables (cells_of held.now.facts) (value_of rule.now) held.now.held plan.now.held) }
{
    match first_moved(held, plan) {
        Some(lid) => Err(StepFault::Moves(lid)),
        None => Ok(tables(alloc, rule, held, plan)?),
    }
}

/// Returns the first LID that the plan gives to an end port and the held tables to another, or `None`.
fn first_moved(held: &Network, plan: &Network) -> Option<Lid>
    ensures { result ≡ first_moved held.now.held plan.now.held }
{
    plan.held()
        .lids()
        .iter()
        .find(|line| moves(held, line))
        .map(|line| line.lid)
}

/// Returns whether an end port other than that of `line` holds the LID of `line` in the held tables.
fn moves(held: &Network, line: &HeldLid) -> bool
    ensures { result ≡ moves held.now.held line.now }
{
    !held.is_sole_owner(line)
}

/// Returns the tables to write next by `rule`, whether or not a LID moves.
fn tables(
    alloc: Global,
    rule: &StepRule,
    held: &Network,
    plan: &Network,
) -> Result<Held, AllocError>
    requires facts { plan.now.facts ≡ held.now.facts }
    ensures { IfOk result (λ next.
        next ≡ next_tables (cells_of held.now.facts) (value_of rule.now) held.now.held plan.now.held) }
{
    let columns = columns(alloc, rule, held, plan, most_blocks(held, plan))?;
    tables_with(alloc, held, plan, &columns)
}
