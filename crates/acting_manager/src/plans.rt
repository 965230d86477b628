//! Whether two plans are the same.
ghost use Rattle.std.specs.Prelude.{◌≡◌, ◌==◌};
ghost use Rattle.std.specs.Cmp.Lexicographic.{pointwise};
ghost use Rattle.acting_manager.specs.Planned.{are_same_lids, are_same_tables, compared, comparison_of};
ghost use Rattle.acting_manager.specs.Planned.{is_same_lid, is_same_plan, is_same_table, share_lids, share_tables};

use lft_blocks::{Plan, Table};
use sm_policy::Comparison;
use smp_bytes::Lid;
use subnet_view::EndPort;

/// Returns how `plan`, if there is one, compares to `kept`, the plan that was written last.
pub(crate) fn comparison_of(kept: &Option<Plan>, plan: &Option<Plan>) -> Comparison
    ensures { result ≡ comparison_of kept.now plan.now }
{
    match plan {
        None => Comparison::NoPlan,
        Some(plan) => compared(kept, plan),
    }
}

/// Returns how `plan` compares to `kept`, the plan that was written last, if one was.
fn compared(kept: &Option<Plan>, plan: &Plan) -> Comparison
    ensures { result ≡ compared kept.now plan.now }
{
    match kept {
        None => Comparison::Differs,
        Some(kept) => {
            if is_same_plan(plan, kept) {
                Comparison::Same
            } else {
                Comparison::Differs
            }
        }
    }
}

/// Returns whether the plans, which must be of one LMC, are the same.
fn is_same_plan(one: &Plan, other: &Plan) -> bool
    ensures { result ≡ is_same_plan one.now other.now }
{
    are_same_lids(one.lids().given(), other.lids().given())
        && are_same_tables(one.tables(), other.tables())
}

/// Returns whether both lists have the same end ports with the same LIDs, in the same order.
fn are_same_lids(one: &[(EndPort, Lid)], other: &[(EndPort, Lid)]) -> bool
    ensures { result ≡ are_same_lids one.now other.now }
{
    one.len() == other.len() && share_lids(one, other)
}

/// Returns whether each of `one` is that of `other` at the same index, as far as both go.
fn share_lids(one: &[(EndPort, Lid)], other: &[(EndPort, Lid)]) -> bool
    ensures { result ≡ share_lids one.now other.now }
{
    one.iter()
        .zip(other.iter())
        .all(|(one, other)| is_same_lid(one, other))
}

/// Returns whether both are the same end port with the same LID.
fn is_same_lid(one: &(EndPort, Lid), other: &(EndPort, Lid)) -> bool
    ensures { result ≡ is_same_lid one.now other.now }
{
    one.0.node == other.0.node && one.0.port == other.0.port && one.1 == other.1
}

/// Returns whether both lists have the same tables, in the same order.
fn are_same_tables(one: &[Table], other: &[Table]) -> bool
    ensures { result ≡ are_same_tables one.now other.now }
{
    one.len() == other.len() && share_tables(one, other)
}

/// Returns whether each of `one` is that of `other` at the same index, as far as both go.
fn share_tables(one: &[Table], other: &[Table]) -> bool
    ensures { result ≡ share_tables one.now other.now }
{
    one.iter()
        .zip(other.iter())
        .all(|(one, other)| is_same_table(one, other))
}

/// Returns whether both are the table of the same switch with the same blocks.
fn is_same_table(one: &Table, other: &Table) -> bool
    ensures { result ≡ is_same_table one.now other.now }
{
    one.guid() == other.guid() && are_same_blocks(one.blocks(), other.blocks())
}

/// Returns whether both lists have the same blocks, in the same order.
fn are_same_blocks(one: &[[u8; 64]], other: &[[u8; 64]]) -> bool
    ensures { result ≡ pointwise (pointwise (◌==◌)) one.now other.now }
{
    one == other
}
