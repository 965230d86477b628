//! The positions of switches by rank.
ghost use Rattle.std.specs.Prelude.{◌≡◌, IfOk, count_by, map};
ghost use Rattle.subnet_view.specs.Graph.{guids_of};
ghost use Rattle.plan_order.specs.PlanOrder.{comes_before, rank_position, ranked};

use smp_bytes::Guid;
use std::alloc::{AllocError, Global};
use updown_routes::Graph;

/// Returns, for each switch in ascending order of GUID, how many switches come before it by rank and then by GUID.
/// Besides looking up the ranks, takes time quadratic in the number of switches.
pub(crate) fn rank_positions(alloc: Global, graph: &Graph) -> Result<Vec<usize>, AllocError>
    ensures { IfOk result (λ positions.
        positions.items ≡ map (rank_position graph.now) (guids_of graph.now)) }
{
    let ranked = ranked(alloc, graph)?;
    counts_before(alloc, &ranked)
}

/// Counts, for each switch of `ranked`, the switches of `ranked` that come before that one.
fn counts_before(alloc: Global, ranked: &[(usize, Guid)]) -> Result<Vec<usize>, AllocError>
    ensures { IfOk result (λ counts. counts.items
        ≡ map (λ own. count_by (λ other. comes_before other own) ranked.now) ranked.now) }
{
    ranked
        .iter()
        .map(|own| count_before(ranked, own))
        .collect(alloc)
}

/// Returns the pair of rank and GUID for each switch, in ascending order of GUID. A missing rank counts as 0.
fn ranked(alloc: Global, graph: &Graph) -> Result<Vec<(usize, Guid)>, AllocError>
    ensures { IfOk result (λ found. found.items ≡ map (ranked graph.now) (guids_of graph.now)) }
{
    graph
        .switches()
        .iter()
        .map(|switch| (graph.rank(*switch).unwrap_or(0), *switch))
        .collect(alloc)
}

/// Counts the switches of `ranked` that come before the switch `own`.
fn count_before(ranked: &[(usize, Guid)], own: &(usize, Guid)) -> usize
    ensures { result ≡ count_by (λ other. comes_before other own.now) ranked.now }
{
    ranked
        .iter()
        .filter(|other| comes_before(other, own))
        .count()
}

/// Returns whether the switch `other` comes before the switch `own`, by rank and then by GUID.
fn comes_before(other: &(usize, Guid), own: &(usize, Guid)) -> bool
    ensures { result ≡ comes_before other.now own.now }
{
    other.0 < own.0 || (other.0 == own.0 && other.1 < own.1)
}
