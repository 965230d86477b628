//! The edges that positions take by their choices.
ghost use Rattle.std.specs.Prelude.{◌≡◌, IfOk, slice_get, slice_index};
ghost use Rattle.port_graph.specs.Heads.{edges_at};
ghost use Rattle.balanced_choices.specs.EdgesTaken.{edges_taken};
ghost use Rattle.balanced_choices.specs.Ways.{edge_taken};

use port_graph::{Adjacency, Edge};
use std::alloc::{AllocError, Global};

/// Returns the edge that each position takes by its choice in `choices`, or `None` if it has no such candidate.
pub(crate) fn edges_taken(
    alloc: Global,
    ways: &Adjacency,
    choices: &[u8],
) -> Result<Vec<Option<Edge>>, AllocError>
    ensures { IfOk result (λ taken. taken.items ≡ edges_taken ways.now choices.now) }
{
    let mut taken = Vec::with_capacity(alloc, ways.len())?;
    for position in 0..ways.len() {
        taken.push(edge_taken(ways, choices, position))?;
    }
    Ok(taken)
}

/// Returns the edge that `position` takes by its choice in `choices`, or `None` if it has no such candidate.
pub(crate) fn edge_taken(ways: &Adjacency, choices: &[u8], position: usize) -> Option<Edge>
    ensures { result ≡ edge_taken ways.now choices.now position }
{
    edge_with(ways, position, choice_at(choices, position))
}

/// Returns the candidate of `position` with the number `number`, or `None` if there is no such candidate.
pub(crate) fn edge_with(ways: &Adjacency, position: usize, number: usize) -> Option<Edge>
    ensures { result ≡ slice_get (edges_at ways.now position) number }
{
    match ways.at(position).get(number) {
        Some(edge) => Some(*edge),
        None => None,
    }
}

/// Returns the choice of `position`, or 0 if `choices` has none for it.
fn choice_at(choices: &[u8], position: usize) -> usize
    ensures { result ≡ slice_index choices.now position }
{
    match choices.get(position) {
        Some(choice) => usize::from(*choice),
        None => 0,
    }
}
