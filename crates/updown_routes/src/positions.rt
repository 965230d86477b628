ghost use Rattle.std.specs.Prelude.{◌≡◌, IfOk, length, map};
ghost use Rattle.std.specs.Slice.Sort.{NamesEachOnce};
ghost use Rattle.updown_routes.specs.Order.{ranked, IsOrder, ArePositions};

use std::alloc::{AllocError, Global};

/// Returns the indices of `ranks`, in ascending order of rank and then of index. A missing rank counts as 0.
pub(crate) fn order(alloc: Global, ranks: &[Option<usize>]) -> Result<Vec<usize>, AllocError>
    ensures { IfOk result (λ order. IsOrder ranks.now order.items) }
{
    let mut ranked = ranked(alloc, ranks)?;
    ranked.sort_unstable();
    indices(alloc, &ranked)
}

/// Returns the indices in `ranked`, without the ranks.
fn indices(alloc: Global, ranked: &[(usize, usize)]) -> Result<Vec<usize>, AllocError>
    ensures { IfOk result (λ indices. indices.items ≡ map (λ x. x.1) ranked.now) }
{
    ranked.iter().map(|(_, index)| *index).collect(alloc)
}

/// Returns the pair of rank and index for each index of `ranks`, in ascending order. A missing rank counts as 0.
fn ranked(alloc: Global, ranks: &[Option<usize>]) -> Result<Vec<(usize, usize)>, AllocError>
    ensures { IfOk result (λ pairs. pairs.items ≡ ranked ranks.now) }
{
    ranks
        .iter()
        .enumerate()
        .map(|(index, rank)| (rank.unwrap_or(0), index))
        .collect(alloc)
}

/// Returns the position of each index in `order`.
pub(crate) fn positions(alloc: Global, order: &[usize]) -> Result<Vec<usize>, AllocError>
    requires { NamesEachOnce (length order.now) order.now }
    ensures { IfOk result (λ positions. ArePositions order.now positions.items) }
{
    let mut positions = vec![in alloc; 0; order.len()]?;
    for (position, index) in order.iter().enumerate() {
        positions[*index] = position;
    }
    Ok(positions)
}
