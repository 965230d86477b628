//! The order in which candidates are tried.
ghost use Rattle.std.specs.Prelude.{◌≡◌, ◌<◌, ◌+◌, ◌++◌, All, IfOk, OnOk, filter, length, not, reverse};
ghost use Rattle.spread_labels.specs.Orders.{numbers_from};
ghost use Rattle.balanced_choices.specs.BalancedChoices.{is_below, near_first};

use port_graph::Adjacency;
use std::alloc::{AllocError, Global};

/// Returns all positions in the order in which they choose. If `ways` are the candidates towards one target, each
/// position comes after the positions that its candidates lead to.
pub(crate) fn near_first(alloc: Global, ways: &Adjacency) -> Result<Vec<usize>, AllocError>
    ensures order { IfOk result (λ order. order.items ≡ near_first ways.now) }
    ensures positions { IfOk result (λ order. All (λ p. p < length ways.now) order.items) }
{
    let mut order = Vec::with_capacity(alloc, ways.len())?;
    push_above(ways, &mut order)?;
    push_below(ways, &mut order)?;
    Ok(order)
}

/// Appends to `order` the positions that have no candidate that leads up, from the last to the first.
fn push_above(ways: &Adjacency, order: &mut Vec<usize>) -> Result<(), AllocError>
    ensures { OnOk result (order.new.items
        ≡ order.old.items ++ filter (λ p. not (is_below ways.now p)) (reverse (numbers_from 0 (length ways.now)))) }
{
    for left in 0..ways.len() {
        let position = ways.len() - 1 - left;
        if !is_below(ways, position) {
            order.push(position)?;
        }
    }
    Ok(())
}

/// Appends to `order` the positions that have a candidate that leads up, from the first to the last.
fn push_below(ways: &Adjacency, order: &mut Vec<usize>) -> Result<(), AllocError>
    ensures { OnOk result (order.new.items
        ≡ order.old.items ++ filter (is_below ways.now) (numbers_from 0 (length ways.now))) }
{
    for position in 0..ways.len() {
        if is_below(ways, position) {
            order.push(position)?;
        }
    }
    Ok(())
}

/// Returns whether any candidate of `position` leads up.
fn is_below(ways: &Adjacency, position: usize) -> bool
    ensures { result ≡ is_below ways.now position }
{
    ways.at(position).iter().any(|edge| edge.to < position)
}
