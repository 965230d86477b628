//! Whether loads are even.
ghost use Rattle.std.specs.Prelude.{◌≡◌, IfOk, length, map};
ghost use Rattle.balanced_choices.specs.BalancedChoices.{are_even, mean, mean_load, sum_from};

use port_graph::Adjacency;
use spread_labels::greatest_of;

/// Returns whether the loads are even: none of `loads` exceeds the mean load of the channels of `graph` by more than an
/// eighth of the mean. The mean and the eighth are rounded down. If the sum of `loads` is over 2^64 - 1, it counts as
/// 2^64 - 1.
pub fn are_even(graph: &Adjacency, loads: &[usize]) -> bool
    ensures { result ≡ are_even graph.now loads.now }
{
    let mean = mean(sum(loads), count_edges(graph));
    greatest_of(loads).saturating_sub(mean) <= mean / 8
}

/// Returns the mean of `count` numbers with the sum `sum`, rounded down, or 0 if `count` is 0.
fn mean(sum: usize, count: usize) -> usize
    ensures { result ≡ mean sum count }
{
    if count == 0 { 0 } else { sum / count }
}

/// Returns the sum of `numbers`, but at most 2^64 - 1.
fn sum(numbers: &[usize]) -> usize
    ensures { result ≡ sum_from 0 numbers.now }
{
    let mut sum: usize = 0;
    for number in numbers {
        sum = sum.saturating_add(*number);
    }
    sum
}

/// Returns the number of edges of `graph`, but at most 2^64 - 1.
fn count_edges(graph: &Adjacency) -> usize
    ensures { result ≡ sum_from 0 (map length graph.now) }
{
    let mut count: usize = 0;
    for vertex in 0..graph.len() {
        count = count.saturating_add(graph.at(vertex).len());
    }
    count
}
