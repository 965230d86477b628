//! The digits that first choices go by.
ghost use Rattle.std.specs.Prelude.{◌≡◌, ◌≤◌};
ghost use Rattle.balanced_choices.specs.BalancedChoices.{digit_at, digits_from, leads_higher, weight_among};

use port_graph::Edge;

/// The level of a position, and the weight of the digit that its first choices go by where packets can go to a higher
/// level.
#[derive(Clone, Copy, Debug, PartialEq, Eq)]
pub struct LevelDigit {
    pub level: usize,
    /// The digit weight of the level.
    pub weight: usize,
}

/// Returns the level and the digit weight of `position`, or level 0 and weight 1 if there is no such position.
fn digit_at(digits: &[LevelDigit], position: usize) -> LevelDigit
    ensures { result ≡ digit_at digits.now position }
{
    match digits.get(position) {
        Some(digit) => *digit,
        None => LevelDigit {
            level: 0,
            weight: 1,
        },
    }
}

/// Returns whether any of `edges`, the candidates of `position`, leads to a position of a higher level.
fn leads_higher(digits: &[LevelDigit], edges: &[Edge], position: usize) -> bool
    ensures { result ≡ leads_higher digits.now edges.now position }
{
    let level = digit_at(digits, position).level;
    edges
        .iter()
        .any(|edge| level < digit_at(digits, edge.to).level)
}

/// Returns the weight of the digit of `position`: its digit weight if any of `edges` leads to a higher level, else 1.
pub(crate) fn weight_among(digits: &[LevelDigit], edges: &[Edge], position: usize) -> usize
    ensures { result ≡ weight_among digits.now edges.now position }
{
    if leads_higher(digits, edges, position) {
        digit_at(digits, position).weight
    } else {
        1
    }
}

/// Returns `number` without the digits below the digit whose weight is `weight`, or `number` itself if `weight` is 0.
pub(crate) fn digits_from(weight: usize, number: usize) -> usize
    ensures digits { result ≡ digits_from weight number }
    ensures less { result ≤ number }
{
    if weight == 0 { number } else { number / weight }
}
