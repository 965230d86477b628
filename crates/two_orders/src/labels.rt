//! Labels of vertices. A label says, for each of two orders, whether a walk from the vertex to a target begins up or
//! down. Walks that follow labels go up and then down by both orders.
ghost use Rattle.std.specs.Prelude.{◌≡◌, slice_get};
ghost use Rattle.std.specs.List.{list_any};
ghost use Rattle.two_orders.specs.Labels.{all_labelled, gets_label, goes_on, is_open, is_side, label_at};
ghost use Rattle.two_orders.specs.Labels.{labelled, labels_from, leads, leads_on, may_follow};

use crate::orders::Orders;
use crate::trees::is_earlier;
use port_graph::{Adjacency, Edge};

/// How an edge leads by each of two orders: up to an earlier vertex, or down to a later vertex.
#[derive(Clone, Copy, Debug, PartialEq, Eq)]
pub struct Sides {
    /// Whether the edge leads up by the first order.
    pub first_up: bool,
    /// Whether the edge leads up by the second order.
    pub second_up: bool,
}

const BOTH_DOWN: Sides = Sides {
    first_up: false,
    second_up: false,
};

/// Gives labels to vertices that have none, in four rounds. The labels are, in this order: down by both orders, up by
/// the first alone, up by the second alone, and up by both. In a round, a vertex gets the label if one of its edges
/// leads on by the label (`leads_on`). Looks at most four times at each vertex that the second order lists, and at its
/// edges.
pub fn label_all(labels: &mut Vec<Option<Sides>>, edges: &Adjacency, orders: &Orders)
    ensures { labels.new.items ≡ labels_from edges.now orders.now labels.old.items }
{
    label_each(labels, edges, orders, BOTH_DOWN, orders.falling());
    label_each(
        labels,
        edges,
        orders,
        to_sides(true, false),
        orders.falling(),
    );
    label_each(
        labels,
        edges,
        orders,
        to_sides(false, true),
        orders.rising(),
    );
    label_each(labels, edges, orders, to_sides(true, true), orders.rising());
}

/// Returns the sides of an edge: whether it leads up by the first order, and whether by the second.
fn to_sides(first_up: bool, second_up: bool) -> Sides
    ensures { result ≡ record { first_up = first_up; second_up = second_up } }
{
    Sides {
        first_up,
        second_up,
    }
}

/// Gives each of `vertices` in turn the label `sides`, if it has none and one of its edges leads on by `sides`.
fn label_each(
    labels: &mut Vec<Option<Sides>>,
    edges: &Adjacency,
    orders: &Orders,
    sides: Sides,
    vertices: &[usize],
)
    ensures { labels.new.items ≡ all_labelled edges.now orders.now sides labels.old.items vertices.now }
{
    for vertex in vertices {
        label(labels, edges, orders, sides, *vertex);
    }
}

/// Gives `vertex` the label `sides`, if `vertex` has no label and one of its edges leads on by `sides` (`leads_on`).
fn label(
    labels: &mut Vec<Option<Sides>>,
    edges: &Adjacency,
    orders: &Orders,
    sides: Sides,
    vertex: usize,
)
    ensures { labels.new.items ≡ labelled edges.now orders.now sides labels.old.items vertex }
{
    if gets_label(labels, edges, orders, sides, vertex) {
        labels[vertex] = Some(sides);
    }
}

/// Returns whether `vertex` exists, has no label, and has an edge that leads on by `sides`.
fn gets_label(
    labels: &[Option<Sides>],
    edges: &Adjacency,
    orders: &Orders,
    sides: Sides,
    vertex: usize,
) -> bool
    ensures { result ≡ gets_label edges.now orders.now sides labels.now vertex }
{
    is_open(labels, vertex) && some_leads_on(edges.at(vertex), orders, labels, sides, vertex)
}

/// Returns whether any of `edges` leads on by `sides`. `edges` are the edges of `vertex`.
fn some_leads_on(
    edges: &[Edge],
    orders: &Orders,
    labels: &[Option<Sides>],
    sides: Sides,
    vertex: usize,
) -> bool
    ensures { result ≡ list_any (λ e. leads_on orders.now labels.now sides vertex e.to) edges.now }
{
    edges
        .iter()
        .any(|edge| leads_on(orders, labels, sides, vertex, edge.to))
}

/// Returns whether the vertex at `index` exists and has no label.
fn is_open(labels: &[Option<Sides>], index: usize) -> bool
    ensures { result ≡ is_open (slice_get labels.now index) }
{
    matches!(labels.get(index), Some(None))
}

/// Returns whether an edge from `from` to `to` leads up or down as `sides` says, and a walk that takes the edge may go
/// on by the label of `to`.
pub fn leads_on(
    orders: &Orders,
    labels: &[Option<Sides>],
    sides: Sides,
    from: usize,
    to: usize,
) -> bool
    ensures { result ≡ leads_on orders.now labels.now sides from to }
{
    // Looks at the label first: in the early rounds most vertices have none.
    goes_on(sides, label_at(labels, to)) && leads(orders, sides, from, to)
}

/// Returns whether an edge from `from` to `to` leads up or down by each of the two orders as `sides` says.
fn leads(orders: &Orders, sides: Sides, from: usize, to: usize) -> bool
    ensures { result ≡ leads orders.now sides from to }
{
    is_side(orders.first(), sides.first_up, from, to)
        && is_side(orders.second(), sides.second_up, from, to)
}

/// Returns whether an edge from `from` to `to` leads to an earlier position (if `up`) or to a later one (if not).
fn is_side(positions: &[usize], up: bool, from: usize, to: usize) -> bool
    ensures { result ≡ is_side positions.now up from to }
{
    if up {
        is_earlier(positions, to, from)
    } else {
        is_earlier(positions, from, to)
    }
}

/// Returns whether a walk whose last edge led as `before` says may go on from a vertex with the label `label`.
fn goes_on(before: Sides, label: Option<Sides>) -> bool
    ensures { result ≡ goes_on before label }
{
    match label {
        Some(after) => may_follow(before, after),
        None => false,
    }
}

/// Returns whether a walk whose last edge led as `before` says may go on by an edge that leads as `after` says.
fn may_follow(before: Sides, after: Sides) -> bool
    ensures { result ≡ may_follow before after }
{
    (!after.first_up || before.first_up) && (!after.second_up || before.second_up)
}

/// Returns the label of the vertex at `index`, or `None` if the vertex has no label or does not exist.
pub fn label_at(labels: &[Option<Sides>], index: usize) -> Option<Sides>
    ensures { result ≡ label_at labels.now index }
{
    labels.get(index).copied().unwrap_or(None)
}
