//! Tables between two orders.
ghost use Rattle.std.specs.Prelude.{◌≡◌, ◌≤◌, ◌*◌, IfOk, OnOk, map};
ghost use Rattle.std.specs.List.{enumerate_from, find, range_with_len, zip};
ghost use Rattle.fact_store.specs.View.{cells_of};
ghost use Rattle.held_order.specs.TablesBetween.{arrives, column_between, entries_towards, entry_between, entry_to};
ghost use Rattle.held_order.specs.TablesBetween.{first_label, fits, port_of, tables_between};
ghost use Rattle.two_orders.specs.Labels.{labels_from, leads_on};

use crate::label_cache::Labelled;
use held_tables::Held;
use next_tables::{first_owner, most_blocks, no_entries, tables_with};
use packet_walks::{LidCursor, Network, NextHop, SwitchStep, is_at};
use port_graph::{Adjacency, Edge};
use smp_bytes::{Lid, NO_ENTRY};
use std::alloc::{AllocError, Global};
use subnet_view::EndPort;
use two_orders::{Orders, Sides, label_at, leads_on};

/// Returns the tables between two orders, with the plan's LIDs. For a LID, a switch has the plan's entry if its hop
/// ends at the first end port of the LID in the plan. Another switch with a label has its held entry, the plan's entry,
/// or the port of its first edge, the first of these that leads on, and otherwise no entry (255).
pub(crate) fn tables_between(
    alloc: Global,
    edges: &Adjacency,
    orders: &Orders,
    held: &Network,
    plan: &Network,
) -> Result<Held, AllocError>
    requires facts { plan.now.facts ≡ held.now.facts }
    ensures { IfOk result (λ goal. goal
        ≡ tables_between (cells_of held.now.facts) edges.now orders.now held.now.held plan.now.held) }
{
    let columns = columns(alloc, edges, orders, held, plan, most_blocks(held, plan))?;
    tables_with(alloc, held, plan, &columns)
}

/// Returns the entries between the two orders of all usable switches, for each LID of the first `count` blocks.
fn columns(
    alloc: Global,
    edges: &Adjacency,
    orders: &Orders,
    held: &Network,
    plan: &Network,
    count: usize,
) -> Result<Vec<Vec<u8>>, AllocError>
    requires facts { plan.now.facts ≡ held.now.facts }
    requires few { count ≤ 1024 }
    ensures { IfOk result (λ columns. map (λ column. column.items) columns.items
        ≡ map (column_between (cells_of held.now.facts) edges.now orders.now held.now.held plan.now.held)
        (range_with_len 0 (64 * count))) }
{
    let mut columns = Vec::with_capacity(alloc, 64 * count)?;
    let mut labelled = Labelled::none(alloc, edges, orders);
    let mut held_at = LidCursor::of(alloc, held)?;
    let mut plan_at = LidCursor::of(alloc, plan)?;
    for number in 0..64 * count {
        let lid = Lid::new(number as u16);
        held_at.go_to(alloc, lid)?;
        plan_at.go_to(alloc, lid)?;
        let column = column(alloc, edges, orders, &mut labelled, &held_at, &plan_at)?;
        columns.push(column)?;
    }
    Ok(columns)
}

/// Returns the entry between the two orders of each usable switch, for the LID that both cursors are at. If the LID has
/// an owner in the plan, `labelled` then has the labels for it.
fn column(
    alloc: Global,
    edges: &Adjacency,
    orders: &Orders,
    labelled: &mut Labelled,
    held: &LidCursor,
    plan: &LidCursor,
) -> Result<Vec<u8>, AllocError>
    requires facts { plan.now.seen.facts ≡ held.now.seen.facts }
    requires lid { plan.now.lid ≡ held.now.lid }
    requires labels { labelled.old.labels.items ≡ labels_from edges.now orders.now labelled.old.firsts.items }
    ensures column { IfOk result (λ column. column.items ≡ column_between (cells_of held.now.seen.facts) edges.now
        orders.now held.now.seen.held plan.now.seen.held held.now.lid) }
    ensures labels { OnOk result (labelled.new.labels.items
        ≡ labels_from edges.now orders.now labelled.new.firsts.items) }
{
    let owners = plan.owners(alloc)?;
    let Some(port) = first_owner(&owners) else {
        return no_entries(alloc, held.network().switch_count());
    };
    let held_steps = held.switch_steps(alloc)?;
    let plan_steps = plan.switch_steps(alloc)?;
    entries_towards(
        alloc,
        &port,
        edges,
        orders,
        labelled,
        &held_steps,
        &plan_steps,
    )
}

/// Returns the entries of all switches towards `port`, by `orders` and the steps `held` and `plan`. Replaces the labels
/// in `labelled` by those towards `port`.
fn entries_towards(
    alloc: Global,
    port: &EndPort,
    edges: &Adjacency,
    orders: &Orders,
    labelled: &mut Labelled,
    held: &[SwitchStep],
    plan: &[SwitchStep],
) -> Result<Vec<u8>, AllocError>
    requires labels { labelled.old.labels.items ≡ labels_from edges.now orders.now labelled.old.firsts.items }
    ensures entries { IfOk result (λ entries. entries.items
        ≡ entries_towards port.now edges.now orders.now held.now plan.now) }
    ensures labels { OnOk result (labelled.new.labels.items
        ≡ labels_from edges.now orders.now labelled.new.firsts.items) }
{
    let firsts = first_labels(alloc, port, plan)?;
    labelled.relabel(alloc, edges, orders, firsts)?;
    entries_by(alloc, port, edges, orders, &labelled.labels, held, plan)
}

/// Returns each switch's first label: down by both orders if its hop under the plan ends at `port`, otherwise `None`.
fn first_labels(
    alloc: Global,
    port: &EndPort,
    plan: &[SwitchStep],
) -> Result<Vec<Option<Sides>>, AllocError>
    ensures { IfOk result (λ labels. labels.items ≡ map (first_label port.now) plan.now) }
{
    plan.iter()
        .map(|step| first_label(port, step))
        .collect(alloc)
}

/// Returns the first label of a switch: down by both orders if its hop in `plan` ends at `port`, otherwise `None`.
fn first_label(port: &EndPort, plan: &SwitchStep) -> Option<Sides>
    ensures { result ≡ first_label port.now plan.now }
{
    if arrives(port, &plan.hop) {
        Some(Sides {
            first_up: false,
            second_up: false,
        })
    } else {
        None
    }
}

/// Returns whether `hop` ends at `port`.
fn arrives(port: &EndPort, hop: &NextHop) -> bool
    ensures { result ≡ arrives port.now hop.now }
{
    match hop {
        NextHop::To(_) => false,
        NextHop::Ends(end) => is_at(port, &Some(*end)),
    }
}

/// Returns the entry of each switch towards `port`, by `labels` and `orders` and the steps `held` and `plan`.
fn entries_by(
    alloc: Global,
    port: &EndPort,
    edges: &Adjacency,
    orders: &Orders,
    labels: &[Option<Sides>],
    held: &[SwitchStep],
    plan: &[SwitchStep],
) -> Result<Vec<u8>, AllocError>
    ensures { IfOk result (λ entries. entries.items
        ≡ map (entry_between port.now edges.now orders.now labels.now) (enumerate_from 0 (zip held.now plan.now))) }
{
    held.iter()
        .zip(plan.iter())
        .enumerate()
        .map(|(index, (held, plan))| entry(port, edges, orders, labels, index, held, plan))
        .collect(alloc)
}

/// Returns the entry of the switch at `index`: the plan's if its hop ends at `port`, else that by its label, or 255.
fn entry(
    port: &EndPort,
    edges: &Adjacency,
    orders: &Orders,
    labels: &[Option<Sides>],
    index: usize,
    held: &SwitchStep,
    plan: &SwitchStep,
) -> u8
    ensures { result ≡ entry_between port.now edges.now orders.now labels.now (index, (held.now, plan.now)) }
{
    if arrives(port, &plan.hop) {
        return plan.entry;
    }
    match label_at(labels, index) {
        Some(sides) => entry_to(edges, orders, labels, sides, index, held, plan),
        None => NO_ENTRY,
    }
}

/// Returns the entry of the switch at `index` with the label `sides`: the held one, the plan's, or the port of its
/// first edge, the first of these that leads on, or else 255.
fn entry_to(
    edges: &Adjacency,
    orders: &Orders,
    labels: &[Option<Sides>],
    sides: Sides,
    index: usize,
    held: &SwitchStep,
    plan: &SwitchStep,
) -> u8
    ensures { result ≡ entry_to edges.now orders.now labels.now sides index (held.now, plan.now) }
{
    if fits(orders, labels, sides, index, &held.hop) {
        held.entry
    } else if fits(orders, labels, sides, index, &plan.hop) {
        plan.entry
    } else {
        first_port(edges.at(index), orders, labels, sides, index)
    }
}

/// Returns whether `hop` leads on to a switch from the one at `index`, which has the label `sides`.
fn fits(
    orders: &Orders,
    labels: &[Option<Sides>],
    sides: Sides,
    index: usize,
    hop: &NextHop,
) -> bool
    ensures { result ≡ fits orders.now labels.now sides index hop.now }
{
    match hop {
        NextHop::To(to) => leads_on(orders, labels, sides, index, *to),
        NextHop::Ends(_) => false,
    }
}

/// Returns the port of the first edge of the switch at `index` that leads on, or 255 if none does.
fn first_port(
    edges: &[Edge],
    orders: &Orders,
    labels: &[Option<Sides>],
    sides: Sides,
    index: usize,
) -> u8
    ensures { result ≡ port_of (find (λ e. leads_on orders.now labels.now sides index e.to) edges.now) }
{
    for edge in edges {
        if leads_on(orders, labels, sides, index, edge.to) {
            return edge.port.number();
        }
    }
    NO_ENTRY
}
