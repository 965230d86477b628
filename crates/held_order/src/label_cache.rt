//! The labels of switches, kept from LID to LID.
ghost use Rattle.std.specs.Prelude.{◌≡◌, ◌↔◌, IsTrue, OnOk};
ghost use Rattle.two_orders.specs.Labels.{labels_from};

use port_graph::Adjacency;
use std::alloc::{AllocError, Global};
use two_orders::{Orders, Sides, label_all};

/// The labels of switches, and the first labels from which they follow.
#[derive(Drop)]
pub(crate) struct Labelled {
    /// The first labels, from which the others follow.
    pub firsts: Vec<Option<Sides>>,
    /// The first labels, with the labels that follow from them.
    pub labels: Vec<Option<Sides>>,
}

impl Labelled {
    /// Creates the labels that follow if no switch has a first label.
    pub fn none(alloc: Global, edges: &Adjacency, orders: &Orders) -> Self
        ensures { result.labels.items ≡ labels_from edges.now orders.now result.firsts.items }
    {
        let firsts = Vec::new(alloc);
        let mut labels = Vec::new(alloc);
        label_all(&mut labels, edges, orders);
        Labelled { firsts, labels }
    }

    /// Replaces the labels by those that follow from `firsts`. The old labels must follow from the old first labels.
    /// Takes time linear in the number of switches if the first labels do not change, otherwise the time that
    /// `label_all` takes.
    pub fn relabel(
        &mut self,
        alloc: Global,
        edges: &Adjacency,
        orders: &Orders,
        firsts: Vec<Option<Sides>>,
    ) -> Result<(), AllocError>
        requires { self.old.labels.items ≡ labels_from edges.now orders.now self.old.firsts.items }
        ensures firsts { OnOk result (self.new.firsts.items ≡ firsts.items) }
        ensures labels { OnOk result (self.new.labels.items
            ≡ labels_from edges.now orders.now self.new.firsts.items) }
    {
        if are_same(&self.firsts, &firsts) {
            return Ok(());
        }
        let mut labels = Vec::from_slice(alloc, &firsts)?;
        label_all(&mut labels, edges, orders);
        self.firsts = firsts;
        self.labels = labels;
        Ok(())
    }
}

/// Returns whether `labels` and `others` are equal, in time linear in the labels before the first difference.
fn are_same(labels: &[Option<Sides>], others: &[Option<Sides>]) -> bool
    ensures { IsTrue result ↔ (labels.now ≡ others.now) }
{
    if labels.len() != others.len() {
        return false;
    }
    for (index, label) in labels.iter().enumerate() {
        if *label != others[index] {
            return false;
        }
    }
    true
}
