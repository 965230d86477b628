//! The traps that wait at switches.
ghost use Rattle.std.specs.Prelude.{◌≡◌, ◌<◌, length, nat_lt, OnOk, OnErr};
ghost use Rattle.fabric_sim.specs.Traps.{begun, next_trap, no_traps, trap_at, with_new_trap, without_trap};

use fabric_model::NodeId;
use std::alloc::{AllocError, Global};
use std::marker::Model;

/// The traps that wait at nodes until they are repressed. At most one trap waits at each node.
#[derive(Drop)]
pub(crate) struct Traps {
    /// For each node the TransactionID of the trap that waits there, or `None`. The list is empty while switches send
    /// no traps.
    waiting: Vec<Option<u64>>,
    /// The TransactionID of the last trap that began, or 0 if none began.
    last: u64,
}

impl Model for Traps {
    ghost use Rattle.fabric_sim.specs.Traps.{Traps as TrapsValue};

    ghost Value = { TrapsValue };

    ghost view = { λ t. record { waiting = t.waiting.items; last = t.last } };
}

impl Traps {
    /// Creates the traps of a fabric whose switches send no traps.
    pub(crate) fn none(alloc: Global) -> Traps
        ensures { result ≡ no_traps }
    {
        Traps {
            waiting: Vec::new(alloc),
            last: 0,
        }
    }

    /// Lets switches send traps, unless they do already, with a slot for one at each of `nodes` nodes.
    pub(crate) fn begin(&mut self, alloc: Global, nodes: usize) -> Result<(), AllocError>
        ensures ok { OnOk result (self.new ≡ begun self.old nodes) }
        ensures err { OnErr result (self.new ≡ self.old) }
    {
        if self.waiting.is_empty() {
            self.waiting = vec![in alloc; None; nodes]?;
        }
        Ok(())
    }

    /// Returns whether there is a slot for a trap at `node`: switches send traps, and the node exists.
    pub(crate) fn has_room(&self, node: NodeId) -> bool
        ensures { result ≡ nat_lt node (length self.now.waiting) }
    {
        node.number() < self.waiting.len()
    }

    /// Returns the TransactionID of the trap that waits at `node`, or `None` if no trap waits there.
    pub(crate) fn at(&self, node: NodeId) -> Option<u64>
        ensures { result ≡ trap_at self.now node }
    {
        self.waiting.get(node.number()).copied().flatten()
    }

    /// Returns the TransactionID of the next trap: one more than the last one, or 0 after 2^64 - 1.
    pub(crate) fn next(&self) -> u64
        ensures { result ≡ next_trap self.now }
    {
        self.last.wrapping_add(1)
    }

    /// Makes a new trap wait at `node`, in place of any that waits there.
    pub(crate) fn add(&mut self, node: NodeId)
        requires { node < length self.old.waiting }
        ensures { self.new ≡ with_new_trap self.old node }
    {
        let number = self.next();
        self.waiting[node.number()] = Some(number);
        self.last = number;
    }

    /// Ends the trap with the TransactionID `number`, if it waits at `node`.
    pub(crate) fn repress(&mut self, node: NodeId, number: u64)
        ensures { self.new ≡ without_trap self.old node number }
    {
        if self.at(node) == Some(number) {
            self.waiting[node.number()] = None;
        }
    }
}
