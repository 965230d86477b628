ghost use Rattle.std.specs.Prelude.{◌≡◌, ◌+◌, ◌<◌, None, length, replicate, slice_index_or, slice_set, IfOk};

use fabric_model::NodePort;
use smp_bytes::PortNum;
use std::alloc::{AllocError, Global};
use std::marker::Model;

/// For each port of a node, starting at port 0, the port at the other end of the cable in it.
#[derive(Drop)]
pub(crate) struct Peers {
    others: Vec<Option<NodePort>>,
}

impl Model for Peers {
    ghost use Rattle.std.specs.Prelude.{List, Option};
    ghost use Rattle.fabric_model.specs.declared.cable.NodePort.{NodePort};

    ghost Value = { List (Option NodePort) };

    ghost view = { λ p. p.others.items };
}

impl Peers {
    /// Creates the list for a node with the ports 1 to `ports`, without any cable.
    pub(crate) fn new(alloc: Global, ports: u8) -> Result<Peers, AllocError>
        ensures { IfOk result (λ peers. peers ≡ replicate (ports + 1) None) }
    {
        let others = vec![in alloc; None; usize::from(ports) + 1]?;
        Ok(Peers { others })
    }

    /// Returns the port at the other end of the cable in `port`, or `None` if no cable is in `port`.
    pub(crate) fn across(&self, port: PortNum) -> Option<NodePort>
        ensures { result ≡ slice_index_or self.now port None }
    {
        self.others
            .get(usize::from(port.number()))
            .copied()
            .flatten()
    }

    /// Sets `other` as the port at the other end of the cable in `port`; `None` stands for no cable.
    pub(crate) fn set(&mut self, port: PortNum, other: Option<NodePort>)
        requires { port < length self.old }
        ensures { self.new ≡ slice_set self.old port other }
    {
        self.others[usize::from(port.number())] = other;
    }
}
