ghost use Rattle.std.specs.Prelude.{◌≡◌, IfOk};
ghost use Rattle.subnet_view.specs.GraphLaws.{IsGraph};
ghost use Rattle.spread_routes.specs.SwitchOrder.{is_balanced, keys_as_named, order_value_of};

use smp_bytes::Guid;
use spread_labels::VertexKey;
use std::alloc::{AllocError, Global};
use subnet_view::SwitchGraph;

/// How the order of the switches is grown, and whether loads are balanced.
#[derive(Drop)]
pub enum SwitchOrder {
    /// By the distances of the switches from some switches, the roots.
    FromRoots {
        /// The roots. In a component that has no root, mean distances from the leaf switches count instead. GUIDs that
        /// are not switches are ignored.
        roots: Vec<Guid>,
    },
    /// By a list that names switches.
    AsNamed {
        /// The named switches, earlier keys first. Switches that are not named have later keys, in ascending order of
        /// GUID. GUIDs that are not switches are ignored.
        switches: Vec<Guid>,
    },
    /// By a list that names switches, with loads balanced.
    BalancedAs {
        /// The switches, as in `AsNamed`.
        switches: Vec<Guid>,
    },
    /// By the least trial load, with loads balanced. If the trial loads of the order that grows by remoteness are even,
    /// that order is taken. Otherwise the order with the least trial load is taken: of that order and the orders by
    /// depth from up to eight switches that are far from each other, forwards and backwards. If trial loads are equal,
    /// the first counts.
    LeastLoaded,
}

impl SwitchOrder {
    /// Returns whether loads are balanced.
    pub(crate) fn is_balanced(&self) -> bool
        ensures { result ≡ is_balanced (order_value_of self.now) }
    {
        matches!(
            self,
            SwitchOrder::BalancedAs { .. } | SwitchOrder::LeastLoaded
        )
    }

    /// Returns a copy. Takes time linear in the number of GUIDs. Returns an error if memory runs out.
    pub fn try_clone(&self, alloc: Global) -> Result<Self, AllocError>
        ensures { IfOk result (λ copy. order_value_of copy ≡ order_value_of self.now) }
    {
        match self {
            SwitchOrder::FromRoots { roots } => Ok(SwitchOrder::FromRoots {
                roots: Vec::from_slice(alloc, roots)?,
            }),
            SwitchOrder::AsNamed { switches } => Ok(SwitchOrder::AsNamed {
                switches: Vec::from_slice(alloc, switches)?,
            }),
            SwitchOrder::BalancedAs { switches } => Ok(SwitchOrder::BalancedAs {
                switches: Vec::from_slice(alloc, switches)?,
            }),
            SwitchOrder::LeastLoaded => Ok(SwitchOrder::LeastLoaded),
        }
    }
}

/// Returns the keys of the switches of `graph` according to the list `switches`. The list may name only some of them.
/// Does a binary search among the switches of the graph for each switch of the list.
pub(crate) fn keys_as_named(
    alloc: Global,
    graph: &SwitchGraph,
    switches: &[Guid],
) -> Result<Vec<VertexKey>, AllocError>
    requires { IsGraph graph.now }
    ensures { IfOk result (λ keys. keys.items ≡ keys_as_named graph.now switches.now) }
{
    let mut keys = vec![in alloc; key_at(switches.len()); graph.switches().len()]?;
    let mut number = switches.len();
    while number > 0 {
        number -= 1;
        if let Some(index) = graph.index_of(switches[number]) {
            keys[index] = key_at(number);
        }
    }
    Ok(keys)
}

/// Returns the key of a switch that has `number` switches before it in a list.
fn key_at(number: usize) -> VertexKey
    ensures { result ≡ record { distance_class = 0; distance = number } }
{
    VertexKey {
        distance_class: 0,
        distance: number,
    }
}
