//! The multicast tree that a manager writes.
ghost use Rattle.std.specs.Prelude.{◌≡◌, IfOk};
ghost use Rattle.fact_store.specs.View.{cells_of};
ghost use Rattle.lft_blocks.specs.Rule.{value_of};
ghost use Rattle.multicast_tree.specs.Tree.{tree_of};
ghost use Rattle.plan_steps.specs.PlannedTree.{planned_tree};

use fact_store::Store;
use lft_blocks::{Planning, Rule};
use multicast_tree::{SwitchPorts, plan_tree};
use std::alloc::{AllocError, Global};
use subnet_view::{SwitchGraph, WiredGraph, Wires};

/// Returns the ports in the multicast tree of each usable switch of the view in `store`, in ascending order of GUID, for
/// the order of the planning's rule. Returns none if the planning writes no tree. Returns an error if memory runs out.
pub fn planned_tree(
    alloc: Global,
    store: &Store,
    planning: &Planning,
) -> Result<Vec<SwitchPorts>, AllocError>
    ensures { IfOk result (λ tree. tree.items ≡ planned_tree planning.now (cells_of store.now)) }
{
    if planning.multicast {
        tree_by(alloc, store, &planning.rule)
    } else {
        Ok(Vec::new(alloc))
    }
}

/// Returns the ports in the tree of each usable switch, for the order of `rule`.
fn tree_by(alloc: Global, store: &Store, rule: &Rule) -> Result<Vec<SwitchPorts>, AllocError>
    ensures { IfOk result (λ tree. tree.items ≡ tree_of (value_of rule.now) (cells_of store.now)) }
{
    let Ok(wires) = Wires::of(alloc, store) else {
        return Err(AllocError);
    };
    let Ok(graph) = SwitchGraph::of(alloc, &wires) else {
        return Err(AllocError);
    };
    let wired = WiredGraph {
        wires: &wires,
        graph: &graph,
    };
    plan_tree(alloc, &wired, rule)
}
