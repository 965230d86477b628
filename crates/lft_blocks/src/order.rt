//! The order of the usable switches of a view.
ghost use Rattle.std.specs.Prelude.{◌≡◌, IfOk};
ghost use Rattle.fact_store.specs.View.{cells_of};
ghost use Rattle.spread_routes.specs.SwitchOrder.{order_value_of};
ghost use Rattle.lft_blocks.specs.Rule.{order_of};

use smp_bytes::Guid;
use spread_routes::{SwitchAdapters, SwitchOrder, adapters_of, switches_in_order};
use std::alloc::{AllocError, Global};
use subnet_view::WiredGraph;

/// Returns the usable switches of the view of `wired`, in the order of the rule that spreads by `order`. Returns an
/// error if memory runs out.
pub fn switch_order(
    alloc: Global,
    wired: &WiredGraph,
    order: &SwitchOrder,
) -> Result<Vec<Guid>, AllocError>
    ensures { IfOk result (λ found.
        found.items ≡ order_of (order_value_of order.now) (cells_of wired.now.wires.now)) }
{
    let adapters = adapters_of(alloc, wired)?;
    let given = SwitchAdapters {
        graph: wired.graph,
        adapters: &adapters,
    };
    switches_in_order(alloc, &given, order)
}
