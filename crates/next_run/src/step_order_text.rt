//! The order of switches that a step goes by, and its text.
ghost use Rattle.std.specs.Prelude.{◌≡◌, IfOk};
ghost use Rattle.fact_store.specs.View.{cells_of};
ghost use Rattle.byte_io.specs.Prints.{WritesPart};
ghost use Rattle.next_run.specs.StepOrderText.{items_of, step_order_text, switches_by};

use byte_io::{Sink, WriteFault};
use packet_walks::Network;
use sm_cli::write_order;
use smp_bytes::Guid;
use std::alloc::{AllocError, Global};
use two_orders::positions_in;

/// Returns the usable switches in the order of `positions`, which are theirs in ascending order of GUID.
pub(crate) fn switches_by(
    alloc: Global,
    network: &Network,
    positions: &[usize],
) -> Result<Vec<Guid>, AllocError>
    ensures { IfOk result (λ switches. switches.items ≡ switches_by (cells_of network.now.facts) positions.now) }
{
    let indices = positions_in(alloc, positions, positions.len())?;
    indices
        .iter()
        .map(|index| network.guid(*index))
        .collect(alloc)
}

/// Writes a line for each switch of `order`, the order that a step goes by, if there is one, as a text of an order.
pub(crate) fn write_step_order<W: Sink>(
    sink: &mut W,
    order: &Option<Vec<Guid>>,
) -> Result<(), WriteFault>
    ensures { WritesPart W.written W.has_failed result sink.old sink.new
        (step_order_text (items_of order.now)) }
{
    match order {
        Some(switches) => write_order(sink, switches),
        None => Ok(()),
    }
}
