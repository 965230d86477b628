ghost use Rattle.std.specs.Prelude.{◌≡◌, ◌<◌, ◌*◌, ◌^◌, IfOk, OnOk, length};
ghost use Rattle.fact_store.specs.View.{cells_of};
ghost use Rattle.audit_channels.specs.Column.{IsWithColumn};
ghost use Rattle.audit_channels.specs.ChannelOrders.{AreWaits};
ghost use Rattle.audit_channels.specs.Waiting.{IsAdded, WaitsFor, channel_count};

use crate::{Waits, add_column, is_same_column};
use packet_walks::{LidCursor, Network};
use port_graph::Edge;
use smp_bytes::Lid;
use std::alloc::{AllocError, Global};

/// Returns, for each channel, the channels that packets take next under the tables of `network`, whether or not an
/// end port holds their LIDs. Channels are numbered as in `channel_order`.
pub fn channel_waits(alloc: Global, network: &Network) -> Result<Waits, AllocError>
    ensures { IfOk result (λ waits. AreWaits (WaitsFor (cells_of network.now.facts) network.now.held)
        (channel_count (cells_of network.now.facts)) waits) }
{
    let count = network.switch_count().checked_mul(256).ok_or(AllocError)?;
    let mut waits = Waits::new(alloc, count)?;
    let mut cursor = LidCursor::of(alloc, network)?;
    let mut before = Vec::new(alloc);
    // No switch forwards packets for LIDs above the greatest top to another switch.
    for below in 0..network.greatest_top().number() {
        cursor.go_to(alloc, Lid::new(below + 1))?;
        let column = cursor.edges(alloc)?;
        add_after(&mut waits, &before, &column)?;
        before = column;
    }
    Ok(waits)
}

/// Records in `waits` the channels that packets take one after the other along the edges of `column`, unless it equals
/// `before`, whose channels are recorded.
fn add_after(
    waits: &mut Waits,
    before: &[Option<Edge>],
    column: &[Option<Edge>],
) -> Result<(), AllocError>
    requires added { IsAdded before.now waits.old }
    requires channels { length waits.old ≡ 256 * length column.now }
    requires room { 256 * length column.now < 2 ^ 64 }
    ensures { OnOk result (IsWithColumn waits.old column.now waits.new) }
{
    if is_same_column(column, before) {
        return Ok(());
    }
    add_column(waits, column)
}
