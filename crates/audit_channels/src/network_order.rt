ghost use Rattle.std.specs.Prelude.{IfOk};
ghost use Rattle.fact_store.specs.View.{cells_of};
ghost use Rattle.audit_channels.specs.ChannelOrders.{IsOrder, IsShortest};
ghost use Rattle.audit_channels.specs.Waiting.{WaitsFor, channel_count};

use crate::{ChannelOrder, channel_waits, order_channels};
use packet_walks::Network;
use std::alloc::{AllocError, Global};

/// Returns numbers of channels that rise along the route of every packet, whether or not an end port holds its LID.
/// If there are no such numbers, returns a shortest credit loop.
///
/// A channel is a wire between usable switches, taken in one direction. If it leaves the switch with index `i` by port
/// `p`, its number is 256 * `i` + `p`.
///
/// Takes the time of `order_channels`, and that of `LidCursor::go_to` for every 64 LIDs up to the greatest top of a
/// usable switch. Looks at each switch for each of these LIDs. If a switch forwards packets for the LID otherwise than
/// for the previous LID, also looks at the channels that follow the channel of each switch.
pub fn channel_order(alloc: Global, network: &Network) -> Result<ChannelOrder, AllocError>
    ensures order { IfOk result (λ found. IsOrder (WaitsFor (cells_of network.now.facts) network.now.held)
        (channel_count (cells_of network.now.facts)) found) }
    ensures shortest { IfOk result (λ found.
        IsShortest (WaitsFor (cells_of network.now.facts) network.now.held) found) }
{
    let waits = channel_waits(alloc, network)?;
    let found = order_channels(alloc, &waits)?;
    Ok(found)
}
