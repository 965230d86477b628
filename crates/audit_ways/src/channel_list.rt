//! The channels of a subnet, each with its load.
ghost use Rattle.std.specs.Prelude.{◌≡◌, ◌*◌, IfOk, length, map};
ghost use Rattle.fact_store.specs.View.{cells_of};
ghost use Rattle.subnet_view.specs.Reading.{switches};
ghost use Rattle.audit_ways.specs.ChannelList.{loaded_channel, loaded_channels};
ghost use Rattle.audit_ways.specs.Ways.{channels_of};

use crate::way_figures::{is_to_switch, tally_of};
use packet_walks::Network;
use std::alloc::{AllocError, Global};

/// A channel with its load.
#[derive(Clone, Copy, Debug, PartialEq, Eq)]
pub struct LoadedChannel {
    /// The number of the channel: 256 times the index of the usable switch that it leaves, plus the port.
    pub channel: usize,
    /// The number of packets that take the channel: one from each adapter port to each LID of another adapter port, if
    /// the packet is delivered.
    pub load: u64,
}

/// Returns the channels of `network`, each with its load, in ascending order of switch GUID and port.
pub fn loaded_channels(alloc: Global, network: &Network) -> Result<Vec<LoadedChannel>, AllocError>
    ensures { IfOk result (λ listed.
        listed.items ≡ loaded_channels (cells_of network.now.facts) network.now.held) }
{
    let tally = tally_of(alloc, network, &[])?;
    listed(alloc, network, &tally.loads)
}

/// Returns the channels of `network`, each with its load in `loads`, in ascending order of switch GUID and port.
fn listed(alloc: Global, network: &Network, loads: &[u64]) -> Result<Vec<LoadedChannel>, AllocError>
    requires { length loads.now ≡ 256 * length (switches (cells_of network.now.facts)) }
    ensures { IfOk result (λ listed.
        listed.items ≡ map (loaded_channel loads.now) (channels_of (cells_of network.now.facts))) }
{
    let mut found = Vec::new(alloc);
    for (channel, load) in loads.iter().enumerate() {
        if is_to_switch(network.far(channel)) {
            found.push(LoadedChannel {
                channel,
                load: *load,
            })?;
        }
    }
    Ok(found)
}
