//! The channels that packets take, starting at a switch, and how often each channel is taken.
ghost use Rattle.std.specs.Prelude.{◌≡◌, ◌<◌, ◌+◌, ◌*◌, ◌^◌, None, IfOk, OnOk, length, slice_index};
ghost use Rattle.std.specs.Prelude.{slice_index_or, slice_set};
ghost use Rattle.audit_channels.specs.Column.{number_of};
ghost use Rattle.audit_ways.specs.WayTally.{IsLoadedWith};
ghost use Rattle.audit_ways.specs.Ways.{channels_from};

use port_graph::Edge;
use std::alloc::AllocError;

/// Follows `edges`, starting at the switch at index `first`, and adds `times` to the load of a channel each time that
/// the channel is taken. Stops after as many channels as there are switches. Returns the number of channels taken.
/// Returns an error if a load does not fit in 64 bits. Takes time linear in the number of channels taken.
pub(crate) fn load_channels(
    loads: &mut [u64],
    edges: &[Option<Edge>],
    first: usize,
    times: u64,
) -> Result<usize, AllocError>
    requires channels { length loads.old ≡ 256 * length edges.now }
    ensures loads { OnOk result (IsLoadedWith loads.old (channels_from (length edges.now) edges.now first) times
        loads.new) }
    ensures count { IfOk result (λ count. count ≡ length (channels_from (length edges.now) edges.now first)) }
{
    let mut switch = first;
    for taken in 0..edges.len() {
        match edge_of(edges, switch) {
            Some(edge) => {
                let next = edge.to;
                load_channel(loads, number_of(switch, edge), times)?;
                switch = next;
            }
            None => return Ok(taken),
        }
    }
    Ok(edges.len())
}

/// Adds `times` to the load of `channel`. Returns an error if the load does not fit in 64 bits.
pub(crate) fn load_channel(loads: &mut [u64], channel: usize, times: u64) -> Result<(), AllocError>
    requires { channel < length loads.old }
    ensures { OnOk result (loads.new ≡ slice_set loads.old channel (slice_index loads.old channel + times)) }
{
    loads[channel] = loads[channel].checked_add(times).ok_or(AllocError)?;
    Ok(())
}

/// Returns the edge of `switch` in `edges`, or `None` if there is none.
pub(crate) fn edge_of(edges: &[Option<Edge>], switch: usize) -> Option<Edge>
    ensures { result ≡ slice_index_or edges.now switch None }
{
    edges.get(switch).copied().flatten()
}

/// Returns the number of the channel of `edge`, an edge of `switch`.
fn number_of(switch: usize, edge: Edge) -> usize
    requires { 256 * switch + 256 < 2 ^ 64 + 1 }
    ensures is { result ≡ number_of switch edge }
    ensures within { result < 256 * switch + 256 }
{
    256 * switch + usize::from(edge.port.number())
}
