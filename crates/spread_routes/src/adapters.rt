//! The adapters at switches.
ghost use Rattle.std.specs.Prelude.{◌≡◌, IfOk};
ghost use Rattle.subnet_view.specs.View.{cells_of};
ghost use Rattle.spread_labels.specs.Level.{greatest};
ghost use Rattle.spread_routes.specs.Adapters.{adapters_at, adapters_of, has_adapter_at};

use smp_bytes::{Guid, PortNum};
use std::alloc::{AllocError, Global};
use subnet_view::{WiredGraph, Wires, is_usable, port_count};

/// Returns the number of adapter ports that are wired to each usable switch, in ascending order of the switches'
/// GUIDs. Does a binary search among the cells for each switch, and at most four for each port of a switch. Returns an
/// error if memory runs out.
pub fn adapters_of(alloc: Global, wired: &WiredGraph) -> Result<Vec<u16>, AllocError>
    ensures { IfOk result (λ adapters. adapters.items ≡ adapters_of (cells_of wired.now.wires.now)) }
{
    let wires = wired.wires;
    wired
        .switches()
        .iter()
        .map(|guid| adapters_at(wires, *guid))
        .collect(alloc)
}

/// Returns the greatest number of adapters at any switch, or 0 if there are no switches. `adapters` must have the
/// number of adapters at each switch.
pub fn most_adapters(adapters: &[u16]) -> u16
    ensures { result ≡ greatest 0 adapters.now }
{
    let mut most = 0;
    for count in adapters {
        most = (*count).max(most);
    }
    most
}

/// Returns the number of adapter ports that are wired to `switch`.
fn adapters_at(wires: &Wires, switch: Guid) -> u16
    ensures { result ≡ adapters_at (cells_of wires.now) switch }
{
    let mut count = 0;
    for before in 0..port_count(wires.store(), switch) {
        if has_adapter_at(wires, switch, PortNum::new(before + 1)) {
            count += 1;
        }
    }
    count
}

/// Returns whether the wire in `port` of `switch` leads to an adapter.
fn has_adapter_at(wires: &Wires, switch: Guid, port: PortNum) -> bool
    ensures { result ≡ has_adapter_at (cells_of wires.now) switch port }
{
    match wires.across(switch, port) {
        Some((far, _)) => !is_usable(wires.store(), far),
        None => false,
    }
}
