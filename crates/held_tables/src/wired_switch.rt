ghost use Rattle.std.specs.Prelude.{◌≡◌, IfOk, map};
ghost use Rattle.fact_store.specs.View.{cells_of};
ghost use Rattle.subnet_view.specs.Reading.{switches};
ghost use Rattle.held_tables.specs.Switches.{wired_of};

use crate::far_ends::{FarEnds, row_of};
use smp_bytes::Guid;
use std::alloc::{AllocError, Global};
use subnet_view::{Subnet, port_count};

/// A usable switch, with the far ends of its wires.
#[derive(Drop)]
pub struct WiredSwitch {
    /// The node GUID of the switch.
    pub guid: Guid,
    /// The far ends of the wires in the switch's ports.
    pub row: FarEnds,
    /// The switch's port count. Port 0 is not counted.
    pub ports: u8,
}

/// Returns the usable switches of `subnet`, in ascending order of GUID, each with the far ends of its wires and its
/// port count.
pub(crate) fn wired_switches(alloc: Global, subnet: &Subnet) -> Result<Vec<WiredSwitch>, AllocError>
    ensures { IfOk result (λ wired. wired.items
        ≡ map (wired_of (cells_of subnet.now)) (switches (cells_of subnet.now))) }
{
    let guids = subnet.switches();
    let mut wired = Vec::with_capacity(alloc, guids.len())?;
    for guid in guids {
        wired.push(wired_switch(alloc, subnet, *guid)?)?;
    }
    Ok(wired)
}

/// Returns the switch `guid` with the far ends of its wires and its port count.
fn wired_switch(alloc: Global, subnet: &Subnet, guid: Guid) -> Result<WiredSwitch, AllocError>
    ensures { IfOk result (λ wired. wired ≡ wired_of (cells_of subnet.now) guid) }
{
    let row = row_of(alloc, subnet, guid)?;
    let ports = port_count(subnet.store(), guid);
    Ok(WiredSwitch { guid, row, ports })
}
