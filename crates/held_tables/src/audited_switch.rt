ghost use Rattle.std.specs.Prelude.{◌≡◌, IfOk, map};
ghost use Rattle.held_tables.specs.Switches.{node_by};
ghost use Rattle.held_tables.specs.Tables.{index_of, top_at};

use crate::far_ends::FarEnds;
use crate::held::Held;
use crate::wired_switch::WiredSwitch;
use smp_bytes::{Guid, Lid};
use std::alloc::{AllocError, Global};

/// A usable switch, with the far ends of its wires, and with its index and its top in the held tables.
#[derive(Drop)]
pub struct AuditedSwitch {
    /// The node GUID of the switch.
    pub guid: Guid,
    /// The far ends of the wires in the switch's ports.
    pub row: FarEnds,
    /// The index of the switch among the held switches, or `None` if the held tables do not have the switch.
    pub index: Option<usize>,
    /// The held top of the switch, which is the greatest LID for which it uses its table; 0 if the held tables do not
    /// have the switch.
    pub top: Lid,
    /// The switch's port count. Port 0 is not counted.
    pub ports: u8,
}

/// Returns each of `switches`, in their order, with its index and its top in `held`, or else `None` and 0.
pub(crate) fn nodes(
    alloc: Global,
    switches: &[WiredSwitch],
    held: &Held,
) -> Result<Vec<AuditedSwitch>, AllocError>
    ensures { IfOk result (λ nodes. nodes.items ≡ map (node_by held.now) switches.now) }
{
    let mut nodes = Vec::with_capacity(alloc, switches.len())?;
    for switch in switches {
        nodes.push(node_at(alloc, switch, held)?)?;
    }
    Ok(nodes)
}

/// Returns `switch` with its index and its top in `held`.
fn node_at(alloc: Global, switch: &WiredSwitch, held: &Held) -> Result<AuditedSwitch, AllocError>
    ensures { IfOk result (λ node. node ≡ node_by held.now switch.now) }
{
    let row = switch.row.copied(alloc)?;
    let index = index_of(held, switch.guid);
    let top = top_at(held, index);
    Ok(AuditedSwitch {
        guid: switch.guid,
        row,
        index,
        top,
        ports: switch.ports,
    })
}

/// Returns the index of the first held switch with the GUID `guid`, or `None` if there is none. Takes time linear in
/// the number of held switches.
pub fn index_of(held: &Held, guid: Guid) -> Option<usize>
    ensures { result ≡ index_of held.now guid }
{
    held.switches()
        .iter()
        .position(|switch| switch.guid == guid)
}

/// Returns the top of the held switch at `index`, or 0 if `index` is `None` or there is no such switch.
pub fn top_at(held: &Held, index: Option<usize>) -> Lid
    ensures { result ≡ top_at held.now index }
{
    let Some(index) = index else {
        return Lid::NONE;
    };
    match held.switches().get(index) {
        Some(switch) => switch.top,
        None => Lid::NONE,
    }
}
