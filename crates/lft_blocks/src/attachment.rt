ghost use Rattle.std.specs.Prelude.{◌≡◌, ◌*◌, ◌≤◌, IfOk, length};
ghost use Rattle.fact_store.specs.View.{cells_of};
ghost use Rattle.std.specs.List.Sorted.{IsStrictlyIncreasing};
ghost use Rattle.subnet_view.specs.Graph.{guids_of};
ghost use Rattle.lid_assign.specs.Lids.{top_of};
ghost use Rattle.subnet_view.specs.SwitchGraph.{IsIndexIn};
ghost use Rattle.subnet_view.specs.Wires.{attachment_of};
ghost use Rattle.lft_blocks.specs.Entries.{attachment_of_lid, block_count};
ghost use Rattle.lft_blocks.specs.Attachment.{IsIndexed, AreIndexed};

use lid_assign::LidMap;
use smp_bytes::{Guid, Lid, PortNum};
use std::alloc::{AllocError, Global};
use subnet_view::{EndPort, WiredGraph, Wires, is_usable};

/// The switch, and the port of it, at which an end port is attached.
#[derive(Clone, Copy)]
pub(crate) struct Attachment {
    /// The index of the switch among the usable switches, in ascending order of GUID.
    pub(crate) switch: usize,
    /// The port of the switch.
    pub(crate) port: PortNum,
}

/// Returns the attachment of each LID that has an entry in the first `count` blocks, or `None` if the LID has no
/// attachment. The index of an item is its LID.
pub(crate) fn attachments(
    alloc: Global,
    wired: &WiredGraph,
    lids: &LidMap,
    count: usize,
) -> Result<Vec<Option<Attachment>>, AllocError>
    requires count { count ≡ block_count (top_of lids.now) }
    requires few { count ≤ 1024 }
    ensures indexed { IfOk result (λ attachments.
        AreIndexed (guids_of wired.now.graph.now) (attachment_of_lid (cells_of wired.now.wires.now) lids.now)
        attachments.items) }
    ensures all { IfOk result (λ attachments. length attachments.items ≡ 64 * count) }
{
    let mut attachments = Vec::with_capacity(alloc, 64 * count)?;
    for lid in 0..64 * count {
        attachments.push(attachment_of_lid(wired, lids, Lid::new(lid as u16)))?;
    }
    Ok(attachments)
}

/// Returns the attachment of `lid`, or `None` if no end port has `lid` or its owner is not attached to a usable switch.
fn attachment_of_lid(wired: &WiredGraph, lids: &LidMap, lid: Lid) -> Option<Attachment>
    ensures { IsIndexed (guids_of wired.now.graph.now)
        (attachment_of_lid (cells_of wired.now.wires.now) lids.now lid) result }
{
    let (guid, port) = attachment_of(wired.wires, lids.owner(lid)?)?;
    let switch = wired.graph.index_of(guid)?;
    Some(Attachment { switch, port })
}

/// Returns the usable switch, and the port of it, at which the end port `port` is attached, if it is.
fn attachment_of(wires: &Wires, port: EndPort) -> Option<(Guid, PortNum)>
    ensures { result ≡ attachment_of (cells_of wires.now) port }
{
    if is_usable(wires.store(), port.node) {
        Some((port.node, PortNum::MANAGEMENT))
    } else {
        wires.attached(port.node, port.port)
    }
}

/// Returns the index of `guid` in `guids`, or `None` if it is not there. Does a binary search.
pub(crate) fn index_of(guids: &[Guid], guid: Guid) -> Option<usize>
    requires { IsStrictlyIncreasing guids.now }
    ensures { IsIndexIn guids.now guid result }
{
    guids.binary_search(&guid).ok()
}
