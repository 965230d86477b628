//! LinearForwardingTable: the block that a Get returns, and the block that a Set writes.
ghost use Rattle.std.specs.Prelude.{◌≡◌, is_some};
ghost use Rattle.std.specs.Option.{unwrap_or};
ghost use Rattle.node_agents.specs.LftBlock.{has_block, get_block, set_block};

use crate::agent::Agent;
use smp_bytes::LAST_BLOCK;
use smp_bytes::wire::put_bytes;

/// The number of entries in a block.
pub(crate) const BLOCK: usize = 64;

/// Returns the 64 entries of the block `block`, or `None` if the table does not have this block.
pub(crate) fn get(agent: &Agent, block: u32) -> Option<[u8; BLOCK]>
    ensures { result ≡ get_block agent.now block }
{
    if !has_block(agent, block) {
        return None;
    }
    let start = block as usize * BLOCK;
    let mut entries = [0; BLOCK];
    entries.copy_from_slice(&agent.table[start..start + BLOCK]);
    Some(entries)
}

/// Writes `payload` as the 64 entries of the block `block`, and returns whether the table has this block.
pub(crate) fn set(agent: &mut Agent, block: u32, payload: &[u8; BLOCK]) -> bool
    ensures taken { result ≡ is_some (set_block agent.old block payload.now) }
    ensures agent { agent.new ≡ unwrap_or (set_block agent.old block payload.now) agent.old }
{
    let has_block = has_block(agent, block);
    if has_block {
        put_bytes(&mut agent.table, block as usize * BLOCK, payload);
    }
    has_block
}

/// Returns whether the block `block` has unicast LIDs and begins within the table.
fn has_block(agent: &Agent, block: u32) -> bool
    ensures { result ≡ has_block agent.now block }
{
    block <= u32::from(LAST_BLOCK) && block as usize * BLOCK < usize::from(agent.node.cap)
}
