//! MulticastForwardingTable: the block that a Get returns, and the block that a Set writes.
ghost use Rattle.std.specs.Prelude.{◌≡◌, is_some};
ghost use Rattle.std.specs.Option.{unwrap_or};
ghost use Rattle.node_agents.specs.Agent.{position_count};
ghost use Rattle.node_agents.specs.MftBlock.{get_masks, has_masks, position_in, set_masks};

use crate::agent::Agent;
use crate::agent_node::AgentNode;
use smp_bytes::wire::put_bytes;

/// The number of multicast LIDs that a switch has masks for, from 0xC000 on.
pub(crate) const MULTICAST_CAP: u16 = 32;

/// The number of bytes in a block: a mask of 16 ports for each of the multicast LIDs.
pub(crate) const MASKS: usize = 64;

/// Returns the number of positions in the multicast forwarding table of `node`.
pub(crate) fn position_count(node: &AgentNode) -> usize
    ensures { result ≡ position_count node.now }
{
    if node.is_switch() {
        usize::from(node.ports) / 16 + 1
    } else {
        0
    }
}

/// Returns the 64 bytes of the block that `modifier` names, or `None` if the table does not have this block.
pub(crate) fn get(agent: &Agent, modifier: u32) -> Option<[u8; MASKS]>
    ensures { result ≡ get_masks agent.now modifier }
{
    if !has_masks(agent, modifier) {
        return None;
    }
    let start = position_in(modifier) * MASKS;
    let mut masks = [0; MASKS];
    masks.copy_from_slice(&agent.masks[start..start + MASKS]);
    Some(masks)
}

/// Writes `payload` as the block that `modifier` names, and returns whether the table has this block.
pub(crate) fn set(agent: &mut Agent, modifier: u32, payload: &[u8; MASKS]) -> bool
    ensures taken { result ≡ is_some (set_masks agent.old modifier payload.now) }
    ensures agent { agent.new ≡ unwrap_or (set_masks agent.old modifier payload.now) agent.old }
{
    let has_masks = has_masks(agent, modifier);
    if has_masks {
        put_bytes(&mut agent.masks, position_in(modifier) * MASKS, payload);
    }
    has_masks
}

/// Returns whether `modifier` names a position of the agent, and block 0.
fn has_masks(agent: &Agent, modifier: u32) -> bool
    ensures { result ≡ has_masks agent.now modifier }
{
    position_in(modifier) < position_count(&agent.node) && modifier % 512 == 0
}

/// Returns the position that `modifier` names.
fn position_in(modifier: u32) -> usize
    ensures { result ≡ position_in modifier }
{
    (modifier / 0x1000_0000) as usize
}
