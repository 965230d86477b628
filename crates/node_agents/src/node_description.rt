//! NodeDescription, which cannot be set.
ghost use Rattle.std.specs.Prelude.{◌≡◌};
ghost use Rattle.node_agents.specs.NodeDescription.{get_node_description};

use crate::agent::Agent;
use attr_codec::Attribute;

/// Returns the attribute for a Get: the 64 bytes that the node was given.
pub(crate) fn get(agent: &Agent) -> [u8; 64]
    ensures { result ≡ get_node_description agent.now }
{
    agent.node.description.encode()
}
