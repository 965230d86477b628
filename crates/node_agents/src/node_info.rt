//! NodeInfo, which cannot be set.
ghost use Rattle.std.specs.Prelude.{◌≡◌, ◌≤◌};
ghost use Rattle.node_agents.specs.Agent.{port_guid};
ghost use Rattle.node_agents.specs.NodeInfo.{get_node_info};

use crate::agent::Agent;
use attr_codec::{Attribute, NodeInfo, NodeTypeNumber};
use smp_bytes::{Guid, PortNum};

/// Returns the attribute for a Get that arrived at the port `arrival`.
pub(crate) fn get(agent: &Agent, arrival: PortNum) -> [u8; 64]
    requires { arrival ≤ agent.now.node.ports }
    ensures { result ≡ get_node_info agent.now arrival }
{
    let node = &agent.node;
    let unset = NodeInfo::decode(&[0; 64]);
    let info = NodeInfo {
        base_version: 1,
        class_version: 1,
        node_type: NodeTypeNumber::from(node.kind),
        num_ports: node.ports,
        system_image_guid: node.guid,
        node_guid: node.guid,
        port_guid: port_guid(agent, arrival),
        partition_cap: 1,
        local_port_num: arrival,
        ..unset
    };
    info.encode()
}

/// Returns the GUID of `port`: the node's GUID, plus `port` for an adapter.
fn port_guid(agent: &Agent, port: PortNum) -> Guid
    requires { port ≤ agent.now.node.ports }
    ensures { result ≡ port_guid agent.now.node port }
{
    if agent.node.is_switch() {
        agent.node.guid
    } else {
        Guid::new(agent.node.guid.number() + u64::from(port.number()))
    }
}
