//! SwitchInfo: what a Get returns, and what a Set writes.
ghost use Rattle.std.specs.Prelude.{◌≡◌, is_some};
ghost use Rattle.std.specs.Option.{unwrap_or};
ghost use Rattle.node_agents.specs.SwitchInfo.{get_switch_info, set_switch_info};

use crate::agent::Agent;
use crate::mft_block::MULTICAST_CAP;
use attr_codec::{Attribute, SwitchInfo};

/// Returns the attribute for a Get: the sizes of the forwarding tables, and the top.
pub(crate) fn get(agent: &Agent) -> [u8; 64]
    ensures { result ≡ get_switch_info agent.now }
{
    let mut info = SwitchInfo::decode(&[0; 64]);
    info.set_linear_fdb_cap(agent.node.cap);
    info.set_linear_fdb_top(agent.top);
    info.set_multicast_fdb_cap(MULTICAST_CAP);
    info.encode()
}

/// Writes the LinearFDBTop in `payload`, and nothing else, if it is below LinearFDBCap. Returns whether it was.
pub(crate) fn set(agent: &mut Agent, payload: &[u8; 64]) -> bool
    ensures taken { result ≡ is_some (set_switch_info agent.old payload.now) }
    ensures agent { agent.new ≡ unwrap_or (set_switch_info agent.old payload.now) agent.old }
{
    let top = SwitchInfo::decode(payload).linear_fdb_top();
    let is_below_cap = top.number() < agent.node.cap;
    if is_below_cap {
        agent.top = top;
    }
    is_below_cap
}
