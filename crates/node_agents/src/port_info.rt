//! PortInfo: which port a request means, what a Get returns, and what a Set writes.
ghost use Rattle.std.specs.Prelude.{◌≡◌, ◌≤◌, is_some, IfSome};
ghost use Rattle.smp_bytes.specs.LidRange.{may_have};
ghost use Rattle.std.specs.Option.{unwrap_or};
ghost use Rattle.node_agents.specs.PortInfo.{port_meant, port_info_of, get_port_info, has_lid, max_lmc};
ghost use Rattle.node_agents.specs.PortInfo.{are_lids_taken, state_after, port_after, changed_port};
ghost use Rattle.node_agents.specs.PortInfo.{set_port_info};

use crate::agent::Agent;
use crate::port::Port;
use attr_codec::{Attribute, Lmc, PortInfo, PortState};
use smp_bytes::{Lid, PortNum};

/// Returns the attribute for a Get that arrived at the port `arrival`, or `None` if `modifier` means no port.
pub(crate) fn get(agent: &Agent, modifier: u32, arrival: PortNum) -> Option<[u8; 64]>
    ensures { result ≡ get_port_info agent.now modifier arrival }
{
    let port = port_meant(agent, modifier, arrival)?;
    Some(info_of(agent.port(port), arrival))
}

/// Applies a Set of `payload` to the port that `modifier` means for a request that arrived at `arrival`: the LID, the
/// LMC and the manager's LID of an end port, and the state of any port. Returns whether the Set is accepted.
pub(crate) fn set(agent: &mut Agent, modifier: u32, arrival: PortNum, payload: &[u8; 64]) -> bool
    requires { arrival ≤ agent.old.node.ports }
    ensures taken { result ≡ is_some (set_port_info agent.old modifier arrival payload.now) }
    ensures agent { agent.new
        ≡ unwrap_or (set_port_info agent.old modifier arrival payload.now) agent.old }
{
    match changed_port(agent, modifier, arrival, payload) {
        Some((port, after)) => {
            agent.ports[usize::from(port.number())] = after;
            true
        }
        None => false,
    }
}

/// Returns the port that a Set of `payload` means, with its values after the Set, or `None` if the Set is refused.
#[tactic(auto, unfolding(crate::specs::PortInfo::changed_port))]
fn changed_port(
    agent: &Agent,
    modifier: u32,
    arrival: PortNum,
    payload: &[u8; 64],
) -> Option<(PortNum, Port)>
    requires { arrival ≤ agent.now.node.ports }
    ensures changed { result ≡ changed_port agent.now modifier arrival payload.now }
    ensures port { IfSome result (λ changed. changed.0 ≤ agent.now.node.ports) }
{
    let port = port_meant(agent, modifier, arrival)?;
    let after = port_after(
        agent.port(port),
        has_lid(agent, port),
        max_lmc(agent, port),
        payload,
    )?;
    Some((port, after))
}

/// Returns the port that a request means: of a switch the port `modifier`, and of an adapter the port `arrival` if
/// `modifier` is 0 or its number.
fn port_meant(agent: &Agent, modifier: u32, arrival: PortNum) -> Option<PortNum>
    ensures port { result ≡ port_meant agent.now modifier arrival }
{
    if agent.node.is_switch() {
        let is_port = modifier <= u32::from(agent.node.ports);
        is_port.then(|| PortNum::new(modifier as u8))
    } else if modifier == 0 || modifier == u32::from(arrival.number()) {
        Some(arrival)
    } else {
        None
    }
}

/// Returns the PortInfo of `port` for a request that arrived at `arrival`. Fields that an agent does not keep are 0.
fn info_of(port: Port, arrival: PortNum) -> [u8; 64]
    ensures { result ≡ port_info_of port arrival }
{
    let mut info = PortInfo::decode(&[0; 64]);
    info.set_base_lid(port.base_lid);
    info.set_master_sm_lid(port.master_sm_lid);
    info.set_local_port_num(arrival);
    info.set_is_sm(port.is_sm);
    info.set_lmc(port.lmc);
    info.set_port_state(port.state);
    info.encode()
}

/// Returns whether `port` can have a LID of its own. Each port of an adapter can, but only port 0 of a switch.
fn has_lid(agent: &Agent, port: PortNum) -> bool
    ensures { result ≡ has_lid agent.now port }
{
    !agent.node.is_switch() || port.number() == 0
}

/// Returns the greatest LMC that can be set at `port`: 0 for port 0 of a switch, which has one LID, and otherwise 7.
fn max_lmc(agent: &Agent, port: PortNum) -> u8
    ensures { result ≡ max_lmc agent.now port }
{
    if agent.node.is_switch() && port.number() == 0 {
        0
    } else {
        7
    }
}

/// Returns whether a port may have the LID and the LMC in `info`, and the LMC is at most `max_lmc`.
fn are_lids_taken(max_lmc: u8, info: &PortInfo) -> bool
    ensures { result ≡ are_lids_taken max_lmc info.now }
{
    let lmc = info.lmc();
    lmc.number() <= max_lmc && may_have(info.base_lid(), lmc)
}

/// Returns whether a port may have `base` with `lmc`: 0, for no LID, or a multiple of 2^LMC with 2^LMC unicast LIDs.
fn may_have(base: Lid, lmc: Lmc) -> bool
    ensures { result ≡ may_have base lmc }
{
    let first = u32::from(base.number());
    let count = u32::from(lmc.width());
    first == 0 || (first % count == 0 && first + count <= u32::from(Lid::UNICAST_END))
}

/// Returns `port` after a Set of `payload`, or `None` if this is refused. Unless `has_lid`, only the state changes.
fn port_after(port: Port, has_lid: bool, max_lmc: u8, payload: &[u8; 64]) -> Option<Port>
    ensures { result ≡ port_after port has_lid max_lmc payload.now }
{
    let info = PortInfo::decode(payload);
    if !are_lids_taken(max_lmc, &info) {
        return None;
    }
    let state = state_after(port.state, info.port_state()?)?;
    if !has_lid {
        return Some(Port { state, ..port });
    }
    Some(Port {
        base_lid: info.base_lid(),
        lmc: info.lmc(),
        master_sm_lid: info.master_sm_lid(),
        state,
        ..port
    })
}

/// Returns the link state after a Set that asks for `wish`: no change, the present state, or the next one up to Active.
fn state_after(state: PortState, wish: PortState) -> Option<PortState>
    ensures { result ≡ state_after state wish }
{
    match (state, wish) {
        (_, PortState::NoChange) => Some(state),
        (PortState::Initialize, PortState::Armed) | (PortState::Armed, PortState::Active) => {
            Some(wish)
        }
        _ if wish == state => Some(state),
        _ => None,
    }
}
