//! The requests that an agent handles.
ghost use Rattle.std.specs.Prelude.{◌≡◌, ◌≤◌, None, Some, if◌then◌else◌};
ghost use Rattle.smp_bytes.specs.Judges.{Judges};
ghost use Rattle.node_agents.specs.declared.refusal.Refusal.TheVariants.{InvalidField};
ghost use Rattle.node_agents.specs.Answers.{Takes, set_of, after_request, get_of};

use crate::agent::Agent;
use crate::refusal::Refusal;
use crate::{lft_block, mft_block, node_description, node_info, port_info, switch_info};
use smp_bytes::{AttributeId, Method, PortNum, Smp};

/// Handles the request `smp` at the port `arrival`, and returns the attribute of the answer or why it is refused.
pub(crate) fn handle(agent: &mut Agent, smp: &Smp, arrival: PortNum) -> Result<[u8; 64], Refusal>
    requires { arrival ≤ agent.old.node.ports }
    ensures told { result ≡ (after_request agent.old smp.now arrival).told }
    ensures agent { agent.new ≡ (after_request agent.old smp.now arrival).agent }
{
    if smp.method() == Method::GET {
        get(agent, smp, arrival)
    } else if smp.method() == Method::SET {
        set(agent, smp, arrival)?;
        get(agent, smp, arrival)
    } else {
        Err(Refusal::Method)
    }
}

/// Returns the attribute that `smp`, taken as a Get, asks for, or why the Get is refused.
#[tactic(auto, unfolding(crate::specs::Answers::get_of))]
fn get(agent: &Agent, smp: &Smp, arrival: PortNum) -> Result<[u8; 64], Refusal>
    requires { arrival ≤ agent.now.node.ports }
    ensures { result ≡ get_of agent.now smp.now arrival }
{
    let attribute = smp.attribute_id();
    let modifier = smp.attribute_modifier();
    if attribute == AttributeId::NODE_DESCRIPTION {
        Ok(node_description::get(agent))
    } else if attribute == AttributeId::NODE_INFO {
        Ok(node_info::get(agent, arrival))
    } else if attribute == AttributeId::PORT_INFO {
        port_info::get(agent, modifier, arrival).ok_or(Refusal::InvalidField)
    } else if agent.is_switch() && attribute == AttributeId::SWITCH_INFO {
        Ok(switch_info::get(agent))
    } else if agent.is_switch() && attribute == AttributeId::LINEAR_FORWARDING_TABLE {
        lft_block::get(agent, modifier).ok_or(Refusal::InvalidField)
    } else if agent.is_switch() && attribute == AttributeId::MULTICAST_FORWARDING_TABLE {
        mft_block::get(agent, modifier).ok_or(Refusal::InvalidField)
    } else {
        Err(Refusal::MethodAndAttribute)
    }
}

/// Applies a Set of the attribute in `smp`, or changes nothing and returns why it is refused.
#[tactic(auto, unfolding(crate::specs::Answers::set_of))]
fn set(agent: &mut Agent, smp: &Smp, arrival: PortNum) -> Result<(), Refusal>
    requires { arrival ≤ agent.old.node.ports }
    ensures { Takes result agent.old agent.new (set_of agent.old smp.now arrival) }
{
    let attribute = smp.attribute_id();
    let modifier = smp.attribute_modifier();
    let payload = smp.attribute_data();
    if attribute == AttributeId::PORT_INFO {
        valid_if(port_info::set(agent, modifier, arrival, &payload))
    } else if agent.is_switch() && attribute == AttributeId::SWITCH_INFO {
        valid_if(switch_info::set(agent, &payload))
    } else if agent.is_switch() && attribute == AttributeId::LINEAR_FORWARDING_TABLE {
        valid_if(lft_block::set(agent, modifier, &payload))
    } else if agent.is_switch() && attribute == AttributeId::MULTICAST_FORWARDING_TABLE {
        valid_if(mft_block::set(agent, modifier, &payload))
    } else {
        Err(Refusal::MethodAndAttribute)
    }
}

/// Returns `InvalidField` unless `is_taken`.
fn valid_if(is_taken: bool) -> Result<(), Refusal>
    ensures { Judges result (if is_taken then None else Some InvalidField) }
{
    if is_taken {
        Ok(())
    } else {
        Err(Refusal::InvalidField)
    }
}
