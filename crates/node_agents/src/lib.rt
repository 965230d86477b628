//! The subnet management agents of simulated switches and channel adapters: what an agent keeps, and what it answers.
#![tactic(auto)]

mod agent;
mod agent_node;
mod handle;
pub mod laws;
mod lft_block;
mod mft_block;
mod node_description;
mod node_info;
mod port;
mod port_info;
mod refusal;
mod switch_info;

pub use agent::Agent;
pub use agent_node::AgentNode;
