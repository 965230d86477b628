//! The text of a simulated fabric's topology: its nodes, and the links between their ports.
#![tactic(auto)]

mod draft;
mod first_fault;
pub mod laws;
mod links;
mod node;
mod nodes;
mod topo_fault;
mod topology;
mod topology_line;

pub use node::Node;
pub use text_words::NodeName;
pub use topo_fault::TopoFault;
pub use topology::{Topology, parse};
