//! A fabric: its nodes, ports and cables, and what its nodes do with packets.
#![tactic(auto)]

mod cable;
mod course;
pub mod laws;
mod node_id;

pub use cable::{Cable, NodePort};
pub use course::Course;
pub use node_id::NodeId;
