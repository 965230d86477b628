//! Graphs of numbered vertices whose edges leave by ports: shortest walks, and routes that go up and then down.
#![tactic(auto)]

mod adjacency;
mod byte_lanes;
mod cost;
mod distance;
mod edge;
pub mod laws;
mod next_port;
mod side_by_side;

pub use adjacency::Adjacency;
pub use distance::distances;
pub use edge::Edge;
pub use side_by_side::next_ports_between;
