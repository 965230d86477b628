//! Routes that go up until a walk down leads to the target, and then down.
#![tactic(auto)]

mod graph;
pub mod laws;
mod positions;
mod rank;
mod routes;
mod up_down_edges;

pub use graph::Graph;
pub use routes::Routes;
