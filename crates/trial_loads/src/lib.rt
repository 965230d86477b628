//! The trial loads of channels in an order of vertices, and the order that has the least trial load among those that
//! are tried.
#![tactic(auto)]

mod adapter_graph;
mod candidate_ways;
pub mod laws;
mod least_loaded;
mod near_targets;
mod remoteness;
mod shared_loads;
mod starts;
mod trials;
mod upward;

pub use least_loaded::least_loaded_keys;
