//! The tree along which multicast packets go, in the order that a rule of routing plans by.
#![tactic(auto)]

pub mod laws;
mod parents;
#[cfg(test)]
mod tests;
mod tree;

pub use tree::{SwitchPorts, plan_tree, tree_in};
