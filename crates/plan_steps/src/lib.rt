//! The steps by which a plan is written to the agents of a subnet, in phases.
#![tactic(auto)]

mod block_steps;
mod bound;
mod carried;
pub mod laws;
mod lid_steps;
mod mask_steps;
mod phase;
mod state_steps;
mod step;
mod tree;

pub use bound::most_steps;
pub use carried::PortRead;
pub use lft_blocks::{Plan, PlanFault, Planning};
pub use phase::{Phase, phases};
pub use step::Step;
pub use tree::planned_tree;
