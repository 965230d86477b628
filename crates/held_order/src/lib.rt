//! The order of the switches that held tables imply by themselves, whoever wrote them, and tables between it and the
//! next one on the way to a plan's order. A step towards these tables makes no credit loop.
#![tactic(auto)]

mod label_cache;
mod last_by_turns;
pub mod laws;
mod orders;
mod step_goal;
mod tables_between;
mod told;
mod turns;

pub use next_tables::are_right;
pub use step_goal::{StepGoal, between};
pub use told::told_order;
