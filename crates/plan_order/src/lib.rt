//! The order of the switches that a rule of routing plans by.
#![tactic(auto)]

mod ordered_plan;
mod positions;
mod rank_positions;
mod switches;

pub use ordered_plan::{plan_in_order, subnet_to_plan};
pub use positions::{plan_positions, positions_named};
pub use switches::plan_switches;
