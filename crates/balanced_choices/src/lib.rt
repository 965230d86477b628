//! Choices among the candidates of routes, made to balance the loads of channels.
#![tactic(auto)]

mod choice;
mod choice_order;
mod choice_rounds;
mod edges_taken;
mod evenness;
mod first_choice_loads;
pub mod laws;
mod level_digit;
mod loads;
mod round_robin;
mod target_ways;
mod traffic;
mod ways;

pub use choice_rounds::{Destination, balanced_choices};
pub use evenness::are_even;
pub use first_choice_loads::first_loads;
pub use level_digit::LevelDigit;
pub use loads::{PORTS, no_loads};
pub use round_robin::RoundRobin;
