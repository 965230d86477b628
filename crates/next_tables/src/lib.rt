//! The tables to write next, from the tables that switches hold towards a plan's, by settled entries or by an order of
//! the switches. If one end port alone holds a LID in the held tables and in the plan, no mixture of the held and the
//! next tables loses a packet for the LID that the held tables deliver. If the step goes by an order, both tables must
//! also be right by this order. Then no mixture lets a packet go down and then up again, so no channels wait for each
//! other in a loop, and steps end.
#![tactic(auto)]

mod assembly;
mod entries_by_lid;
mod held_arrivals;
pub mod laws;
mod ordered_entries;
mod rightness;
mod settled_entries;
mod step;
mod step_fault;
mod step_rule;
mod switch_positions;

pub use assembly::{greater, most_blocks, tables_with};
pub use audit_channels::edge_of;
pub use entries_by_lid::{first_owner, no_entries};
pub use rightness::are_right;
pub use step::next_tables;
pub use step_fault::StepFault;
pub use step_rule::StepRule;
pub use switch_positions::{is_down, is_up};
