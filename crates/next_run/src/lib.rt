//! The tables to write next, from files. Reads the tables that switches hold and the files that describe the subnet,
//! writes the step from these tables towards the plan, and says whether channels can wait for each other in the step.
//! Also writes the order of the switches that tables imply.
#![tactic(auto)]

mod loop_text;
mod next_run;
mod order_run;
mod planned_step;
mod same_tables;
mod step_choice;
mod step_order_text;

pub use next_run::run_next;
pub use order_run::run_order_of_tables;
