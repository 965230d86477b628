//! Whether packets can wait for each other in a credit loop while switches change from one table to the next, and for
//! which LIDs.
#![tactic(auto)]

mod across;
mod lids_in_loop;
mod order;

pub use lids_in_loop::loop_lids;
pub use order::step_order;
