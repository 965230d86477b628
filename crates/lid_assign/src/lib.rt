//! LIDs for end ports: one for each switch, and 2^LMC for each adapter's port. An end port keeps its claim if it can.
//! Each other end port takes the least range that is left.
#![tactic(auto)]

mod assignment;
mod hand_out;
mod keep_claims;
pub mod laws;
mod lid_fault;
mod lid_map;
mod lid_marks;
mod room;
mod without_memory;

pub use assignment::{assign, assign_in, out_of_memory};
pub use lid_fault::{LidFault, NoRoom};
pub use lid_map::LidMap;
pub use room::no_room;
