//! Channels by lane. Finds whether packets of several service levels can wait for each other in a credit loop if the
//! switches map service levels to virtual lanes.
#![tactic(auto)]

mod dropped;
mod far_ports;
mod held_by;
mod lane_network;
pub mod laws;
mod loops_by_lane;
mod stop;
mod visit;
mod waits_by_lane;
mod walk;
mod walk_state;

pub use dropped::Dropped;
pub use lane_network::LaneNetwork;
pub use loops_by_lane::{LaneOrder, lane_order};
pub use waits_by_lane::{LaneWaits, lane_waits};
