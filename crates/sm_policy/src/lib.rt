//! What a live manager does next, decided by the time, by its state and by what its last sweep saw: when it polls,
//! sweeps, writes and hands over. Times are in milliseconds, from any origin, and are told by the caller.
#![tactic(auto)]

mod act;
mod activity;
mod comparison;
mod judged;
pub mod laws;
mod meeting;
mod policy;
mod ports;
mod resting;
mod rival;
mod swept;
mod timing;
mod write_cause;
mod written;

pub use act::Act;
pub use activity::Activity;
pub use comparison::Comparison;
pub use meeting::Meeting;
pub use policy::{Policy, later_by};
pub use ports::Ports;
pub use resting::is_master;
pub use rival::Rival;
pub use timing::Timing;
pub use write_cause::WriteCause;
pub use written::Written;
