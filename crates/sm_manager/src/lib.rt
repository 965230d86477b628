//! A subnet manager as a state machine. The caller asks for packets to send, and passes in packets that arrive. The
//! state machine does no input or output itself.
#![tactic(auto)]

mod end_request;
mod fault;
mod generation;
mod handover;
pub mod laws;
mod manager;
mod manager_requests;
mod noted_managers;
mod on_packet;
mod on_timeout;
mod outgoing;
mod pending;
mod progress;
mod sm_info_answers;
mod traps;
mod way;
mod write_steps;
mod writing;

pub use fault::ManagerFault;
pub use manager::Manager;
pub use outgoing::Outgoing;
pub use pending::{Pending, Purpose};
pub use progress::Progress;
pub use traps::Trap;
pub use way::Way;
