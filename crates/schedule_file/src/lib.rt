//! The text of a schedule: the subnet managers of a simulated fabric, and the commands that are run in it.
#![tactic(auto)]

mod command;
mod first_fault;
pub mod laws;
mod line;
mod manager_name;
mod manager_words;
mod manner;
mod named_command;
mod numbers;
mod resolve;
mod schedule;
mod schedule_fault;

pub use command::{Ask, Command, Fate, Shown, Which};
pub use manager_name::ManagerName;
pub use manager_words::{asked_by, generation_of, lid_of, shown_by};
pub use manner::Manner;
pub use resolve::SeatCommand;
pub use schedule::{Schedule, Seat, parse};
pub use schedule_fault::ScheduleFault;
