//! Requests to managers, the lines that commands print, and the fault of a run that stops before the end of its
//! commands.
#![tactic(auto)]

mod line_parts;
mod manager_asks;
mod manager_lines;
mod ping_lines;
mod refusals;
mod run_fault;
mod shown;
mod tables;

pub use manager_asks::{ask_manager, waiting};
pub use ping_lines::{write_flight, write_ping};
pub use refusals::{refuse_fabric, refuse_manager};
pub use run_fault::RunFault;
pub use shown::{show_manager, show_trap};
pub use tables::show_tables;
