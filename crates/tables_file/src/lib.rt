//! The text of tables that switches hold or that a plan gives: who holds which LID, and the forwarding tables of
//! switches.
#![tactic(auto)]

mod last_lines;
pub mod laws;
mod printed_tables;
mod reading;
mod tables_line;
mod tables_text_fault;

pub use held_tables::Held;
pub use printed_tables::{write_next, write_tables};
pub use reading::parse;
pub use tables_text_fault::{TablesLineFault, TablesTextError, TablesTextFault};
