//! Outstanding requests, in ascending order of their numbers.
#![tactic(auto)]

mod numbered;
mod request_table;

pub use numbered::Numbered;
pub use request_table::RequestTable;
