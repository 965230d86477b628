//! The lines that control a manager, and the meaning of each.
#![tactic(auto)]

pub mod laws;
mod manage_line;
mod read;
mod read_manage;
mod serve_line;

pub use manage_line::{ManageLine, ManageWord};
pub use read::{MOST_BYTES, hex_number, read_line};
pub use read_manage::read_manage_line;
pub use serve_line::ServeLine;
