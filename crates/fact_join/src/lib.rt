//! Cells: what is known of one fact, and how two cells are joined.
#![tactic(auto)]

mod cell;
mod join;
pub mod laws;

pub use cell::Cell;
pub use join::{Exact, Join};
