//! The task that the words of a command line ask for, and the names of its inputs.
#![tactic(auto)]

pub mod laws;
mod managing;
mod option_values;
mod task;

pub use managing::Managing;
pub use task::{Task, names_of, task_of};
