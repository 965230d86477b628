//! The text of roots: GUIDs of switches, one on each line.
#![tactic(auto)]

mod line;
mod reading;
mod roots;
mod roots_text_fault;

pub use reading::parse;
pub use roots_text_fault::{RootsLineFault, RootsTextError, RootsTextFault};
