//! The words of a command line: which words there are, and what they are parsed as.
#![tactic(auto)]

mod arg_matches;
pub mod argument_names;
mod arguments;
mod command_line;
mod conflicts;
mod way_word;

pub use arg_matches::is_set;
pub use command_line::matches_of;
pub use way_word::packet_named;
