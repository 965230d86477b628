//! The words of a text: the lines of the text, the words of a line, and the numbers, names and ports that words spell.
#![tactic(auto)]

mod lines_fault;
mod node_name;
mod node_ports;
mod numbers;
mod quoted;
mod text;

pub use lines_fault::{LineError, LineFault, LinesFault};
pub use node_name::NodeName;
pub use node_ports::{node_port, plain_port};
pub use numbers::{bare_guid, count, guid, hex_bytes, number, port_number, small, small_byte};
pub use quoted::{bracketed_port, enclosed, named_port, quoted_name};
pub use text::{is_word, only_word, split_line, split_word, two_words};
