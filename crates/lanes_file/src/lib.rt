//! The text of lanes: the virtual lane of packets in each switch, and the service levels of end ports.
#![tactic(auto)]

mod lanes;
mod lanes_builder;
mod lanes_item;
mod lanes_line;
mod lanes_text_fault;
mod lines_before;
mod reading;

pub use lanes::{LaneMap, Lanes, LevelBlock};
pub use lanes_text_fault::{LanesLineFault, LanesTextError, LanesTextFault};
pub use reading::parse;
