//! The usable switches, end ports and wires of a view of a subnet, and the graph of its switches.
#![tactic(auto)]

mod cell_cursor;
mod end_port;
mod end_port_after;
pub mod laws;
mod port_reader;
mod reading;
mod root;
mod subnet;
mod switch;
mod switch_graph;
mod wire_lookup;
mod wire_table;
mod wired_graph;

pub use end_port::{EndPort, count_end_ports, end_ports, is_end_port};
pub use end_port_after::next_end_port;
pub use fact_store::Refused;
pub use reading::port_count;
pub use subnet::Subnet;
pub use switch::{is_usable, switches, usable_guid};
pub use switch_graph::SwitchGraph;
pub use wire_lookup::{attached, wire};
pub use wire_table::Wires;
pub use wired_graph::{SubnetGraph, WiredGraph};
