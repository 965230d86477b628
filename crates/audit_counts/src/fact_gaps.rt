//! What facts leave open: nodes whose type or table room is unknown, and ports that are not known to be down, to have a
//! wire, or to be the end port of a switch.

mod in_order;
mod nodes;
mod ports;

pub use nodes::unusable_nodes;
pub use ports::unjoined_ports;
