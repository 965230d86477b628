//! Orders by depth of the vertices of a graph.
#![tactic(auto)]

mod depth_order;
mod direction;
mod keyed_graph;

pub use depth_order::order_by_depth;
pub use direction::Direction;
