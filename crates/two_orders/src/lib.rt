//! Two orders of the vertices of a graph. This includes the tree of an order, orders that grow in a tree, and labels.
//! Walks that follow labels go up and then down by both orders.
#![tactic(auto)]

mod growth;
mod labels;
pub mod laws;
mod orders;
mod trees;

pub use growth::{grown_by, positions_in};
pub use labels::{Sides, label_all, label_at, leads_on};
pub use orders::Orders;
pub use trees::tree;
