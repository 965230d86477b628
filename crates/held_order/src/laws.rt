//! The laws of the order that held tables imply, and of tables between two orders.

pub mod between;
pub mod told;
