//! Whether channels can wait for each other in a cycle (a credit loop), by the forwarding tables that a subnet's
//! switches hold, whoever wrote them; and a credit loop as text.
#![tactic(auto)]

mod channel_set;
mod column;
mod cycle;
mod cycle_text;
mod following;
pub mod laws;
mod network_order;
mod network_waits;
mod numbers;
mod order;
mod shortest_cycle;
mod waits;

pub use column::{add_across, add_column, edge_of, is_same_column};
pub use cycle_text::{ChannelKind, write_channel, write_cycle};
pub use network_order::channel_order;
pub use network_waits::channel_waits;
pub use order::{ChannelOrder, cycle_in, order_channels};
pub use waits::Waits;
