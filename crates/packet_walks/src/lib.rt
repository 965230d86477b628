//! Where packets end by the forwarding tables that a subnet's switches hold, whoever wrote them.
#![tactic(auto)]

mod block_deliveries;
mod cause;
mod ends_by_sender;
pub mod ends_by_switch;
mod entry;
mod hops_by_tables;
pub mod laws;
mod lid_cursor;
mod lid_set;
mod network;
mod next_hop;
mod packet_end;

pub use cause::Cause;
pub use ends_by_sender::Ends;
pub use held_tables::{Far, Sender, is_same_end};
pub use lid_cursor::LidCursor;
pub use network::Network;
pub use next_hop::{NextHop, SwitchStep};
pub use packet_end::{End, is_at};
