//! Routes of packets between adapters by the forwarding tables that a subnet's switches hold: how many wires they take,
//! how often each channel is taken, and which channels one of them takes.
#![tactic(auto)]

mod channel_list;
mod channel_loads;
mod mean;
mod packet_way;
mod roster;
mod sender_groups;
mod way_figures;
mod way_tally;

pub use channel_list::{LoadedChannel, loaded_channels};
pub use mean::Figures;
pub use packet_way::{PacketWay, way_of_packet};
pub use sender_groups::is_adapter;
pub use way_figures::{WayFigures, figures_of_ways, figures_of_ways_known};
