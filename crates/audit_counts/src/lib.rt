//! Counts of a subnet's packets, by component, and the differences between the facts and the tables that switches hold.
//! Also what facts leave open: nodes whose type or table room is unknown, and ports that are not known to be down, to
//! have a wire, or to be the end port of a switch.
#![tactic(auto)]

mod all_packets;
mod cause_counts;
mod disputed_facts;
mod fact_gaps;
mod first_few;
pub mod laws;
mod packet_tally;
mod pairs;
mod sent_packet;
mod site;
mod unmatched;

pub use all_packets::{PacketSurvey, survey};
pub use audit_ways::{
    Figures, LoadedChannel, PacketWay, WayFigures, figures_of_ways_known, loaded_channels,
    way_of_packet,
};
pub use cause_counts::Causes;
pub use disputed_facts::disputed;
pub use fact_gaps::{unjoined_ports, unusable_nodes};
pub use first_few::FirstFew;
pub use packet_tally::PacketTally;
pub use pairs::Pairs;
pub use sent_packet::SentPacket;
pub use site::{Site, are_adapters, index_of, site_in, sites};
pub use unmatched::Unmatched;
