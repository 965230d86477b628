//! A simulated fabric: nodes, the cables between them, and the packets on their way.
#![tactic(auto)]

mod action;
mod build;
mod cables;
mod course;
mod delivered;
mod delivery;
mod envelope;
mod fabric;
mod fabric_fault;
mod flight;
mod flights;
mod inject;
pub mod laws;
mod notice;
mod packet;
mod peers;
mod ping;
mod seats;
mod trap_sending;
mod traps;

pub use delivered::{Delivered, Reason};
pub use fabric::Fabric;
pub use fabric_fault::FabricFault;
pub use flight::{Flight, Whereabouts};
pub use packet::Packet;
pub use ping::Ping;
