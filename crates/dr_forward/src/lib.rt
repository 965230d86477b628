//! What a node does with a packet on a directed route.
#![tactic(auto)]

mod directed_step;
mod here;
pub mod laws;
mod verdict;

pub use directed_step::step;
pub use here::Here;
pub use verdict::{DiscardReason, Verdict};
