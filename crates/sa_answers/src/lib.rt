//! Answers of subnet administration: who it is, and paths between end ports by the tables of a plan.
#![tactic(auto)]

mod answer;
mod bound;
mod ends;
pub mod laws;
mod member_reply;
mod node_reply;
mod path_reply;
mod port_reply;
mod rates;
mod reply;
mod told;
mod way;

pub use answer::answer_of;
pub use bound::Bound;
pub use reply::{Reply, SaRefusal};
pub use told::Told;
