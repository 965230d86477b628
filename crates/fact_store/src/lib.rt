//! The view of a subnet, which is what all its sightings give together.
#![tactic(auto)]

mod cells;
mod fingers;
mod ingest;
mod iter;
pub mod laws;
mod readers;
mod search;
mod store;

pub use ingest::IngestFault;
pub use iter::Cells;
pub use reply_facts::{
    Cell, Context, Key, Report, ReportFault, Sighting, Value, answer_fault, is_up, sightings,
    sightings_in,
};
pub use store::{Refused, Store};
