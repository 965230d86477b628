//! Facts of a subnet, each with its key, and the facts that a reply contains.
#![tactic(auto)]

mod cell_form;
mod key;
mod report;
mod report_facts;
mod report_fault;
mod sighting;
mod value;

pub use fact_join::Cell;
pub use key::Key;
pub use report::{Context, Report};
pub use report_facts::{answer_fault, is_up, sightings, sightings_in};
pub use report_fault::ReportFault;
pub use sighting::Sighting;
pub use value::Value;
