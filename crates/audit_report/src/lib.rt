//! What the forwarding tables that the switches of a subnet hold do with packets, as text: which packets do not arrive,
//! where tables and facts differ, and whether channels can wait for each other in a credit loop.
#![tactic(auto)]

mod appendix;
mod audit_text;
mod findings;
mod line_limit;

pub use appendix::Appendix;
pub use audit_text::{write_findings, write_loop, write_more};
pub use findings::Audit;
pub use line_limit::most_lines;
