//! An audit of forwarding tables, on one lane and by lane: from files, as text.
#![tactic(auto)]

mod audit_run;
mod flaw;
mod flaws;
mod lane_findings;
mod lane_text;
mod level_row;
mod levels_missing;
mod verdict_text;

pub use audit_run::run_audit;
