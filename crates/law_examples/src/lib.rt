//! Examples: premises of laws that are met, and what laws say beyond weaker ones.
#![tactic(auto)]

pub mod laws;
