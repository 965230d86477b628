//! Laws of what a run prints.
#![tactic(auto)]

pub mod laws;
#[cfg(test)]
mod tests;
