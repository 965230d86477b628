//! Tests of packets, attributes and steps on directed routes by their public calls. They are a crate of their own, so
//! that checking them does not prove the tested crates again.
#![tactic(auto)]

#[cfg(test)]
mod tests;
