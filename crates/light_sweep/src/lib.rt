//! Light sweeps: each switch that a sweep reached is asked for SwitchInfo alone, in place of another sweep.
#![tactic(auto)]

mod light_sweep;

pub use light_sweep::{is_same, light_request};
