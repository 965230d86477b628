//! A rule of routing that spreads routes over the wires.
#![tactic(auto)]

mod adapter_choices;
mod adapters;
mod exits;
mod index;
pub mod laws;
mod leaf_order;
mod lid_digit;
mod spread;
mod switch_adapters;
mod switch_keys;
mod switch_order;

pub use adapters::{adapters_of, most_adapters};
pub use exits::Exits;
pub use leaf_order::leaf_numbers;
pub use spread::{Spread, Towards};
pub use switch_adapters::SwitchAdapters;
pub use switch_keys::switches_in_order;
pub use switch_order::SwitchOrder;
