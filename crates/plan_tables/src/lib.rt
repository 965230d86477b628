//! The tables of a plan, as held tables.
#![tactic(auto)]

mod plan_tables;

pub use lft_blocks::{LidMap, block_count, write_block, write_lids, write_switch};
pub use plan_tables::held_plan;
