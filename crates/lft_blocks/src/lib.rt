//! The plan of a subnet: a LID for each end port, and the forwarding table of each usable switch, in blocks of 64
//! entries.
#![tactic(auto)]

mod attachment;
mod block;
pub mod laws;
mod lid_numbers;
mod order;
mod plan;
mod plan_text;
mod planning;
mod rule;
mod spread_table;
mod table;
mod table_row;
mod updown_table;

pub use block::block_count;
pub use lid_assign::{LidFault as PlanFault, LidMap};
pub use order::switch_order;
pub use plan::Plan;
pub use plan_text::{write_block, write_lid, write_lids, write_plan, write_switch};
pub use planning::Planning;
pub use rule::Rule;
pub use spread_routes::SwitchOrder;
pub use table::Table;
