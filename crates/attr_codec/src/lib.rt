//! The attributes that subnet management packets carry: 64 bytes and the values that they spell.
#![tactic(auto)]

mod attribute;
pub mod bits;
mod field_type;
pub mod laws;
mod lft_block;
mod lmc;
mod macros;
mod node_description;
mod node_info;
mod node_type_number;
mod port_info;
mod port_state;
mod priority;
mod sm_info;
mod sm_state_number;
mod switch_info;
mod vendor_id;

pub use attribute::Attribute;
pub use lft_block::LftBlock;
pub use lmc::Lmc;
pub use node_description::NodeDescription;
pub use node_info::NodeInfo;
pub use node_type_number::NodeTypeNumber;
pub use port_info::PortInfo;
pub use port_state::PortState;
pub use priority::Priority;
pub use sm_info::SmInfo;
pub use sm_state_number::SmStateNumber;
pub use switch_info::SwitchInfo;
pub use vendor_id::VendorId;
