//! Subnet management packets and the numbers that they carry, each with a type of its own.
#![tactic(auto)]

mod field;
mod generation;
mod guid;
mod header;
pub mod laws;
mod lft;
mod lid;
mod node_type;
mod path;
mod port_num;
mod smp;
mod smp_fault;
pub mod wire;

pub use generation::Generation;
pub use guid::Guid;
pub use header::{AttributeId, Method, SmpClass, Status};
pub use lft::{LAST_BLOCK, NO_ENTRY};
pub use lid::Lid;
pub use node_type::NodeType;
pub use path::Path;
pub use port_num::PortNum;
pub use smp::{PERMISSIVE_LID, Smp};
pub use smp_fault::SmpFault;
