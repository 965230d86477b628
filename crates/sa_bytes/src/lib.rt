//! Packets and records of subnet administration (SA): requests are read, and answers are written.
#![tactic(auto)]

mod class_port_info;
mod field;
pub mod laws;
mod member_record;
mod node_record;
mod numbers;
mod path_record;
mod port_info_record;
mod sa_request;

pub use class_port_info::{CLASS_PORT_INFO_BYTES, sa_class_port_info};
pub use member_record::MemberRecord;
pub use node_record::{NODE_RECORD_BYTES, NodeRecord};
pub use numbers::{SaAttributeId, SaMethod, SaStatus};
pub use path_record::PathRecord;
pub use port_info_record::{PORT_INFO_RECORD_BYTES, PortInfoRecord};
pub use sa_request::SaRequest;
