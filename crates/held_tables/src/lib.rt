//! The forwarding tables that a subnet's switches hold, whoever wrote them, together with the facts about its switches,
//! end ports and wires.
#![tactic(auto)]

mod audited_switch;
mod blocks;
mod chains;
mod far_end;
mod far_ends;
mod held;
mod held_item;
mod lines;
mod owners;
mod senders;
mod wired_subnet;
mod wired_switch;

pub use audited_switch::{AuditedSwitch, index_of, top_at};
pub use blocks::{block_chains, block_rows};
pub use chains::Chains;
pub use far_end::Far;
pub use far_ends::FarEnds;
pub use held::{Held, HeldBlock, HeldLid, HeldSwitch, push_lids};
pub use held_item::{HeldItem, HeldRange};
pub use lines::lines_of;
pub use owners::{
    Owner, has_several_owners, is_same_end, is_sole_owner, lid_owners, owners_of, sole_owner,
};
pub use senders::Sender;
pub use wired_subnet::WiredSubnet;
pub use wired_switch::WiredSwitch;
