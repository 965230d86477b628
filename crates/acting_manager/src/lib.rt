//! A subnet manager that decides by itself when it sweeps, writes, polls and hands over. The caller tells it the time,
//! the packets that arrive, and when to look or to leave; it is asked for the packets to send, for what to note, and
//! for when it is to be told the time next. It does no input or output itself, and reads no clock.
#![tactic(auto)]

mod acting_manager;
mod acts;
mod administration;
mod asks;
mod drops;
mod heard;
mod judging;
pub mod laws;
mod note;
mod plans;
mod reads;
mod working;

pub use acting_manager::ActingManager;
pub use note::Note;
pub use reads::Reads;
