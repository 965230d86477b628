//! The states of a subnet manager: how it moves between them, and which of two managers wins.
#![tactic(auto)]

mod conduct;
mod control;
mod election;
mod event;
pub mod laws;
mod precedence;
mod standing;
mod state;
mod transition;
mod transitions;

pub use conduct::Conduct;
pub use control::Control;
pub use election::{SeenManager, greatest_in, heir, polled, successor, sweep_verdict};
pub use event::{Event, Message};
pub use precedence::wins;
pub use standing::Standing;
pub use state::SmState;
pub use transition::Transition;
pub use transitions::step;
