//! A manager that is served by lines: what each line does and prints.
#![tactic(auto)]

mod decided;
mod light;
mod managers;
mod notes;
mod outgoing;
mod seated;
mod serve_fault;
mod served;
mod server;

pub use acting_manager::ActingManager;
pub use notes::note_all;
pub use seated::ServedManager;
pub use serve_fault::ServeFault;
pub use server::serve;
