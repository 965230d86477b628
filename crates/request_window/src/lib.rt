//! The requests of a manager on their way: those that wait for their turn, and those that are out. Keeps few requests
//! out at a time, tells which are to be sent again since no answer came in time, and gives them up after a few times.
//! Does no input or output itself.
#![tactic(auto)]

mod answers;
mod late;
pub mod laws;
mod limits;
mod out;
mod overdue;
mod window;

pub use late::Late;
pub use limits::Limits;
pub use out::Out;
pub use window::Window;
