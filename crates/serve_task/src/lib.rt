//! The task of serving a manager by lines. The text that the manager's rule of routing takes is read first.
#![tactic(auto)]

mod no_files;
mod seating;
mod serving;

pub use seating::Seating;
pub use serving::run_serve;
