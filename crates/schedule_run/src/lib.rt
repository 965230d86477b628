//! The run of a schedule in the fabric of a topology: both texts are read and judged, and then the commands are run, by
//! managers that sit in the fabric.
#![tactic(auto)]

mod ask;
mod cables;
mod commands;
mod deciders;
mod delivery;
mod merge;
mod run;
mod show;
mod texts;
mod waiting;
mod world;

pub use run::run_schedule;
pub use waiting::WaitTurn;
