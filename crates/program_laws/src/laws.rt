//! The laws of a process that is served by lines, of one that decides by itself, and of live steps.

pub mod healing;
pub mod live_steps;
pub mod managed;
pub mod managed_writings;
pub mod serve;
