//! Laws of live processes at a fabric: of one that is served by lines and of what it prints, of one that decides by
//! itself, and of steps that managers write while packets travel.
#![tactic(auto)]

pub mod laws;
