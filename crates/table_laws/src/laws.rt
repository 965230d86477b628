//! The laws of audits, of plans and their orders, and of repeated steps.

pub mod audits;
pub mod plan_orders;
pub mod step_ends;
