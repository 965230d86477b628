//! Laws of whole runs. The facts that a sweep accepts are true, except for the LIDs that ports claim. A sweep makes few
//! requests, and is done once each was answered or given up; with every answer, it has found exactly the part of the
//! fabric that is joined to its seat. A plan that is written is held, and then pings arrive. Managers that see the same
//! subnet, with the same claims of LIDs, have the same plan, and so has a standby that sweeps a subnet that holds a
//! plan. Several masters may sweep and write on one fabric at once, in any order. A writing asks each step of its plan
//! once, and is over once each has ended.
#![tactic(auto)]

pub mod laws;
