//! Laws of the tables that switches hold and of plans. Plans pass an audit, and if tables pass, packets arrive. Plans
//! are right by the order of their rule. Repeated steps towards a plan end.
#![tactic(auto)]

pub mod laws;
