//! The manager that is asked for.
use crate::asked::RuleAsked;
use attr_codec::{Lmc, Priority};
use smp_bytes::{Guid, PortNum};

/// The manager that is to be served, and how the manager plans.
#[derive(Clone, Copy, Debug, PartialEq, Eq)]
pub struct Serving {
    /// The GUID of the port at which the manager sits.
    pub guid: Guid,
    /// The number of the port at which the manager sits.
    pub port: PortNum,
    pub priority: Priority,
    /// The SM_Key of the manager.
    pub sm_key: u64,
    /// The LMC of the manager's plans: a plan has 2^LMC LIDs for each adapter port.
    pub lmc: Lmc,
    pub rule: RuleAsked,
    /// Whether the manager also writes the multicast tree.
    pub multicast: bool,
}
