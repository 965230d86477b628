use fact_store::Store;
use lft_blocks::Plan;
use smp_bytes::Guid;
use sweep::Sweep;

/// What subnet administration tells of: the facts, the plan that was written, the sweep that kept the PortInfo of
/// ports, the manager, and whether there is a multicast tree.
#[derive(Drop)]
pub struct Told<'t> {
    pub store: &'t Store,
    pub plan: &'t Plan,
    pub sweep: &'t Sweep,
    /// The port GUID of the manager.
    pub own: Guid,
    /// Whether the manager also writes the multicast tree.
    pub multicast: bool,
}
