ghost use Rattle.std.specs.Prelude.{◌≡◌};

use attr_codec::{Lmc, PortState};
use smp_bytes::Lid;

/// The values of a port that its agent keeps.
#[derive(Clone, Copy)]
pub struct Port {
    /// The base LID of the port, or 0 if it has none.
    pub(crate) base_lid: Lid,
    /// The LMC: a port with a LID has the 2^LMC LIDs that start at its base LID.
    pub(crate) lmc: Lmc,
    /// The LID that was set at the port as the subnet manager's, or 0 if none was set.
    pub(crate) master_sm_lid: Lid,
    pub(crate) state: PortState,
    /// IsSM: whether a subnet manager sits at the port.
    pub(crate) is_sm: bool,
}

impl Port {
    ghost use Rattle.node_agents.specs.Agent.{port_in};

    /// Creates a port in the state `state`, without LIDs and without a subnet manager.
    pub(crate) fn in_state(state: PortState) -> Self
        ensures { result ≡ port_in state }
    {
        Port {
            base_lid: Lid::NONE,
            lmc: Lmc::ZERO,
            master_sm_lid: Lid::NONE,
            state,
            is_sm: false,
        }
    }
}
