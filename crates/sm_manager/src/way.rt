ghost use Rattle.std.specs.Prelude.{◌≡◌};
ghost use Rattle.sm_manager.specs.Election.{info_packet, lid_of_way, path_of_way};

use smp_bytes::{AttributeId, Lid, Method, Path, Smp};

/// How a request to another manager is routed.
#[derive(Debug, Drop)]
pub enum Way {
    /// By LIDs, to this LID.
    ToLid(Lid),
    /// By a directed route, along this path.
    Along(Path<63>),
}

impl Way {
    /// Returns the LID to which this way leads, or `None` if it is a path.
    pub(crate) fn lid(&self) -> Option<Lid>
        ensures { result ≡ lid_of_way self.now }
    {
        match self {
            Way::ToLid(lid) => Some(*lid),
            Way::Along(_) => None,
        }
    }

    /// Returns the path of this way, or `None` if it goes by LIDs.
    pub(crate) fn into_path(self) -> Option<Path<63>>
        ensures { result ≡ path_of_way self }
    {
        match self {
            Way::ToLid(_) => None,
            Way::Along(path) => Some(path),
        }
    }

    /// Returns the packet of a request that goes this way: `method` of SMInfo, with the number `number`, which must fit
    /// in 32 bits.
    pub(crate) fn packet(
        &self,
        method: Method,
        modifier: u32,
        number: u64,
        payload: &[u8; 64],
    ) -> Smp
        ensures { result ≡ info_packet method.0 modifier number self.now payload.now }
    {
        match self {
            Way::ToLid(_) => {
                Smp::lid_routed(method, AttributeId::SM_INFO, modifier, number, payload)
            }
            Way::Along(path) => Smp::directed(
                method,
                AttributeId::SM_INFO,
                modifier,
                number,
                path,
                payload,
            ),
        }
    }
}
