ghost use Rattle.std.specs.Prelude.{◌≡◌};
ghost use Rattle.plan_steps.specs.Step.{set_packet, step_at};

use smp_bytes::{AttributeId, Guid, Method, Path, PortNum, Smp};
use sweep::Sweep;

/// An attribute to be set at an agent along a directed route (subnet management, SubnSet).
#[derive(Debug, Drop)]
pub struct Step {
    /// The path to the agent.
    pub path: Path<63>,
    /// The number of the attribute.
    pub attribute: u16,
    /// The port for PortInfo, the number of the block for a forwarding block, and 0 otherwise.
    pub modifier: u32,
    /// The 64 bytes of the attribute.
    pub payload: [u8; 64],
}

impl Step {
    /// Returns the packet of the step, a Set with the TransactionID `transaction`.
    pub fn packet(&self, transaction: u64) -> Smp
        ensures { result ≡ set_packet transaction self.now }
    {
        Smp::directed(
            Method::SET,
            AttributeId(self.attribute),
            self.modifier,
            transaction,
            &self.path,
            &self.payload,
        )
    }
}

/// Builds the step that sets `payload` along the path that first reached the vertex of `guid` with the port `vertex`.
pub(crate) fn step_at(
    sweep: &Sweep,
    guid: Guid,
    vertex: PortNum,
    attribute: AttributeId,
    modifier: u32,
    payload: [u8; 64],
) -> Option<Step>
    ensures { result ≡ step_at sweep.now guid vertex attribute.0 modifier payload }
{
    let path = sweep.path_to(guid, vertex)?;
    Some(Step {
        path: path.copy(),
        attribute: attribute.0,
        modifier,
        payload,
    })
}
