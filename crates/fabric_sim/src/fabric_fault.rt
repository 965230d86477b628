ghost use Rattle.std.specs.Prelude.{◌≡◌};

use std::alloc::AllocError;
use thiserror::Error;

/// Why a fabric refuses a call. A refused call leaves the fabric as it was.
#[derive(Clone, Copy, Debug, PartialEq, Eq, Error)]
pub enum FabricFault {
    /// No packet in flight has the given serial number.
    #[error("NoSuchPacket")]
    NoSuchPacket,
    /// The port does not exist, or the call cannot use it. `seat` needs an adapter's port, and `inject` needs a seat.
    /// `plug` needs ports other than port 0, and `cut` needs a port with a cable. `ping` takes any port, but port 0
    /// only of a switch.
    #[error("NoSuchPort")]
    NoSuchPort,
    /// A subnet manager sits at the port already (`seat`), or there is a cable in the port already (`plug`).
    #[error("PortTaken")]
    PortTaken,
    /// Memory ran out.
    #[error("Memory")]
    Memory,
    /// No serial number is left.
    #[error("SerialsSpent")]
    SerialsSpent,
}

impl FabricFault {
    ghost use Rattle.fabric_sim.specs.FabricFault.{fabric_fault_name};

    /// Returns the name of the fault, as `{}` writes it.
    pub fn name(self) -> &'static str
        ensures { result.now ≡ fabric_fault_name self }
    {
        match self {
            FabricFault::NoSuchPacket => "NoSuchPacket",
            FabricFault::NoSuchPort => "NoSuchPort",
            FabricFault::PortTaken => "PortTaken",
            FabricFault::Memory => "Memory",
            FabricFault::SerialsSpent => "SerialsSpent",
        }
    }
}
