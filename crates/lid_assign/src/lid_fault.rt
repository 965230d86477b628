ghost use Rattle.std.specs.Prelude.{◌≡◌};

use fact_store::Refused;
use std::alloc::AllocError;
use thiserror::Error;

/// Some end port finds no LID, since no range that fits below the room is left.
#[derive(Clone, Copy, Debug, PartialEq, Eq)]
pub struct NoRoom {
    /// The number of end ports.
    pub endports: usize,
    /// The room: the least table size of a usable switch, but at most 49152.
    pub room: u16,
}

/// Why no LIDs are assigned.
#[derive(Clone, Copy, Debug, PartialEq, Eq, Error)]
pub enum LidFault {
    /// Some end port finds no LID.
    #[error("NoRoom")]
    NoRoom(NoRoom),
    /// Memory for the LIDs was refused. With more memory, each end port would find a LID.
    #[error("Memory")]
    Memory,
}

impl LidFault {
    ghost use Rattle.lid_assign.specs.LidFault.{lid_fault_name};

    /// Returns the name that `{}` writes.
    pub fn name(self) -> &'static str
        ensures { result.now ≡ lid_fault_name self }
    {
        match self {
            LidFault::NoRoom(_) => "NoRoom",
            LidFault::Memory => "Memory",
        }
    }
}

impl From<AllocError> for LidFault {
    ghost use Rattle.std.specs.Prelude.{◌≡◌};
    ghost use Rattle.lid_assign.specs.declared.lid_fault.LidFault.TheVariants.{Memory};

    ghost from_gives = { λ e fault. fault ≡ Memory };

    fn from(_: AllocError) -> Self {
        LidFault::Memory
    }
}

impl From<Refused> for LidFault {
    ghost use Rattle.std.specs.Prelude.{◌≡◌};
    ghost use Rattle.lid_assign.specs.declared.lid_fault.LidFault.TheVariants.{Memory};

    ghost from_gives = { λ e fault. fault ≡ Memory };

    fn from(_: Refused) -> Self {
        LidFault::Memory
    }
}
