ghost use Rattle.std.specs.Prelude.{◌≡◌};

use lid_assign::NoRoom;
use std::alloc::AllocError;
use sweep::SweepFault;
use thiserror::Error;

/// Why a manager refuses a call. A refused call leaves the manager as it was.
#[derive(Clone, Copy, Debug, PartialEq, Eq, Error)]
pub enum ManagerFault {
    /// The newest generation in the store is the greatest possible one.
    #[error("GenerationsSpent")]
    GenerationsSpent,
    /// A sweep has begun and is not done.
    #[error("SweepRunning")]
    SweepRunning,
    /// The manager is not in the state Master, or has begun no sweep.
    #[error("NotMaster")]
    NotMaster,
    /// A step of a writing is outstanding.
    #[error("WritingRunning")]
    WritingRunning,
    /// The manager is not in the state Standby.
    #[error("NotStandby")]
    NotStandby,
    /// The last sweep saw no manager to poll or to hand over to, there is no path to the manager to poll, or the plan
    /// has no LID for the port where the successor was seen.
    #[error("Nobody")]
    Nobody,
    /// A request needs, or could need, a number that does not fit in 32 bits.
    #[error("SequenceSpent")]
    SequenceSpent,
    /// Some end port finds no LID in the plan.
    #[error("NoRoom")]
    NoRoom(NoRoom),
    /// The bytes are not a packet, or the sweep refuses the reply for a reason other than lack of memory.
    #[error("{0}")]
    Sweep(SweepFault),
    /// The packet answers no outstanding request, or no outstanding request has the TransactionID that timed out.
    #[error("Unasked")]
    Unasked,
    /// Memory ran out.
    #[error("Memory")]
    Memory,
}

impl ManagerFault {
    ghost use Rattle.sm_manager.specs.Fault.{manager_fault_name};

    /// Returns the name that `{}` writes. If the fault is `Sweep`, this is the name of the sweep's fault.
    pub fn name(self) -> &'static str
        ensures { result.now ≡ manager_fault_name self }
    {
        match self {
            ManagerFault::GenerationsSpent => "GenerationsSpent",
            ManagerFault::SweepRunning => "SweepRunning",
            ManagerFault::NotMaster => "NotMaster",
            ManagerFault::WritingRunning => "WritingRunning",
            ManagerFault::NotStandby => "NotStandby",
            ManagerFault::Nobody => "Nobody",
            ManagerFault::SequenceSpent => "SequenceSpent",
            ManagerFault::NoRoom(_) => "NoRoom",
            ManagerFault::Sweep(fault) => fault.name(),
            ManagerFault::Unasked => "Unasked",
            ManagerFault::Memory => "Memory",
        }
    }
}

impl From<AllocError> for ManagerFault {
    ghost use Rattle.std.specs.Prelude.{◌≡◌};
    ghost use Rattle.sm_manager.specs.declared.fault.ManagerFault.TheVariants.{Memory};

    ghost from_gives = { λ _ fault. fault ≡ Memory };

    fn from(_: AllocError) -> Self {
        ManagerFault::Memory
    }
}
