ghost use Rattle.std.specs.Prelude.{◌≡◌};

use crate::text_fault::TextFault;
use byte_io::WriteFault;
use fact_store::Refused;
use lid_assign::{LidFault, NoRoom};
use record_file::FileFault;
use std::alloc::AllocError;
use thiserror::Error;

/// Why a run failed. `input` is the index of an input among the inputs of the run.
#[derive(Clone, Copy, Debug, PartialEq, Eq, Error)]
pub enum Fault {
    /// The file cannot be opened.
    #[error("cannot open")]
    Open { input: usize },
    /// The file has a fault, a read failed, or memory was refused while it was read.
    #[error("{fault}")]
    File { input: usize, fault: FileFault },
    /// The text has a fault, or memory was refused while it was checked.
    #[error("{fault}")]
    Text { input: usize, fault: TextFault },
    /// The smallest forwarding table lacks room for the LIDs of all end ports and LID 0.
    #[error("no room: {} end ports, room {}", .0.endports, .0.room)]
    NoRoom(NoRoom),
    /// A write to the output failed.
    #[error("write failed")]
    Write,
    /// Memory was refused, but not while a file was read or a text was checked.
    #[error("out of memory")]
    Memory,
}

impl From<WriteFault> for Fault {
    ghost use Rattle.std.specs.Prelude.{◌≡◌};
    ghost use Rattle.sm_cli.specs.declared.fault.Fault.TheVariants.{Write};

    ghost from_gives = { λ e fault. fault ≡ Write };

    fn from(_: WriteFault) -> Self {
        Fault::Write
    }
}

impl From<AllocError> for Fault {
    ghost use Rattle.std.specs.Prelude.{◌≡◌};
    ghost use Rattle.sm_cli.specs.declared.fault.Fault.TheVariants.{Memory};

    ghost from_gives = { λ e fault. fault ≡ Memory };

    fn from(_: AllocError) -> Self {
        Fault::Memory
    }
}

impl From<Refused> for Fault {
    ghost use Rattle.std.specs.Prelude.{◌≡◌};
    ghost use Rattle.sm_cli.specs.declared.fault.Fault.TheVariants.{Memory};

    ghost from_gives = { λ e fault. fault ≡ Memory };

    fn from(_: Refused) -> Self {
        Fault::Memory
    }
}

impl From<LidFault> for Fault {
    ghost use Rattle.std.specs.Prelude.{◌≡◌};
    ghost use Rattle.sm_cli.specs.Fault.{fault_of_lids};

    ghost from_gives = { λ e fault. fault ≡ fault_of_lids e };

    fn from(fault: LidFault) -> Self {
        match fault {
            LidFault::NoRoom(why) => Fault::NoRoom(why),
            LidFault::Memory => Fault::Memory,
        }
    }
}
