use byte_io::WriteFault;
use schedule_lines::RunFault;

/// Why serving stopped before the end of the lines.
#[derive(Clone, Copy, Debug, PartialEq, Eq)]
pub enum ServeFault {
    /// No more bytes can be read, although the lines have not ended.
    Read,
    /// A write to the output failed.
    Write,
    /// Memory ran out.
    Memory,
}

impl From<WriteFault> for ServeFault {
    ghost use Rattle.std.specs.Prelude.{◌≡◌};
    ghost use Rattle.serve_run.specs.declared.serve_fault.ServeFault.TheVariants.{Write};

    ghost from_gives = { λ e fault. fault ≡ Write };

    fn from(_: WriteFault) -> Self {
        ServeFault::Write
    }
}

impl From<RunFault> for ServeFault {
    ghost use Rattle.std.specs.Prelude.{◌≡◌};
    ghost use Rattle.serve_run.specs.Server.{fault_of_run};

    ghost from_gives = { λ e fault. fault ≡ fault_of_run e };

    fn from(fault: RunFault) -> Self {
        match fault {
            RunFault::Write => ServeFault::Write,
            RunFault::Memory => ServeFault::Memory,
        }
    }
}
