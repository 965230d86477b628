ghost use Rattle.std.specs.Prelude.{◌≡◌, Some, None};

use byte_io::PieceFault;
use fact_store::ReportFault;
use thiserror::Error;

/// Why a file was rejected, or not read to its end. Offsets count bytes, and indices count records, from 0.
#[derive(Clone, Copy, Debug, PartialEq, Eq, Error)]
pub enum FileFault {
    /// The file has fewer than 8 bytes, or the first 8 bytes are not a magic.
    #[error("bad magic")]
    Magic,
    /// The input ends within the header or the record that begins at `offset`.
    #[error("truncated at {offset}")]
    Truncated { offset: u64 },
    #[error("bad report {index}: {fault}")]
    BadReport { index: u64, fault: ReportFault },
    #[error("bad cell {index}")]
    BadCell { index: u64 },
    #[error("cell out of order {index}")]
    CellOrder { index: u64 },
    /// The source failed.
    #[error("read failed")]
    Read,
    #[error("out of memory")]
    Memory,
    /// The file had not ended after 2^40 bytes, or after 2^40 calls that gave bytes or were interrupted.
    #[error("too long")]
    TooLong,
    /// The header of a store file has floor 0, or has a byte other than 0 after the floor.
    #[error("bad floor")]
    BadFloor,
}

impl From<PieceFault> for FileFault {
    ghost use Rattle.record_file.specs.PieceFault.{file_fault_of};

    ghost from_gives = { λ fault f. f ≡ file_fault_of fault };

    fn from(fault: PieceFault) -> FileFault {
        match fault {
            PieceFault::Read => FileFault::Read,
            PieceFault::TooLong => FileFault::TooLong,
        }
    }
}

impl FileFault {
    ghost use Rattle.record_file.specs.FileFault.{fault_words, fault_number, fault_of_report, is_of_file};

    /// Returns the fault's text up to its number, or the whole text if the fault has no number.
    pub fn words(&self) -> &'static str
        ensures { result.now ≡ fault_words self.now }
    {
        match self {
            FileFault::Magic => "bad magic",
            FileFault::Truncated { .. } => "truncated at ",
            FileFault::BadReport { .. } => "bad report ",
            FileFault::BadCell { .. } => "bad cell ",
            FileFault::CellOrder { .. } => "cell out of order ",
            FileFault::Read => "read failed",
            FileFault::Memory => "out of memory",
            FileFault::TooLong => "too long",
            FileFault::BadFloor => "bad floor",
        }
    }

    /// Returns the offset in the fault, or the index of the record that the fault names. Returns `None` if the fault
    /// has neither.
    pub fn number(&self) -> Option<u64>
        ensures { result ≡ fault_number self.now }
    {
        match *self {
            FileFault::Truncated { offset } => Some(offset),
            FileFault::BadReport { index, .. }
            | FileFault::BadCell { index }
            | FileFault::CellOrder { index } => Some(index),
            _ => None,
        }
    }

    /// Returns the fault of the report if the fault is `BadReport`, and `None` otherwise.
    pub fn report_fault(&self) -> Option<ReportFault>
        ensures { result ≡ fault_of_report self.now }
    {
        match *self {
            FileFault::BadReport { fault, .. } => Some(fault),
            _ => None,
        }
    }

    /// Returns whether the fault lies with the file or its source. This is `false` only for `Memory`.
    pub fn is_of_file(&self) -> bool
        ensures { result ≡ is_of_file self.now }
    {
        !matches!(self, FileFault::Memory)
    }
}
