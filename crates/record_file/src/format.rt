//! The formats of files. The head of a file gives its format.
use crate::head::{HEADER_LEN, MAGIC_LEN};
use crate::{cell_record, report_record};
use smp_bytes::Generation;

/// The format of a file, which determines its records.
#[derive(Clone, Copy)]
pub(crate) enum Format {
    /// Reports, in any order.
    Reports,
    /// The cells of a store, in the order of keys. No cell is below `floor`, the floor of the header. `floor` is `None`
    /// if the file has no header.
    Cells { floor: Option<Generation> },
}

impl Format {
    ghost use Rattle.std.specs.Prelude.{◌≡◌};
    ghost use Rattle.record_file.specs.Head.{head_size};
    ghost use Rattle.record_file.specs.Reading.{record_size};

    /// Returns the number of bytes before the records.
    pub(crate) fn head_len(self) -> usize
        ensures { result ≡ head_size self }
    {
        match self {
            Format::Reports | Format::Cells { floor: None } => MAGIC_LEN,
            Format::Cells { floor: Some(_) } => MAGIC_LEN + HEADER_LEN,
        }
    }

    /// Returns the number of bytes of a record.
    pub(crate) fn record_len(self) -> usize
        ensures { result ≡ record_size self }
    {
        match self {
            Format::Reports => report_record::RECORD_LEN,
            Format::Cells { .. } => cell_record::RECORD_LEN,
        }
    }
}
