//! The part of a file that an absorber waits for.
ghost use Rattle.std.specs.Prelude.{◌≡◌, length, None};
ghost use Rattle.record_file.specs.Feeding.{TakesAwaited, behind_magic as behind_magic_of};
ghost use Rattle.record_file.specs.Head.{format_in};

use crate::absorb_record::absorb_record;
use crate::file_fault::FileFault;
use crate::format::Format;
use crate::head::{HEADER_LEN, MAGIC_LEN, floor_told};
use fact_store::{Key, Store};

/// The next part of a file.
#[derive(Clone, Copy)]
pub(crate) enum Awaited {
    Magic,
    /// The header after the magic of a store file that has a floor.
    Header,
    /// The record at `index` of a file in `format`. `last` is the key of the cell in the record before it. `last` is
    /// `None` for the first record, and in a file of reports.
    Record {
        format: Format,
        index: u64,
        last: Option<Key>,
    },
}

impl Awaited {
    ghost use Rattle.std.specs.Prelude.{◌≡◌, ◌<◌, ◌^◌, length};
    ghost use Rattle.record_file.specs.Feeding.{TakesAwaited, awaited_size, ending_at, offset_of};

    /// Returns the length of the part in bytes.
    pub(crate) fn len(&self) -> usize
        ensures { result ≡ awaited_size self.now }
    {
        match self {
            Awaited::Magic => MAGIC_LEN,
            Awaited::Header => HEADER_LEN,
            Awaited::Record { format, .. } => format.record_len(),
        }
    }

    /// Returns the offset of the part in the file.
    pub(crate) fn offset(&self) -> u64
        requires { offset_of self.now < 2 ^ 40 }
        ensures { result ≡ offset_of self.now }
    {
        match self {
            Awaited::Magic => 0,
            Awaited::Header => MAGIC_LEN as u64,
            Awaited::Record { format, index, .. } => format.head_len() as u64
                + format.record_len() as u64 * index,
        }
    }

    /// Returns the outcome if the file ends after `count` bytes of the part.
    pub(crate) fn end(&self, count: usize) -> Result<(), FileFault>
        requires { offset_of self.now < 2 ^ 40 }
        ensures { result ≡ ending_at self.now count }
    {
        match self {
            Awaited::Magic => Err(FileFault::Magic),
            Awaited::Record { .. } if count == 0 => Ok(()),
            Awaited::Header | Awaited::Record { .. } => Err(FileFault::Truncated {
                offset: self.offset(),
            }),
        }
    }

    /// Judges the part `bytes` and adds its contents to `store`. Returns the part awaited next, its fault, or `Memory`.
    pub(crate) fn absorb(self, bytes: &[u8], store: &mut Store) -> Result<Awaited, FileFault>
        requires whole { length bytes.now ≡ awaited_size self }
        requires in_reach { offset_of self < 2 ^ 40 }
        ensures takes { TakesAwaited self bytes.now result store.old store.new }
    {
        match self {
            Awaited::Magic => behind_magic(bytes),
            Awaited::Header => absorb_header(bytes, store),
            Awaited::Record {
                format,
                index,
                last,
            } => {
                let behind = format;
                let last = absorb_record(format, last, bytes, index, store)?;
                Ok(Awaited::Record {
                    format: behind,
                    index: index + 1,
                    last,
                })
            }
        }
    }
}

/// Returns the part that is awaited after `front`, the first 8 bytes of a file, or the fault `Magic`.
fn behind_magic(front: &[u8]) -> Result<Awaited, FileFault>
    requires { length front.now ≡ 8 }
    ensures { result ≡ behind_magic_of (format_in front.now) }
{
    if front == b"IBSMREP1".as_slice() {
        Ok(first_record(Format::Reports))
    } else if front == b"IBSMSTO1".as_slice() {
        Ok(first_record(Format::Cells { floor: None }))
    } else if front == b"IBSMSTO2".as_slice() {
        Ok(Awaited::Header)
    } else {
        Err(FileFault::Magic)
    }
}

/// Raises the store's floor to that in the header `bytes`, and returns the part that is awaited next, or `BadFloor`.
fn absorb_header(bytes: &[u8], store: &mut Store) -> Result<Awaited, FileFault>
    requires { length bytes.now ≡ 8 }
    ensures takes { TakesAwaited Awaited.Header bytes.now result store.old store.new }
{
    let Some(floor) = floor_told(bytes) else {
        return Err(FileFault::BadFloor);
    };
    store.raise_floor(floor);
    Ok(first_record(Format::Cells { floor: Some(floor) }))
}

/// Returns the first record of a file in `format`, as the awaited part.
fn first_record(format: Format) -> Awaited
    ensures { result ≡ Awaited.Record format 0 None }
{
    Awaited::Record {
        format,
        index: 0,
        last: None,
    }
}
