//! A file that comes in pieces.
ghost use Rattle.std.specs.Prelude.{◌≡◌, ◌+◌, ◌<◌, ◌≤◌, ◌^◌, [], length};
ghost use Rattle.record_file.specs.Feeding.{Absorbing, FeedsPiece, Finishes, WasFed, IsInReach, IsShortOf};
ghost use Rattle.record_file.specs.Feeding.{TakesFront, TakesPiece, offset_of};

use crate::awaited::Awaited;
use crate::file_fault::FileFault;
use crate::report_record::RECORD_LEN;
use arrayvec::ArrayVec;
use byte_io::READ_LIMIT;
use fact_store::Store;
use std::marker::Model;

/// The bytes of the awaited part that came with earlier pieces. No part is longer than a record of a report.
type Part = ArrayVec<u8, RECORD_LEN>;

/// A reader of a file that comes in pieces. Judges each record once its last byte has come. A record that lies whole
/// within a piece is judged there; any other record is put together first. Allocates only what the store needs.
#[derive(Drop)]
pub struct Absorber {
    awaited: Result<Awaited, FileFault>,
    part: Part,
}

impl Model for Absorber {
    ghost Value = { Absorbing };

    ghost view = { λ a. record { awaited = a.awaited; part = a.part.items } };

    ghost invariant = { λ a. IsInReach a.awaited a.part.items };
}

impl Absorber {
    /// Creates an absorber that waits for a file's magic.
    pub fn new() -> Self
        ensures { WasFed result [] }
    {
        Absorber {
            awaited: Ok(Awaited::Magic),
            part: ArrayVec::new(),
        }
    }

    /// Adds to `store` the contents of the header and of the records that `piece` completes.
    ///
    /// # Errors
    ///
    /// Returns `Magic` if the first 8 bytes are not a magic, and `BadFloor` if the header is bad. Returns `BadReport`,
    /// `BadCell` or `CellOrder` if a record has such a fault, and `Memory` if memory runs out while a record is added.
    /// Returns `TooLong` at the 2^40th byte. The first fault counts. The store then has the floor and the contents of
    /// the records before the fault. Every later call returns this error and changes nothing.
    pub fn feed(&mut self, piece: &[u8], store: &mut Store) -> Result<(), FileFault>
        ensures feeds { FeedsPiece self.old piece.now result self.new store.old store.new }
    {
        let awaited = match self.awaited {
            Ok(awaited) => awaited,
            Err(fault) => return Err(fault),
        };
        self.awaited = take_piece(awaited, &mut self.part, piece, store);
        match self.awaited {
            Ok(_) => Ok(()),
            Err(fault) => Err(fault),
        }
    }

    /// Ends the file.
    ///
    /// # Errors
    ///
    /// Returns the fault that `feed` returned, if `feed` returned a fault. Otherwise returns `Magic` if the file has
    /// fewer than 8 bytes, and `Truncated` if the file ends within a header or a record.
    pub fn finish(self) -> Result<(), FileFault>
        ensures finishes { Finishes self result }
    {
        let Absorber { awaited, part } = self;
        match awaited {
            Ok(awaited) => awaited.end(part.len()),
            Err(fault) => Err(fault),
        }
    }
}

/// Takes the bytes of `piece` up to the file's 2^40th byte. Returns the part that is awaited after these bytes, or the
/// first fault. If the file reaches its 2^40th byte without another fault, the fault is `TooLong`.
fn take_piece(
    awaited: Awaited,
    part: &mut Part,
    piece: &[u8],
    store: &mut Store,
) -> Result<Awaited, FileFault>
    requires in_reach { IsInReach (Ok awaited) part.old.items }
    ensures in_reach { IsInReach result part.new.items }
    ensures takes { TakesPiece awaited part.old.items piece.now result part.new.items
        store.old store.new }
{
    let reach = (READ_LIMIT - awaited.offset()) as usize - part.len();
    let count = piece.len().min(reach);
    let mut rest = &piece[..count];
    let mut next = awaited;
    while !rest.is_empty() {
        let (behind, taken) = take_front(next, part, rest, store)?;
        next = behind;
        rest = &rest[taken..];
    }
    if count == reach {
        return Err(FileFault::TooLong);
    }
    Ok(next)
}

/// Takes those of `bytes` that belong to the awaited part. Returns the part that is awaited after the taken bytes, and
/// how many bytes were taken. Returns the fault instead if the awaited part has one, or if memory runs out.
fn take_front(
    awaited: Awaited,
    part: &mut Part,
    bytes: &[u8],
    store: &mut Store,
) -> Result<(Awaited, usize), FileFault>
    requires some { 0 < length bytes.now }
    requires short { IsShortOf awaited part.old.items }
    requires in_reach { offset_of awaited + length part.old.items + length bytes.now ≤ 2 ^ 40 }
    ensures takes { TakesFront awaited part.old.items bytes.now result part.new.items
        store.old store.new }
{
    let size = awaited.len();
    if part.is_empty() && bytes.len() >= size {
        let behind = awaited.absorb(&bytes[..size], store)?;
        return Ok((behind, size));
    }
    let count = bytes.len().min(size - part.len());
    match part.try_extend_from_slice(&bytes[..count]) {
        Ok(()) => {}
        Err(_) => unreachable!(),
    }
    if part.len() < size {
        return Ok((awaited, count));
    }
    let behind = awaited.absorb(part.as_slice(), store)?;
    part.clear();
    Ok((behind, count))
}
