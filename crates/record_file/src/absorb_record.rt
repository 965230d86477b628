//! The effect of a file's record on a store.
ghost use Rattle.std.specs.Prelude.{◌≡◌, length, IfOk};
ghost use Rattle.reply_facts.specs.Key.{is_above};
ghost use Rattle.record_file.specs.Absorbs.{AbsorbsJudged};
ghost use Rattle.record_file.specs.Reading.{is_at_told as is_at_floor_told, judged, key_in, record_size};
ghost use Rattle.record_file.specs.declared.format.Format.TheVariants.{Reports, Cells};

use crate::cell_record::cell_of;
use crate::file_fault::FileFault;
use crate::format::Format;
use crate::report_record::report_of;
use fact_store::{Cell, IngestFault, Key, ReportFault, Store, Value};
use smp_bytes::Generation;

/// Adds the contents of the record `bytes` to `store`. Returns the key of the record's cell, or `None` if the record is
/// a report. Fails with the record's fault, at `index`, or with `Memory`. `index` is the index of the record in its
/// file, and `last` the key of the cell in the record before it, if there is one.
pub(crate) fn absorb_record(
    format: Format,
    last: Option<Key>,
    bytes: &[u8],
    index: u64,
    store: &mut Store,
) -> Result<Option<Key>, FileFault>
    requires { length bytes.now ≡ record_size format }
    ensures key { IfOk result (λ key. key ≡ key_in format bytes.now) }
    ensures judged { AbsorbsJudged (judged format last bytes.now) index result
        store.old store.new }
{
    match format {
        Format::Reports => {
            absorb_report(bytes, index, store)?;
            Ok(None)
        }
        Format::Cells { floor } => absorb_cell(floor, last, bytes, index, store),
    }
}

/// Adds the facts of the report that `bytes` spell. Fails with `BadReport` or, if memory runs out, `Memory`.
fn absorb_report(bytes: &[u8], index: u64, store: &mut Store) -> Result<(), FileFault>
    requires { length bytes.now ≡ 272 }
    ensures judged { AbsorbsJudged (judged Reports None bytes.now) index result
        store.old store.new }
{
    let Some(report) = report_of(bytes) else {
        return Err(FileFault::BadReport {
            index,
            fault: ReportFault::Context,
        });
    };
    match store.ingest(&report) {
        Ok(()) => Ok(()),
        Err(IngestFault::Report(fault)) => Err(FileFault::BadReport { index, fault }),
        Err(IngestFault::Memory) => Err(FileFault::Memory),
    }
}

/// Adds the cell that `bytes` spell, and returns its key. Fails with `BadCell`, `CellOrder` or `Memory`.
fn absorb_cell(
    floor: Option<Generation>,
    last: Option<Key>,
    bytes: &[u8],
    index: u64,
    store: &mut Store,
) -> Result<Option<Key>, FileFault>
    requires { length bytes.now ≡ 32 }
    ensures key { IfOk result (λ key. key ≡ key_in (Cells floor) bytes.now) }
    ensures judged { AbsorbsJudged (judged (Cells floor) last bytes.now) index result
        store.old store.new }
{
    let Some(sighting) = cell_of(bytes) else {
        return Err(FileFault::BadCell { index });
    };
    if !is_at_told(floor, &sighting.cell()) {
        return Err(FileFault::BadCell { index });
    }
    let key = sighting.key();
    if !is_after(&key, &last) {
        return Err(FileFault::CellOrder { index });
    }
    match store.add(sighting) {
        Ok(()) => Ok(Some(key)),
        Err(_) => Err(FileFault::Memory),
    }
}

fn is_after(key: &Key, last: &Option<Key>) -> bool
    ensures { result ≡ is_above last.now key.now }
{
    match last {
        None => true,
        Some(last) => last < key,
    }
}

/// Returns whether a cell is at or above the header's floor `floor`. Returns `true` if `floor` is `None`.
fn is_at_told(floor: Option<Generation>, cell: &Cell<Value>) -> bool
    ensures { result ≡ is_at_floor_told floor cell.now }
{
    match floor {
        None => true,
        Some(floor) => floor <= cell.generation(),
    }
}
