//! Store files: the head, and a record for each cell in the order of keys.
ghost use Rattle.std.specs.Prelude.{◌≡◌, ◌<◌, ◌^◌, IsTrue, OnOk};
ghost use Rattle.fact_store.specs.View.{cells_of, AreInRange};
ghost use Rattle.record_file.specs.StoreFile.{store_bytes};
ghost use Rattle.byte_io.specs.Writes.{Writes};

use crate::cell_record::record_of;
use crate::head::head_of;
use byte_io::{Sink, WriteFault};
use fact_store::Store;

/// Writes the store file of `store`, and flushes. The file has a head with the store's floor, and a record for each
/// cell in the order of keys. Does not allocate. If a write fails, how much was written is unspecified.
pub fn write_store<W: Sink>(sink: &mut W, store: &Store) -> Result<(), WriteFault>
    ensures writes { Writes W.written W.has_failed result sink.old sink.new
        (store_bytes store.now.floor (cells_of store.now)) }
    ensures floor { store.now.floor < 2 ^ 32 }
    ensures in_range { OnOk result (AreInRange store.now) }
    ensures flushed { OnOk result (IsTrue (W.is_flushed sink.new)) }
{
    sink.write(&head_of(store.floor()))?;
    for cell in store.cells() {
        sink.write(&record_of(&cell))?;
    }
    sink.flush()
}
