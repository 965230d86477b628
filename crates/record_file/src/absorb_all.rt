//! Reading files into a store.
ghost use Rattle.std.specs.Prelude.{◌≡◌, ◌↔◌, ◌<◌, ◌≤◌, Err, IsTrue};
ghost use Rattle.record_file.specs.Absorbs.{Absorbs, AnswersKnown};

use crate::absorber::Absorber;
use crate::file_fault::FileFault;
use byte_io::{Reading, Source};
use fact_store::Store;

/// The number of bytes that `absorb` reads at a time.
const READ_LEN: usize = 4096;

/// Reads one file from `source` into `store`, record by record. The file is a file of reports or of a store's cells.
/// Allocates only what `store` needs. The header of a store file raises the store's floor before the first record.
/// After a fault, the store keeps the floor, and the facts of the records before the fault. To add all or nothing,
/// absorb the file into a new store and merge that store.
pub fn absorb<S: Source>(source: &mut S, store: &mut Store) -> Result<(), FileFault>
    ensures read { (result ≡ Err FileFault.Read) ↔ IsTrue (S.state source.new).has_failed }
    ensures absorbs { Absorbs S.state result
        source.old source.new store.old store.new }
    ensures known { AnswersKnown S.state result source.old source.new }
{
    absorb_by::<READ_LEN, S>(source, store)
}

/// Reads one file into the store as `absorb` does, at most `N` bytes at a time. `N` must be from 1 to 4096.
pub fn absorb_by<const N: usize, S: Source>(
    source: &mut S,
    store: &mut Store,
) -> Result<(), FileFault>
    requires some { 0 < N }
    requires most { N ≤ 4096 }
    ensures read { (result ≡ Err FileFault.Read) ↔ IsTrue (S.state source.new).has_failed }
    ensures absorbs { Absorbs S.state result
        source.old source.new store.old store.new }
    ensures known { AnswersKnown S.state result source.old source.new }
{
    let mut reading = Reading::new(source);
    let mut absorber = Absorber::new();
    let mut room = [0; N];
    loop {
        let count = reading.piece(&mut room)?;
        if count == 0 {
            return absorber.finish();
        }
        absorber.feed(&room[..count], store)?;
    }
}
