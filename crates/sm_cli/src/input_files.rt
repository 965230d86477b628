//! The files of a run. They are read one after the other, and what they say is merged.
ghost use Rattle.std.specs.Prelude.{◌+◌, ◌≤◌, length, IfErr, IfOk, OnOk};
ghost use Rattle.sm_cli.specs.InputFiles.{HasRead, IsRefusedFile, ReadsInto, Refuses};

use crate::fault::Fault;
use crate::inputs::InputReader;
use byte_io::Source;
use fact_store::Store;
use record_file::{FileFault, absorb};
use smp_bytes::{Generation, Guid};
use std::alloc::Global;
use subnet_view::is_usable;

/// A reader of files, which knows the usable switches from their facts.
#[derive(Clone, Copy, Debug, PartialEq, Eq)]
pub struct FilesFrom {
    /// The least floor at which the files are read. Facts below the floor are ignored.
    pub floor: Generation,
}

impl<S: Source> InputReader<S> for FilesFrom {
    ghost use Rattle.sm_cli.specs.InputReaders.{files_reader};

    type Told = Store;

    ghost reader = { λ files. files_reader S.state files.floor };

    ghost takes = { λ files count. Unit {0} };

    fn read(&self, alloc: Global, before: usize, inputs: &mut [S]) -> Result<Store, Fault> {
        read_files(alloc, before, inputs, self.floor)
    }

    fn has_switch(&self, told: &Store, guid: Guid) -> bool {
        is_usable(told, guid)
    }
}

/// Reads all `files` to their ends, and returns what they say together, at the greatest of `floor` and the files'
/// floors, or the fault of the first file that is refused. `before` other inputs come before `files`.
pub(crate) fn read_files<S: Source>(
    alloc: Global,
    before: usize,
    files: &mut [S],
    floor: Generation,
) -> Result<Store, Fault>
    requires { before + length files.old ≤ usize.MAX }
    ensures read { IfOk result (HasRead S.state floor files.old files.new) }
    ensures refused { IfErr result
        (IsRefusedFile S.state before files.old files.new) }
{
    let mut all = Store::new(alloc);
    all.raise_floor(floor);
    for index in 0..files.len() {
        if let Err(fault) = read_into(&mut all, alloc, &mut files[index]) {
            return Err(Fault::File {
                input: before + index,
                fault,
            });
        }
    }
    Ok(all)
}

/// Reads `source` to its end into a new store, and merges this store into `all`.
fn read_into<S: Source>(all: &mut Store, alloc: Global, source: &mut S) -> Result<(), FileFault>
    ensures read { OnOk result (ReadsInto S.state
        source.old source.new all.old all.new) }
    ensures refused { IfErr result (Refuses S.state
        source.old source.new) }
{
    let mut store = Store::new(alloc);
    absorb(source, &mut store)?;
    match all.merge_owned(store) {
        Ok(()) => Ok(()),
        Err(_) => Err(FileFault::Memory),
    }
}
