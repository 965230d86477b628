use byte_io::Source;
use sm_cli::{Fault, InputReader};
use smp_bytes::Guid;
use std::alloc::Global;

/// A reader of no files. It says of each GUID that it is that of a usable switch, since no switch is known.
#[derive(Clone, Copy, Debug, PartialEq, Eq)]
pub(crate) struct NoFiles;

impl<S: Source> InputReader<S> for NoFiles {
    ghost use Rattle.std.specs.Prelude.{◌≡◌};
    ghost use Rattle.serve_task.specs.RunServe.{no_files};

    type Told = ();

    ghost reader = { λ none. no_files };

    ghost takes = { λ none count. count ≡ 0 };

    fn read(&self, _alloc: Global, _before: usize, _inputs: &mut [S]) -> Result<(), Fault> {
        Ok(())
    }

    fn has_switch(&self, _told: &(), _guid: Guid) -> bool {
        true
    }
}
