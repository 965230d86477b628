//! Opening files by their names.
ghost use Rattle.std.specs.Prelude.{ℕ, List, Result};
ghost use Rattle.ibsm.specs.Opening.{OpensBehind};

use byte_io::{FromRead, Source};
use std::io::BufReader;
use std::rt::Files;
use std::{fs, io};

/// Why a file was not opened.
#[derive(Clone, Copy, Debug, PartialEq, Eq)]
pub(crate) enum OpenFault {
    /// No file of this name can be opened.
    Missing,
    /// Memory was refused.
    Memory,
}

/// Opens files by their names. No contract can say which files exist. The answer for a name is known only from the call
/// that gave the answer.
pub(crate) trait Opener {
    ghost use Rattle.ibsm.specs.declared.opener.OpenFault.{OpenFault};

    /// The type of an open file.
    type Opened: Source + Drop;

    // `answers` relates a name and an answer that a call gave for this name.
    ghost answers: { Self → List ℕ → Result Self.Opened OpenFault → Type 0 };

    /// Opens the file `name`, and appends it to `files`. If an error is returned, `files` is unchanged.
    fn open_behind(&self, name: &str, files: &mut Vec<Self::Opened>) -> Result<(), OpenFault>
        ensures { OpensBehind (answers self.now name.now) result files.old.items files.new.items };
}

impl<R: Files + AllocGlobal> Opener for R {
    type Opened = FromRead<BufReader<R::File>>;

    ghost answers = { λ rt name answer. Unit {0} };

    fn open_behind(&self, name: &str, files: &mut Vec<Self::Opened>) -> Result<(), OpenFault> {
        let file = match fs::open(self, name) {
            Ok(file) => file,
            Err(error) if error.kind() == io::ErrorKind::OutOfMemory => {
                return Err(OpenFault::Memory);
            }
            Err(_) => return Err(OpenFault::Missing),
        };
        let Ok(reader) = BufReader::new(self.alloc(), file) else {
            return Err(OpenFault::Memory);
        };
        if files.push(FromRead::new(reader)).is_err() {
            return Err(OpenFault::Memory);
        }
        Ok(())
    }
}
