//! Reading the whole of a source into memory.
ghost use Rattle.std.specs.Prelude.{IfOk, IfErr};
ghost use Rattle.record_file.specs.Whole.{IsReadWhole, FailsToRead};

use crate::file_fault::FileFault;
use byte_io::{Reading, Source};
use std::alloc::Global;

/// The number of bytes that are read at a time.
const READ_LEN: usize = 4096;

/// Reads `source` to its end and returns its bytes.
///
/// # Errors
///
/// Returns the first fault: `Read` if the source fails, `TooLong` at 2^40 bytes or at 2^40 calls that took bytes or
/// were interrupted, and `Memory` if memory runs out.
pub fn read_whole<S: Source>(alloc: Global, source: &mut S) -> Result<Vec<u8>, FileFault>
    ensures whole { IfOk result (λ bytes.
        IsReadWhole S.state source.old source.new bytes.items) }
    ensures fails { IfErr result (FailsToRead S.state
        source.old source.new) }
{
    let mut reading = Reading::new(source);
    let mut bytes = Vec::new(alloc);
    loop {
        let mut room = [0; READ_LEN];
        let count = reading.piece(&mut room)?;
        if count == 0 {
            return Ok(bytes);
        }
        if reading.is_spent() {
            return Err(FileFault::TooLong);
        }
        if bytes.extend_from_slice(&room[..count]).is_err() {
            return Err(FileFault::Memory);
        }
    }
}
