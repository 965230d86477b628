//! The loads of channels.
ghost use Rattle.std.specs.Prelude.{◌≡◌, ◌*◌, IfOk, replicate};

use std::alloc::{AllocError, Global};

/// The number of channels of each vertex, one for each port number.
pub const PORTS: usize = 256;

/// Returns a load of 0 for each channel of `vertices` vertices.
pub fn no_loads(alloc: Global, vertices: usize) -> Result<Vec<usize>, AllocError>
    ensures { IfOk result (λ loads. loads.items ≡ replicate (256 * vertices) 0) }
{
    let none = [0; PORTS];
    let mut loads = Vec::new(alloc);
    for _ in 0..vertices {
        loads.extend_from_slice(&none)?;
    }
    Ok(loads)
}
