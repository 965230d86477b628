//! The vertices that have adapters.
ghost use Rattle.std.specs.Prelude.{◌≡◌, ◌<◌, All, IfOk, length};
ghost use Rattle.spread_labels.specs.Leaves.{leaf_vertices};

use std::alloc::{AllocError, Global};

/// Returns the vertices that have adapters, in ascending order. `adapters` has the number of adapters at each vertex.
/// Returns an error if memory runs out.
pub fn leaf_vertices(alloc: Global, adapters: &[u16]) -> Result<Vec<usize>, AllocError>
    ensures vertices { IfOk result (λ found. found.items ≡ leaf_vertices adapters.now) }
    ensures within { IfOk result (λ found. All (λ vertex. vertex < length adapters.now) found.items) }
{
    let mut found = Vec::new(alloc);
    for vertex in 0..adapters.len() {
        if adapters[vertex] > 0 {
            found.push(vertex)?;
        }
    }
    Ok(found)
}
