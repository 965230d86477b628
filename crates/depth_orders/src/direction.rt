ghost use Rattle.std.specs.Prelude.{◌≡◌, ◌<◌, length};
ghost use Rattle.spread_labels.specs.KeyOrder.{before_by};
ghost use Rattle.depth_orders.specs.DepthOrder.{turned};

use spread_labels::{VertexKey, is_before};

/// The preference between two vertices if nothing else distinguishes them.
#[derive(Clone, Copy, Debug, PartialEq, Eq)]
pub enum Direction {
    /// Prefers the vertex with the earlier key.
    Forwards,
    /// Prefers the vertex with the later key.
    Backwards,
}

impl Direction {
    /// Returns whether `one` is preferred to `other`, by their keys in `keys`.
    pub(crate) fn takes(self, keys: &[VertexKey], one: usize, other: usize) -> bool
        requires one { one < length keys.now }
        requires other { other < length keys.now }
        ensures { result ≡ turned self (before_by keys.now) one other }
    {
        match self {
            Direction::Forwards => is_before(keys, one, other),
            Direction::Backwards => is_before(keys, other, one),
        }
    }
}
