//! The order of vertices by keys.
ghost use Rattle.std.specs.Prelude.{◌≡◌, ◌<◌, length};
ghost use Rattle.spread_labels.specs.KeyOrder.{before_by, key_less};

/// The key by which a vertex is ordered: first its distance class, and then its distance.
#[derive(Clone, Copy, Debug, PartialEq, Eq)]
pub struct VertexKey {
    /// The distance class of the vertex.
    pub distance_class: u128,
    /// The distance of the vertex from the first vertex of its component. If vertices are ordered by a list or by
    /// positions, this is the position of the vertex, and the distance class is 0.
    pub distance: usize,
}

impl VertexKey {
    /// Returns whether this key is earlier than `other`.
    pub(crate) fn is_less(&self, other: &VertexKey) -> bool
        ensures { result ≡ key_less self.now other.now }
    {
        self.distance_class < other.distance_class
            || (self.distance_class == other.distance_class && self.distance < other.distance)
    }
}

/// Returns whether `one` comes before `other`: it has an earlier key, or an equal key and a lesser number. `keys` must
/// have a key for each of the two.
pub fn is_before(keys: &[VertexKey], one: usize, other: usize) -> bool
    requires one { one < length keys.now }
    requires other { other < length keys.now }
    ensures { result ≡ before_by keys.now one other }
{
    let (one_key, other_key) = (keys[one], keys[other]);
    one_key.is_less(&other_key) || (!other_key.is_less(&one_key) && one < other)
}
