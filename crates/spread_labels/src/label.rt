/// How the way from a vertex to the target begins.
#[derive(Clone, Copy, Debug, PartialEq, Eq)]
pub enum Label {
    /// Some candidate of the vertex leads up.
    Up,
    /// No candidate of the vertex leads up, so each edge of the way leads down.
    Down,
}

/// The mark of a vertex that has a way to the target.
#[derive(Clone, Copy, Debug, PartialEq, Eq)]
pub struct Mark {
    /// The number of edges of the way: the round that gave the label, or 0 for the target.
    pub cost: usize,
    /// How the way begins.
    pub label: Label,
}
