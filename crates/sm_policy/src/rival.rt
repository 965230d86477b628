/// The greatest master that a manager hears and that its last sweep saw.
#[derive(Clone, Copy, Debug, PartialEq, Eq)]
pub enum Rival {
    /// This manager wins over it.
    Lesser,
    /// It wins over this manager.
    Greater,
}
