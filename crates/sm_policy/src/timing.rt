/// How often a manager does what, in milliseconds, and whether it waits for silent nodes.
#[derive(Clone, Copy, Debug, PartialEq, Eq)]
pub struct Timing {
    /// From the end of a master's sweep to its next one, if nothing asks for one before.
    pub every: u32,
    /// From one poll of a standby to its next one.
    pub poll: u32,
    /// Whether nothing is written while some request of sweeps has no answer. Otherwise, what is known is written
    /// after a few such sweeps in a row.
    pub is_strict: bool,
}
