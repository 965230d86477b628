/// What a sweep read of ports.
#[derive(Clone, Copy, Debug, PartialEq, Eq)]
pub struct Ports {
    /// How many are in the states Initialize or Armed.
    pub inactive: u32,
    /// How many end ports have a LID, and name another port than the manager's as that of their master (PortInfo:
    /// MasterSMLID).
    pub foreign: u32,
}
