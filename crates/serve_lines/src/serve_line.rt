use schedule_file::{Ask, Shown};
use smp_bytes::{Generation, Lid};

/// The meaning of a line that controls a manager.
#[derive(Clone, Copy)]
pub enum ServeLine {
    /// A request is made to the manager, which may refuse it.
    Ask(Ask),
    /// The manager forgets facts of generations below this one.
    Floor(Generation),
    /// A packet from this LID came to the manager's port.
    Packet([u8; 256], Lid),
    /// The manager gives up the request with this TransactionID.
    Timeout(u64),
    /// The manager gives up each outstanding request.
    GiveUp,
    /// What the line asks about the manager is shown.
    Show(Shown),
    /// The managers that the last sweep saw are shown.
    Managers,
    /// The line has no word.
    Empty,
    /// The grammar has no such line.
    Wrong,
}
