use schedule_file::Shown;
use smp_bytes::Lid;

/// The meaning of a line that is told to a manager that decides by itself.
#[derive(Clone, Copy)]
pub enum ManageLine {
    /// The time, in milliseconds, and what the line says at this time.
    Told(u64, ManageWord),
    /// The line has no word.
    Empty,
    /// The grammar has no such line.
    Wrong,
}

/// What a line says to a manager that decides by itself, besides the time.
#[derive(Clone, Copy)]
pub enum ManageWord {
    /// Nothing.
    Time,
    /// A packet from this LID came to the manager's port.
    Packet([u8; 256], Lid),
    /// A packet for subnet administration from this LID came to the manager's port.
    Sa([u8; 256], Lid),
    /// The operator asks for a sweep.
    Look,
    /// The requests of a light sweep are shown.
    Light,
    /// A packet that may answer one of them is looked at.
    LightAnswer([u8; 256]),
    /// The manager is to hand over and to end.
    Leave,
    /// What the line asks about the manager is shown.
    Show(Shown),
    /// The managers that the last sweep saw are shown.
    Managers,
}
