use crate::ports::Ports;

/// Why a master writes its plan.
#[derive(Clone, Copy, Debug, PartialEq, Eq)]
pub enum WriteCause {
    /// It is not the plan that was written last.
    New,
    /// It is the plan that was written last, but it may not stand: another manager may have written since then, or not
    /// all of it was answered as it must be.
    Again,
    /// It is the plan that was written last and stands, but these ports may be brought up, or taken back.
    For(Ports),
}
