use sm_policy::{Act, Ports, WriteCause};
use sm_state::SmState;
use smp_bytes::Smp;

/// What a manager that decides by itself has to say about what it did.
#[derive(Clone, Copy, Debug)]
pub enum Note {
    /// It came into this state.
    State(SmState),
    /// It stood still: the time that it was told is long after the one that it had asked for.
    Paused,
    /// This request has no answer, or an answer that it refuses.
    GivenUp(Smp),
    /// A sweep is over. Says whether it has every answer but those of managers.
    Swept(bool),
    /// A writing is over. Says whether all of it was answered as it must be.
    Wrote(bool),
    /// Nothing is left to write, but for what these ports need: those that it could not bring up, and those that name
    /// another master.
    Settled(Ports),
    /// It began to write its plan, for this cause.
    Writes(WriteCause),
    /// It did this, which is not `Write`. For `Announce`, the caller has to have the port say anew that a manager is
    /// here.
    Did(Act),
    /// It would have done this, but could not: `Sweep`, `Write`, or `Judge` if its facts have no plan.
    Refused(Act),
}
