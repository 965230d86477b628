/// What a manager is to do next.
#[derive(Clone, Copy, Debug, PartialEq, Eq)]
pub enum Act {
    /// Nothing, until news come or something is due.
    Wait,
    /// Asks the master for its SMInfo.
    Poll,
    /// Has its port say anew that a manager is here, so that the master's port sends trap 144 and the master sweeps.
    Announce,
    /// Sweeps the subnet, at a generation above all earlier ones.
    Sweep,
    /// Leaves Standby for Discovering, since nobody is master.
    Rediscover,
    /// Hands the subnet over to the greatest manager that was seen and wins over this one, if there is one.
    HandOver,
    /// Sends HANDOVER to the greatest master that was seen, although this manager wins over it.
    Yield,
    /// Compares the plan of its facts with what was written last.
    Judge,
    /// Writes the plan of its facts.
    Write,
    /// Notes that the plan stands. Then does as for `HandOver`.
    Settle,
}
