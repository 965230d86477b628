//! The commands of a schedule.
use smp_bytes::{Generation, Lid};

/// A command about managers of the type `M` and ports of the type `P`. In a line, `M` and `P` are names. In a command
/// as it is run, `M` is the index of a manager's seat among those of its kind, counted from 0, and `P` is a port with the
/// index of its node. The kinds are managers that are asked, and managers that decide by themselves.
#[derive(Clone, Copy, PartialEq, Eq, Drop)]
pub enum Command<M, P> {
    /// Adds a manager.
    Manager(M),
    /// Adds a manager that decides by itself.
    Decider(M),
    /// Asks a manager for something, which it may refuse.
    Ask(M, Ask),
    /// Makes a manager give up each outstanding request.
    Timeout(M),
    /// Makes a manager forget the facts of generations below this one.
    Floor(M, Generation),
    /// Makes the first manager take in all facts of the second one, and the floor of the second one if that is
    /// greater.
    Merge(M, M),
    /// Shows something of a manager.
    Show(M, Shown),
    /// Shows something of a manager that decides by itself.
    ShowDecider(M, Shown),
    /// Makes a manager that decides by itself stand still: it is told nothing any more.
    Pause(M),
    /// Makes a manager that decides by itself go on.
    Resume(M),
    /// Lets so many milliseconds pass, with at most so many turns, which is at most 10,000. In each turn the packet in
    /// flight with the least serial number takes a step or, if none is in flight, a manager that decides by itself is
    /// told the time.
    Wait(u32, u32),
    /// Delivers, loses or duplicates a packet in flight.
    Packet(Which, Fate),
    /// Takes a step of the packet in flight with the least serial number, again and again, at most this many times.
    /// The number is at most 1,000,000.
    Drain(u32),
    /// Cuts the cable in the port.
    Cut(P),
    /// Joins two ports by a cable.
    Plug(P, P),
    /// Makes the agents of switches send traps from now on.
    Traps,
    /// Sends the waiting traps again.
    Resend,
    /// Shows how the tables would forward a packet from the port to the LID.
    Ping(P, Lid),
    /// Shows the forwarding tables.
    Tables,
    /// Shows the packets in flight.
    Flight,
}

/// A request to a manager.
#[derive(Clone, Copy, PartialEq, Eq)]
pub enum Ask {
    /// A sweep of the fabric.
    Sweep,
    /// A writing of the plan that follows from what the manager knows.
    Write,
    /// A HANDOVER to the manager's successor among the managers that its last sweep saw.
    Handover,
    /// A HANDOVER to the manager's heir among them, whichever of the two wins.
    Yield,
    /// Leaving Standby for Discovering.
    Rediscover,
    /// A poll of the manager at the LID or, if there is no LID, of a manager that the last sweep saw.
    Poll(Option<Lid>),
}

/// What is shown of a manager.
#[derive(Clone, Copy, PartialEq, Eq)]
pub enum Shown {
    /// The manager's facts.
    Facts,
    /// The manager's plan.
    Plan,
    /// The progress of the manager's last sweep.
    Progress,
    /// The number of requests for SMInfo in the manager's last sweep that were given up.
    Silent,
    /// Whether the plan of the manager's last writing counts as written.
    Written,
    /// The manager's state.
    State,
}

/// What happens to a packet in flight.
#[derive(Clone, Copy, PartialEq, Eq)]
pub enum Fate {
    /// The packet takes one step: it moves along a wire, is answered, is handed to a manager, or is discarded.
    Deliver,
    /// The packet is lost.
    Lose,
    /// A copy of the packet is in flight as well.
    Repeat,
}

/// Which packet in flight is meant.
#[derive(Clone, Copy, PartialEq, Eq)]
pub enum Which {
    /// The packet in flight with the greatest serial number.
    Last,
    /// The packet with the serial number.
    Serial(u64),
}
