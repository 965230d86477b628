ghost use Rattle.std.specs.Prelude.{◌≡◌, ◌∷◌, ◌++◌, [], OnOk, drop, slice_get};
ghost use Rattle.acting_manager.specs.Acting.{caught_up, collected, entered, given_out, looked};
ghost use Rattle.acting_manager.specs.Acting.{new_acting, noted, value_of};
ghost use Rattle.acting_manager.specs.Acting.{is_request};

use crate::note::Note;
use crate::reads::Reads;
use lft_blocks::Plan;
use request_window::{Limits, Window};
use sm_manager::{Manager, Outgoing};
use sm_policy::{Policy, Timing};
use sm_state::SmState;
use smp_bytes::Method;
use std::alloc::{AllocError, Global};
use std::collections::VecDeque;

/// The method of the answer that ends a trap (management methods, TrapRepress).
const TRAP_REPRESS: Method = Method(0x07);

/// A subnet manager that decides by itself. Times are in milliseconds, from any origin, and are told by the caller.
#[derive(Drop)]
pub struct ActingManager {
    pub(crate) manager: Manager,
    pub(crate) policy: Policy,
    pub(crate) window: Window,
    /// The packets that are ready to be sent, the next one first.
    pub(crate) ready: VecDeque<Outgoing>,
    /// The notes that were not given out yet, the oldest one first.
    pub(crate) notes: VecDeque<Note>,
    /// The plan of the last writing.
    pub(crate) kept: Option<Plan>,
    pub(crate) reads: Reads,
    /// Whether a writing that runs is to be given up, since the manager stood still meanwhile.
    pub(crate) is_void: bool,
    pub(crate) is_leaving: bool,
    /// The time that the manager was told last.
    pub(crate) time: u64,
    /// The newest generation of a sweep.
    pub(crate) newest: u32,
}

impl ActingManager {
    /// Creates a manager that decides for `manager`, which must be new. Sweeps get generations above `newest`. Does not
    /// allocate.
    pub fn new(alloc: Global, manager: Manager, timing: Timing, limits: Limits, newest: u32) -> Self
        ensures { value_of result ≡ new_acting manager timing limits newest }
    {
        ActingManager {
            manager,
            policy: Policy::new(timing),
            window: Window::new(alloc, limits),
            ready: VecDeque::new(alloc),
            notes: VecDeque::new(alloc),
            kept: None,
            reads: Reads::nothing(),
            is_void: false,
            is_leaving: false,
            time: 0,
            newest,
        }
    }

    /// Returns the manager that this one decides for.
    pub fn manager(&self) -> &Manager
        ensures { result.now ≡ (value_of self.now).manager }
    {
        &self.manager
    }

    /// Removes the oldest note and returns it, or returns `None` if there is none. Does not allocate.
    pub fn take_note(&mut self) -> Option<Note>
        ensures note { result ≡ slice_get (value_of self.old).notes 0 }
        ensures rest { value_of self.new
            ≡ record (value_of self.old) { notes = drop 1 (value_of self.old).notes } }
    {
        self.notes.pop_front()
    }

    /// Removes the first packet that is ready to be sent and returns it, or returns `None` if there is none. Does not
    /// allocate.
    pub fn take_packet(&mut self) -> Option<Outgoing>
        ensures packet { result ≡ slice_get (value_of self.old).ready 0 }
        ensures rest { value_of self.new
            ≡ record (value_of self.old) { ready = drop 1 (value_of self.old).ready } }
    {
        self.ready.pop_front()
    }

    /// Notes `note`.
    pub(crate) fn note(&mut self, note: Note) -> Result<(), AllocError>
        ensures { OnOk result (value_of self.new ≡ noted note (value_of self.old)) }
    {
        self.notes.reserve(1)?;
        self.notes.push_back_reserved(note);
        Ok(())
    }

    /// Gives out the packets that the manager has queued: requests wait for their turn, and all else is ready.
    pub(crate) fn collect(&mut self) -> Result<(), AllocError>
        ensures { OnOk result (value_of self.new ≡ collected (value_of self.old)) }
    {
        while let Some(out) = self.manager.take_outgoing() {
            self.give_out(out)?;
        }
        Ok(())
    }

    /// Gives out one packet.
    fn give_out(&mut self, out: Outgoing) -> Result<(), AllocError>
        ensures { OnOk result (value_of self.new ≡ given_out (out ∷ []) (value_of self.old)) }
    {
        if is_request(&out) {
            self.window.queue(out)
        } else {
            self.make_ready(out)
        }
    }

    /// Puts `out` behind the packets that are ready to be sent.
    pub(crate) fn make_ready(&mut self, out: Outgoing) -> Result<(), AllocError>
        ensures { OnOk result (value_of self.new
            ≡ record (value_of self.old) { ready = (value_of self.old).ready ++ out ∷ [] }) }
    {
        self.ready.reserve(1)?;
        self.ready.push_back_reserved(Outgoing { ..out });
        Ok(())
    }

    /// Gives out the packets that the manager has queued, and tells the policy of its state.
    pub(crate) fn catch_up(&mut self) -> Result<(), AllocError>
        ensures { OnOk result (value_of self.new ≡ caught_up (value_of self.old)) }
    {
        self.collect()?;
        self.look_at_state()
    }

    /// Tells the policy of the manager's state if that is another one than it was told last.
    fn look_at_state(&mut self) -> Result<(), AllocError>
        ensures { OnOk result (value_of self.new ≡ looked (value_of self.old)) }
    {
        let state = self.manager.state();
        if state.number() == self.policy.state.number() {
            Ok(())
        } else {
            self.enter(state)
        }
    }

    /// Tells the policy that the manager came into `state`.
    fn enter(&mut self, state: SmState) -> Result<(), AllocError>
        ensures { OnOk result (value_of self.new ≡ entered state (value_of self.old)) }
    {
        self.policy.move_to(self.time, state);
        self.note(Note::State(state))
    }
}

/// Returns whether `out` is a request, which is answered.
fn is_request(out: &Outgoing) -> bool
    ensures { result ≡ is_request out.now }
{
    !out.packet.is_response() && out.packet.method() != TRAP_REPRESS
}
