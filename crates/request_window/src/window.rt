ghost use Rattle.std.specs.Prelude.{◌≡◌, ◌↔◌, [], IfOk, IsSome, IsTrue, OnErr, OnOk, length, nat_le};
ghost use Rattle.request_window.specs.Window.{after_answer, after_drop_out, after_drop_queued};
ghost use Rattle.request_window.specs.Window.{after_overdue, after_queue, after_send, late_in};
ghost use Rattle.request_window.specs.Window.{cleared, new_window, next_deadline};

use crate::answers::take_answered;
use crate::late::Late;
use crate::limits::Limits;
use crate::out::Out;
use crate::overdue::{judge_late, least_deadline};
use sm_manager::Outgoing;
use smp_bytes::Smp;
use std::alloc::{AllocError, Global};
use std::collections::VecDeque;
use std::marker::Model;

/// The requests of a manager on their way: those that wait for their turn, and those that are out. Times are in
/// milliseconds, on one clock.
#[derive(Drop)]
pub struct Window {
    limits: Limits,
    /// The requests that wait for their turn, first in, first out.
    queued: VecDeque<Outgoing>,
    /// The requests that were sent and have no answer yet, in the order in which they were first sent.
    outs: Vec<Out>,
}

impl Model for Window {
    ghost use Rattle.request_window.specs.Coded.{window_code};
    ghost use Rattle.request_window.specs.Window.{Window};

    ghost Value = { Window };

    ghost coded = { window_code };

    ghost view = { λ a. record { limits = a.limits; queued = a.queued.items; outs = a.outs.items } };
}

impl Window {
    /// Creates a window without requests. Does not allocate.
    pub fn new(alloc: Global, limits: Limits) -> Self
        ensures { result ≡ new_window limits }
    {
        Window {
            limits,
            queued: VecDeque::new(alloc),
            outs: Vec::new(alloc),
        }
    }

    /// Puts `request` behind the requests that wait for their turn. If memory runs out, nothing changes.
    pub fn queue(&mut self, request: Outgoing) -> Result<(), AllocError>
        ensures ok { OnOk result (self.new ≡ after_queue request self.old) }
        ensures err { OnErr result (self.new ≡ self.old) }
    {
        self.queued.reserve(1)?;
        self.queued.push_back_reserved(Outgoing { ..request });
        Ok(())
    }

    /// Moves the first request that waits for its turn to those that are out, as sent at `time`, and returns it.
    /// Returns `None`, without allocating, if none waits or if as many are out as may be. If memory runs out, nothing
    /// changes.
    pub fn send(&mut self, time: u64) -> Result<Option<Outgoing>, AllocError>
        ensures window { OnOk result (self.new ≡ (after_send time self.old).window) }
        ensures request { IfOk result (λ request. request ≡ (after_send time self.old).request) }
        ensures err { OnErr result (self.new ≡ self.old) }
        ensures asked { OnErr result (IsSome (after_send time self.old).request) }
    {
        if self.queued.is_empty() || self.is_full() {
            return Ok(None);
        }
        self.outs.reserve(1)?;
        let request = self.queued.pop_front().unwrap();
        let out = self.limits.out_at(time, 1, &request);
        self.outs.push_reserved(out);
        Ok(Some(request))
    }

    /// Takes the first request that is late at `time` as sent again at `time` or, if it was sent as often as it may be
    /// or is a poll, removes it. Returns what becomes of it, or `None` if no request is late. Does not allocate.
    pub fn overdue(&mut self, time: u64) -> Option<Late>
        ensures window { self.new ≡ after_overdue time self.old }
        ensures late { result ≡ (late_in self.old.limits time self.old.outs).late }
    {
        judge_late(&mut self.outs, self.limits, time)
    }

    /// Removes the first request that is out and that `packet` answers, and returns it. Returns `None` if `packet`
    /// answers none of them.
    pub fn answer(&mut self, packet: &Smp) -> Option<Outgoing>
        ensures window { self.new ≡ (after_answer packet.now self.old).window }
        ensures request { result ≡ (after_answer packet.now self.old).request }
    {
        take_answered(&mut self.outs, packet)
    }

    /// Removes the first request that waits for its turn, and returns it. Returns `None` if none waits.
    pub fn drop_queued(&mut self) -> Option<Outgoing>
        ensures window { self.new ≡ (after_drop_queued self.old).window }
        ensures request { result ≡ (after_drop_queued self.old).request }
    {
        self.queued.pop_front()
    }

    /// Removes the first request that is out, and returns it. Returns `None` if none is out.
    pub fn drop_out(&mut self) -> Option<Outgoing>
        ensures window { self.new ≡ (after_drop_out self.old).window }
        ensures request { result ≡ (after_drop_out self.old).request }
    {
        if self.outs.is_empty() {
            return None;
        }
        Some(self.outs.remove(0).request)
    }

    /// Returns whether no request waits for its turn and none is out.
    pub fn is_idle(&self) -> bool
        ensures { IsTrue result ↔ (self.now.queued ≡ []) × (self.now.outs ≡ []) }
    {
        self.queued.is_empty() && self.outs.is_empty()
    }

    /// Returns the least deadline of the requests that are out, or `None` if none is out.
    pub fn next_deadline(&self) -> Option<u64>
        ensures { result ≡ next_deadline self.now }
    {
        least_deadline(&self.outs)
    }

    /// Returns whether as many requests are out as may be.
    fn is_full(&self) -> bool
        ensures { result ≡ nat_le self.now.limits.outstanding (length self.now.outs) }
    {
        self.outs.len() as u64 >= u64::from(self.limits.outstanding)
    }

    /// Drops all requests, those that wait for their turn and those that are out.
    pub fn clear(&mut self)
        ensures { self.new ≡ cleared self.old }
    {
        self.queued.clear();
        self.outs.clear();
    }

    /// Returns how many requests may be out, how often each is sent, and how long an answer is waited for.
    pub fn limits(&self) -> Limits
        ensures { result ≡ self.now.limits }
    {
        self.limits
    }

    /// Returns the number of requests that wait for their turn.
    pub fn queued(&self) -> usize
        ensures { result ≡ length self.now.queued }
    {
        self.queued.len()
    }

    /// Returns the number of requests that are out.
    pub fn outs(&self) -> usize
        ensures { result ≡ length self.now.outs }
    {
        self.outs.len()
    }
}
