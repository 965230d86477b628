//! What becomes of requests without an answer, and of a writing that is given up.
ghost use Rattle.std.specs.Prelude.{◌≡◌, OnOk, length};
ghost use Rattle.acting_manager.specs.Acting.{value_of};
ghost use Rattle.acting_manager.specs.Working.{all_overdue, all_sent, dropped, is_given_up, is_writing, one_overdue};
ghost use Rattle.acting_manager.specs.Working.{one_sent, out_dropped, queued_dropped, repeated};
ghost use Rattle.acting_manager.specs.Working.{sent, sent_one, stopped};

use crate::acting_manager::ActingManager;
use request_window::Late;
use sm_manager::Outgoing;
use sm_policy::{Activity, is_master};
use std::alloc::AllocError;

impl ActingManager {
    /// Sends each late request again, or gives it up.
    pub(crate) fn judge_late(&mut self) -> Result<(), AllocError>
        ensures { OnOk result (value_of self.new ≡ all_overdue (value_of self.old)) }
    {
        let count = self.window.outs();
        for _ in 0..count {
            self.judge_one_late()?;
        }
        Ok(())
    }

    /// Sends the first late request again, or gives it up.
    fn judge_one_late(&mut self) -> Result<(), AllocError>
        ensures { OnOk result (value_of self.new ≡ one_overdue (value_of self.old)) }
    {
        match self.window.overdue(self.time) {
            None => Ok(()),
            Some(Late::Again(request)) => self.make_ready(request),
            Some(Late::GivenUp(request)) => self.give_up(&request),
        }
    }

    /// Returns whether what is written is given up: the manager stood still, or is no longer master.
    pub(crate) fn is_given_up(&self) -> bool
        ensures { result ≡ is_given_up (value_of self.now) }
    {
        is_writing(self.policy.activity) && (self.is_void || !is_master(self.manager.state()))
    }

    /// Stops a writing that is given up: drops its requests, and gives out what the manager queues because of that.
    pub(crate) fn stop(&mut self) -> Result<(), AllocError>
        ensures { OnOk result (value_of self.new ≡ stopped (value_of self.old)) }
    {
        if self.is_given_up() {
            self.drop_all()?;
            self.collect()?;
        }
        Ok(())
    }

    /// Drops all requests, those that wait for their turn and those that are out.
    fn drop_all(&mut self) -> Result<(), AllocError>
        ensures { OnOk result (value_of self.new ≡ dropped (value_of self.old)) }
    {
        self.drop_queued()?;
        self.drop_outs()
    }

    /// Drops the requests that wait for their turn.
    fn drop_queued(&mut self) -> Result<(), AllocError>
        ensures { OnOk result (value_of self.new
            ≡ repeated (length (value_of self.old).window.queued) queued_dropped (value_of self.old)) }
    {
        let count = self.window.queued();
        for _ in 0..count {
            self.drop_first_queued()?;
        }
        Ok(())
    }

    /// Drops the requests that are out.
    fn drop_outs(&mut self) -> Result<(), AllocError>
        ensures { OnOk result (value_of self.new
            ≡ repeated (length (value_of self.old).window.outs) out_dropped (value_of self.old)) }
    {
        let count = self.window.outs();
        for _ in 0..count {
            self.drop_first_out()?;
        }
        Ok(())
    }

    /// Drops the first request that waits for its turn.
    fn drop_first_queued(&mut self) -> Result<(), AllocError>
        ensures { OnOk result (value_of self.new ≡ queued_dropped (value_of self.old)) }
    {
        match self.window.drop_queued() {
            None => Ok(()),
            Some(request) => self.time_out(&request),
        }
    }

    /// Drops the first request that is out.
    fn drop_first_out(&mut self) -> Result<(), AllocError>
        ensures { OnOk result (value_of self.new ≡ out_dropped (value_of self.old)) }
    {
        match self.window.drop_out() {
            None => Ok(()),
            Some(request) => self.time_out(&request),
        }
    }

    /// Sends as many requests as there is room for, unless what is written is given up.
    pub(crate) fn send(&mut self) -> Result<(), AllocError>
        ensures { OnOk result (value_of self.new ≡ sent (value_of self.old)) }
    {
        if self.is_given_up() {
            Ok(())
        } else {
            self.send_all()
        }
    }

    /// Sends as many requests as there is room for.
    fn send_all(&mut self) -> Result<(), AllocError>
        ensures { OnOk result (value_of self.new ≡ all_sent (value_of self.old)) }
    {
        let count = self.window.limits().outstanding;
        for _ in 0..count {
            self.send_one()?;
        }
        Ok(())
    }

    /// Sends the next request, if there is room for it.
    fn send_one(&mut self) -> Result<(), AllocError>
        ensures { OnOk result (value_of self.new ≡ one_sent (value_of self.old)) }
    {
        match self.window.send(self.time) {
            Ok(request) => self.make_ready_if(request),
            Err(fault) => Err(fault),
        }
    }

    /// Puts `request` behind the packets that are ready to be sent, if there is one.
    fn make_ready_if(&mut self, request: Option<Outgoing>) -> Result<(), AllocError>
        ensures { OnOk result (value_of self.new ≡ sent_one request (value_of self.old)) }
    {
        match request {
            None => Ok(()),
            Some(request) => self.make_ready(request),
        }
    }
}

/// Returns whether a writing runs.
fn is_writing(activity: Activity) -> bool
    ensures { result ≡ is_writing activity }
{
    match activity {
        Activity::Writes => true,
        Activity::Rests | Activity::Sweeps | Activity::Hands => false,
    }
}
