//! Answers of subnet administration, and whether the plan of the last writing stands.
ghost use Rattle.std.specs.Prelude.{◌≡◌, option_copied, option_map};
ghost use Rattle.sa_answers.specs.Reply.{answer_to};
ghost use Rattle.sm_manager.specs.Manager.{swept_of};
ghost use Rattle.acting_manager.specs.Acting.{value_of};
ghost use Rattle.acting_manager.specs.Administration.{administered, standing_sweep, stands, told_by, told_of};

use crate::acting_manager::ActingManager;
use crate::acts::is_whole;
use sa_answers::{Told, answer_of};
use sa_bytes::SaRequest;
use sm_state::SmState;
use sweep::Sweep;

impl ActingManager {
    /// Returns the answer to `packet`, a request of subnet administration that came to the manager's port. Returns
    /// `None` if it is no such request, if the manager is not master, if the plan of its last writing is not written, if
    /// another manager may have written since, or while a sweep runs. Changes nothing, and does not allocate.
    pub fn administer(&self, packet: &[u8; 256]) -> Option<[u8; 256]>
        ensures { result ≡ administered (value_of self.now) packet.now }
    {
        match SaRequest::parse(packet) {
            None => None,
            Some(request) => self.answer_told(&request),
        }
    }

    /// Returns the answer to `request`, or `None` if nothing is told.
    fn answer_told(&self, request: &SaRequest) -> Option<[u8; 256]>
        ensures { result ≡ option_map (λ told. answer_to told request.now) (told_of (value_of self.now)) }
    {
        if self.stands() {
            self.answer_by(request)
        } else {
            None
        }
    }

    /// Returns whether the manager is master, the plan of its last writing is written, and no other manager may have
    /// written since.
    fn stands(&self) -> bool
        ensures { result ≡ stands (value_of self.now) }
    {
        let is_master = self.manager.state().number() == SmState::Master.number();
        is_master && self.policy.written.stands && self.manager.written()
    }

    /// Returns the last sweep if it is over and has every answer but those of managers, the manager is master, the plan of
    /// its last writing is written, and no other manager may have written since.
    pub fn standing_sweep(&self) -> Option<&Sweep>
        ensures { option_copied result ≡ standing_sweep (value_of self.now) }
    {
        if self.stands() && is_whole(&self.manager) {
            self.manager.swept()
        } else {
            None
        }
    }

    /// Returns the answer to `request` by the facts, the last sweep and the plan of the last writing, or `None` if the
    /// last sweep runs, or if there is no sweep or no writing.
    fn answer_by(&self, request: &SaRequest) -> Option<[u8; 256]>
        ensures { result ≡ option_map (λ told. answer_to told request.now) (told_by (value_of self.now).manager
            (swept_of (value_of self.now).manager.sweep) (value_of self.now).kept) }
    {
        let Some(sweep) = self.manager.swept() else {
            return None;
        };
        let Some(plan) = &self.kept else {
            return None;
        };
        let told = Told {
            store: self.manager.store(),
            plan,
            sweep,
            own: self.manager.info().guid,
            multicast: self.manager.multicast(),
        };
        Some(answer_of(&told, request))
    }
}
