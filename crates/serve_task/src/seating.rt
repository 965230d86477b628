ghost use Rattle.std.specs.Prelude.{◌≡◌};
ghost use Rattle.serve_run.specs.Seat.{seat_of};
ghost use Rattle.serve_task.specs.Seating.{seat_for};

use request_window::Limits;
use serve_run::{ActingManager, ServedManager};
use sm_manager::Manager;
use sm_policy::Timing;
use std::alloc::Global;

/// Whether a manager that is served does what lines say, or decides by itself.
#[derive(Clone, Copy, Debug)]
pub enum Seating {
    /// It does what lines say, and nothing else.
    Obeying,
    /// It decides by itself, at the times `timing`, with requests out as `limits` says. Its sweeps get generations above
    /// `newest`.
    Deciding {
        timing: Timing,
        limits: Limits,
        newest: u32,
    },
}

impl Seating {
    /// Returns `manager`, which must be new, as one that is served in this way.
    pub(crate) fn seat(self, alloc: Global, manager: Manager) -> ServedManager
        ensures { seat_of result ≡ seat_for self manager }
    {
        match self {
            Seating::Obeying => ServedManager::Obeying(manager),
            Seating::Deciding {
                timing,
                limits,
                newest,
            } => ServedManager::Deciding(ActingManager::new(
                alloc, manager, timing, limits, newest,
            )),
        }
    }
}
