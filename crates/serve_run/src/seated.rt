ghost use Rattle.std.specs.Prelude.{OnOk, IsTrue};
ghost use Rattle.serve_run.specs.Lives.{Lives};
ghost use Rattle.serve_run.specs.Seat.{line_served, seat_of};

use crate::decided::decide_line;
use crate::served::serve_line;
use acting_manager::ActingManager;
use byte_io::Sink;
use schedule_lines::RunFault;
use serve_lines::{read_line, read_manage_line};
use sm_manager::Manager;
use std::alloc::Global;

/// A manager that is served.
#[derive(Drop)]
pub enum ServedManager {
    /// One that does what lines say, and nothing else.
    Obeying(Manager),
    /// One that decides by itself what it does. Lines tell it the time and the packets that arrive.
    Deciding(ActingManager),
}

impl ServedManager {
    /// Handles `line`, a line without its line feed: answers the line, and flushes.
    #[tactic(auto, using(crate::proofs::Seats::lives_seated), unfolding(crate::specs::Seat::line_served))]
    pub(crate) fn answer<W: Sink>(
        &mut self,
        alloc: Global,
        line: &[u8],
        sink: &mut W,
    ) -> Result<(), RunFault>
        ensures serves { Lives W.written W.has_failed (seat_of self.new) result sink.old sink.new
            (line_served (seat_of self.old) line.now) }
        ensures flushed { OnOk result (IsTrue (W.is_flushed sink.new)) }
    {
        match self {
            ServedManager::Obeying(manager) => serve_line(alloc, manager, read_line(line), sink),
            ServedManager::Deciding(acting) => decide_line(acting, read_manage_line(line), sink),
        }
    }
}
