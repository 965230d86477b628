//! The command that makes a manager take in the facts of another manager.
ghost use Rattle.std.specs.Prelude.{◌≡◌, ◌≢◌, ◌<◌, Err, Some, length, slice_get, slice_set, OnErr, OnOk};
ghost use Rattle.sm_manager.specs.Manager.{after_merge};
ghost use Rattle.schedule_run.specs.Commands.{after_merge_line};
ghost use Rattle.schedule_run.specs.World.{Does, value_of};

use crate::world::{Seated, World};
use byte_io::Sink;
use schedule_lines::{RunFault, refuse_manager};
use sm_manager::ManagerFault;

impl World<'_> {
    /// Merges the facts and the floor of the manager at `other` into that at `seat`, unless they are the same.
    #[tactic(auto, unfolding(crate::specs::Commands::after_merge_line))]
    pub(crate) fn merge<W: Sink>(
        &mut self,
        seat: usize,
        other: usize,
        sink: &mut W,
    ) -> Result<(), RunFault>
        requires seat { seat < length self.old.managers.items }
        requires other { other < length self.old.managers.items }
        ensures does { Does W.written W.has_failed self.old self.new result sink.old sink.new
            (after_merge_line (value_of self.old) seat other) }
    {
        if seat == other {
            return Ok(());
        }
        match merge_at(&mut self.managers, seat, other) {
            Ok(()) => Ok(()),
            Err(fault) => refuse_manager(sink, fault),
        }
    }
}

/// Merges the facts and the floor of the manager at `other` into that at `seat`, taken out of the list meanwhile.
fn merge_at(managers: &mut Vec<Seated>, seat: usize, other: usize) -> Result<(), ManagerFault>
    requires seat { seat < length managers.old.items }
    requires other { other < length managers.old.items }
    requires apart { seat ≢ other }
    ensures managers { length managers.new.items ≡ length managers.old.items }
    ensures ok { (s o : _) → slice_get managers.old.items seat ≡ Some s
        → slice_get managers.old.items other ≡ Some o
        → OnOk result (managers.new.items ≡ slice_set managers.old.items seat
        (record { seat = s.seat; manager = after_merge s.manager o.manager.store })) }
    ensures memory { OnErr result (result ≡ Err ManagerFault.Memory) }
{
    let mut seated = managers.remove(seat);
    let index = if seat < other { other - 1 } else { other };
    let merged = seated.manager.merge_from(managers[index].manager.store());
    match managers.insert(seat, seated) {
        Ok(()) => merged,
        Err(_) => unreachable!(),
    }
}
