ghost use Rattle.std.specs.Prelude.{◌≡◌, ◌+◌, ◌-◌, ◌^◌, IfSome, IsNone};
ghost use Rattle.sm_manager.specs.Manager.{newest_held, next_generation};

use crate::manager::Manager;
use smp_bytes::Generation;

impl Manager {
    /// Returns the newest generation of a fact in the store, or 0 if there is no fact.
    fn newest_held(&self) -> u32
        ensures { result ≡ newest_held self.now.store }
    {
        match self.store.newest() {
            None => 0,
            Some(newest) => newest.number(),
        }
    }

    /// Returns the generation after the newest one in the store, but at least its floor, or `None` if there is none.
    pub(crate) fn next_generation(&self) -> Option<Generation>
        ensures some { IfSome result (λ next. next ≡ next_generation self.now.store) }
        ensures none { IsNone result → newest_held self.now.store ≡ 2 ^ 32 - 1 }
        ensures last { newest_held self.now.store ≡ 2 ^ 32 - 1 → IsNone result }
    {
        let newest = self.newest_held();
        if newest == u32::MAX {
            None
        } else {
            let floor = self.store.floor();
            Generation::new((newest + 1).max(floor.number()))
        }
    }
}
