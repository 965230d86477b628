ghost use Rattle.std.specs.Prelude.{◌≡◌, IfOk};
ghost use Rattle.fact_store.specs.View.{cells_of};
ghost use Rattle.smp_bytes.specs.Judges.{JudgesButFor};
ghost use Rattle.lid_assign.specs.LidFault.{is_memory, lid_fault, no_room};
ghost use Rattle.lft_blocks.specs.Arrival.{EveryPacketArrives};
ghost use Rattle.lft_blocks.specs.Plan.{plan_of};
ghost use Rattle.lft_blocks.specs.Rule.{value_of};

use crate::{Plan, PlanFault, Rule};
use attr_codec::Lmc;
use fact_store::Store;
use std::alloc::{AllocError, Global};
use std::marker::Model;

/// How a manager plans: its LMC, its rule, and whether it also writes the multicast tree. All managers of a subnet
/// should plan alike.
#[derive(Drop)]
pub struct Planning {
    /// The LMC: an adapter port has 2^LMC LIDs.
    pub lmc: Lmc,
    /// The rule of routing: how packets are routed between switches.
    pub rule: Rule,
    /// Whether the multicast tree is written too.
    pub multicast: bool,
}

impl Model for Planning {
    ghost use Rattle.lft_blocks.specs.Rule.{value_of};
    ghost use Rattle.lft_blocks.specs.Planning.{Planning, planning_code};

    ghost Value = { Planning };

    ghost coded = { planning_code };

    ghost view = { λ a. record { lmc = a.lmc; rule = value_of a.rule; multicast = a.multicast } };
}

impl Planning {
    /// Creates a planning with `lmc` and `rule`, by which the multicast tree is written if `multicast`.
    pub fn new(lmc: Lmc, rule: Rule, multicast: bool) -> Self
        ensures { result ≡ record { lmc = lmc; rule = value_of rule; multicast = multicast } }
    {
        Planning {
            lmc,
            rule,
            multicast,
        }
    }

    /// Returns a copy. Takes time linear in the number of GUIDs that the rule names. Returns an error if memory runs
    /// out.
    pub fn try_clone(&self, alloc: Global) -> Result<Self, AllocError>
        ensures { IfOk result (λ planning. planning ≡ self.now) }
    {
        Ok(Planning {
            lmc: self.lmc,
            rule: self.rule.try_clone(alloc)?,
            multicast: self.multicast,
        })
    }

    /// Plans the view in `store`. If the plan is in force in a part, every packet arrives there.
    ///
    /// # Errors
    ///
    /// Returns `NoRoom` if there is no room for the LIDs, and otherwise `Memory` if memory runs out.
    pub fn plan(&self, alloc: Global, store: &Store) -> Result<Plan, PlanFault>
        ensures judged { JudgesButFor is_memory result (lid_fault (no_room self.now.lmc (cells_of store.now))) }
        ensures plan { IfOk result (λ plan. plan ≡ plan_of self.now.rule self.now.lmc (cells_of store.now)) }
        ensures arrives { IfOk result (λ plan. EveryPacketArrives self.now.rule (cells_of store.now) plan) }
    {
        Plan::of(alloc, store, self.lmc, &self.rule)
    }
}
