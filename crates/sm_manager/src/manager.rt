ghost use Rattle.std.specs.Prelude.{◌≡◌, IfOk, OnOk, OnErr, option_copied, slice_get, ◌-◌};
ghost use Rattle.fact_store.specs.View.{cells_of};
ghost use Rattle.plan_steps.specs.Arrival.{EveryPacketArrives};
ghost use Rattle.plan_steps.specs.Plan.{plan_of};
ghost use Rattle.sm_manager.specs.Manager.{begin_fault, after_raise_floor, after_merge, new_manager};
ghost use Rattle.sm_manager.specs.Manager.{outstanding, progress_of, after_begin_sweep, after_take_outgoing};
ghost use Rattle.sm_manager.specs.Manager.{is_running, silent_in, swept_of};
ghost use Rattle.smp_bytes.specs.Judges.{JudgesButFor};
ghost use Rattle.sm_manager.specs.Fault.{is_memory};
ghost use Rattle.sm_manager.specs.PlanFaults.{plan_fault};
ghost use Rattle.sweep.specs.Replies.{judged};
ghost use Rattle.sm_state.specs.Standing.{info_of};

use crate::fault::ManagerFault;
use crate::manager_requests::ManagerRequests;
use crate::outgoing::{Outgoing, send_queued};
use crate::progress::Progress;
use crate::writing::Writing;
use attr_codec::{Priority, SmInfo};
use fact_store::Store;
use plan_steps::{Plan, PlanFault, Planning};
use sm_state::{Conduct, SeenManager, SmState, Standing};
use smp_bytes::{Generation, Guid, PortNum};
use std::alloc::Global;
use std::collections::VecDeque;
use std::marker::Model;
use sweep::Sweep;

/// A subnet manager at an adapter's port: its standing among other managers, how it plans, its facts, its last sweep,
/// its last writing, the outstanding requests outside sweeps, and the packets that it has queued.
#[derive(Drop)]
pub struct Manager {
    pub(crate) alloc: Global,
    pub(crate) standing: Standing,
    pub(crate) port: PortNum,
    /// The LMC and the rule that the manager plans by.
    pub(crate) planning: Planning,
    pub(crate) store: Store,
    pub(crate) sweep: Option<Sweep>,
    /// The managers that the last sweep saw, in the order in which it saw them.
    pub(crate) seen: Vec<SeenManager>,
    pub(crate) writing: Option<Writing>,
    pub(crate) requests: ManagerRequests,
    pub(crate) outgoing: VecDeque<Outgoing>,
}

impl Model for Manager {
    ghost use Rattle.sm_manager.specs.Manager.{Manager, IsSentWhole};
    ghost use Rattle.sm_manager.specs.Coded.{manager_code};

    ghost Value = { Manager };

    ghost coded = { manager_code };

    ghost view = { λ a. record {
      standing = a.standing;
      port = a.port;
      planning = a.planning;
      store = a.store;
      sweep = a.sweep;
      seen = a.seen.items;
      writing = a.writing;
      counter = a.requests.counter;
      pending = a.requests.pending;
      outgoing = a.outgoing.items;
    } };

    ghost invariant = { λ a. IsSentWhole a.sweep };
}

impl Manager {
    /// Creates a manager without facts at the port with the number `port` and the GUID `port_guid`. Its state is
    /// Discovering. Does not allocate.
    pub fn new(
        alloc: Global,
        port_guid: Guid,
        port: PortNum,
        priority: Priority,
        conduct: Conduct,
        planning: Planning,
    ) -> Self
        ensures { result ≡ new_manager port_guid port priority conduct planning }
    {
        Manager {
            alloc,
            standing: Standing::new(port_guid, priority, conduct),
            port,
            planning,
            store: Store::new(alloc),
            sweep: None,
            seen: Vec::new(alloc),
            writing: None,
            requests: ManagerRequests::new(alloc),
            outgoing: VecDeque::new(alloc),
        }
    }

    /// Begins a sweep, and queues its first request. The sweep's generation is the one after the newest generation of
    /// a fact in the store, or the store's floor if that is greater. Forgets the managers that the previous sweep
    /// saw. Under the live conduct, the sweep keeps the first PortInfo of each port and the first SwitchInfo of each
    /// switch, and a later writing carries these. Takes time linear in the number of facts.
    ///
    /// # Errors
    ///
    /// Returns the first of these that applies: `SweepRunning`, `GenerationsSpent`, `Memory`.
    pub fn begin_sweep(&mut self) -> Result<(), ManagerFault>
        ensures judged { JudgesButFor is_memory result (begin_fault self.old) }
        ensures ok { OnOk result (self.new ≡ after_begin_sweep self.old) }
        ensures err { OnErr result (self.new ≡ self.old) }
    {
        if self.is_running() {
            return Err(ManagerFault::SweepRunning);
        }
        let Some(generation) = self.next_generation() else {
            return Err(ManagerFault::GenerationsSpent);
        };
        self.outgoing.reserve(1)?;
        let keeps = self.standing.conduct.is_live();
        let mut sweep = Sweep::start(self.alloc, self.port, generation, 1, keeps)?;
        send_queued(&mut sweep, &mut self.outgoing);
        self.sweep = Some(sweep);
        self.seen.clear();
        self.standing.count_activity();
        Ok(())
    }

    /// Removes the first queued packet and returns it, or returns `None` if none is queued. Does not allocate.
    pub fn take_outgoing(&mut self) -> Option<Outgoing>
        ensures packet { result ≡ (after_take_outgoing self.old).packet }
        ensures manager { self.new ≡ (after_take_outgoing self.old).manager }
    {
        self.outgoing.pop_front()
    }

    /// Forgets the facts of generations below `floor`, and from then on ignores facts of such generations. Does
    /// nothing if `floor` is at most the store's floor. A running sweep goes on: its replies are accepted, but the
    /// facts in these replies are ignored if the sweep's generation is below `floor`. The generation of the next
    /// sweep is at least `floor`. Does not allocate.
    pub fn raise_floor(&mut self, floor: Generation)
        ensures { self.new ≡ after_raise_floor self.old floor }
    {
        self.store.raise_floor(floor);
    }

    /// Merges the facts and the floor of `other` into the manager's. If memory runs out, nothing changes.
    ///
    /// # Errors
    ///
    /// Returns only `Memory`.
    pub fn merge_from(&mut self, other: &Store) -> Result<(), ManagerFault>
        ensures ok { OnOk result (self.new ≡ after_merge self.old other.now) }
        ensures err { OnErr result (self.new ≡ self.old) }
        ensures memory { OnErr result (result ≡ Err ManagerFault.Memory) }
    {
        match self.store.merge(other) {
            Ok(()) => Ok(()),
            Err(_) => Err(ManagerFault::Memory),
        }
    }

    /// Returns the plan of the manager's facts: the LID of each end port, and the forwarding blocks of each usable
    /// switch. If the facts describe a part of the subnet exactly and the part holds the plan, every packet between
    /// its end ports arrives.
    ///
    /// # Errors
    ///
    /// Returns `NoRoom` if some end port finds no LID. Otherwise returns `Memory` if memory runs out.
    pub fn plan(&self) -> Result<Plan, ManagerFault>
        ensures judged { JudgesButFor is_memory result (plan_fault self.now.planning.lmc (cells_of self.now.store)) }
        ensures plan { IfOk result (λ plan.
            plan ≡ plan_of self.now.planning.rule self.now.planning.lmc (cells_of self.now.store)) }
        ensures arrives { IfOk result (λ plan.
            EveryPacketArrives self.now.planning.rule (cells_of self.now.store) plan) }
    {
        match self.planning.plan(self.alloc, &self.store) {
            Ok(plan) => Ok(plan),
            Err(PlanFault::NoRoom(why)) => Err(ManagerFault::NoRoom(why)),
            Err(PlanFault::Memory) => Err(ManagerFault::Memory),
        }
    }

    /// Returns the TransactionID at index `i` among those of the outstanding requests, in ascending order. Returns
    /// `None` if at most `i` requests are outstanding.
    pub fn outstanding(&self, i: usize) -> Option<u64>
        ensures { result ≡ slice_get (outstanding self.now) i }
    {
        if i < self.requests.len() {
            return match self.requests.get(i) {
                Some(request) => Some(u64::from(request.number)),
                None => None,
            };
        }
        match &self.sweep {
            Some(sweep) => sweep.outstanding(i - self.requests.len()),
            None => None,
        }
    }

    /// Returns the store of the manager's facts.
    pub fn store(&self) -> &Store
        ensures { result.now ≡ self.now.store }
    {
        &self.store
    }

    /// Returns whether the manager also writes the multicast tree.
    pub fn multicast(&self) -> bool
        ensures { result ≡ self.now.planning.multicast }
    {
        self.planning.multicast
    }

    /// Returns the SMInfo that the manager reports.
    pub fn info(&self) -> SmInfo
        ensures { result ≡ info_of self.now.standing }
    {
        self.standing.info()
    }

    /// Returns the manager's state among the managers of the subnet.
    pub fn state(&self) -> SmState
        ensures { result ≡ self.now.standing.state }
    {
        self.standing.state
    }

    /// Returns how far the last sweep has come: whether there is one and it is done, how many of the sweep's requests
    /// timed out, and through how many ports the sweep did not go on because the path would have had more than 63
    /// hops. If no sweep has begun, returns `Never`.
    pub fn progress(&self) -> Progress
        ensures { result ≡ progress_of self.now.sweep }
    {
        match &self.sweep {
            None => Progress::Never,
            Some(sweep) => {
                let unanswered = sweep.unanswered();
                let too_far = sweep.too_far();
                if sweep.is_done() {
                    Progress::Done {
                        unanswered,
                        too_far,
                    }
                } else {
                    Progress::Running {
                        unanswered,
                        too_far,
                    }
                }
            }
        }
    }

    /// Returns the last sweep, with what it has kept, if it is done. Returns `None` if it runs, or if no sweep has begun.
    pub fn swept(&self) -> Option<&Sweep>
        ensures { option_copied result ≡ swept_of self.now.sweep }
    {
        match &self.sweep {
            Some(sweep) => { if sweep.is_done() { Some(sweep) } else { None } }
            None => None,
        }
    }

    /// Returns how many of the last sweep's requests for SMInfo timed out. Each was sent to a port that reports a
    /// manager. Returns `None` if no sweep has begun.
    pub fn silent_managers(&self) -> Option<u64>
        ensures { result ≡ silent_in self.now.sweep }
    {
        match &self.sweep {
            None => None,
            Some(sweep) => Some(sweep.silent_managers()),
        }
    }

    /// Returns the managers that the last sweep saw, in the order in which it saw them.
    pub fn seen_managers(&self) -> &[SeenManager]
        ensures { result.now ≡ self.now.seen }
    {
        &self.seen
    }

    /// Returns whether there is a sweep that is not done.
    pub(crate) fn is_running(&self) -> bool
        ensures { result ≡ is_running self.now.sweep }
    {
        match &self.sweep {
            None => false,
            Some(sweep) => !sweep.is_done(),
        }
    }
}
