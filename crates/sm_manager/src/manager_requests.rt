ghost use Rattle.std.specs.Prelude.{◌≡◌, ◌+◌, ◌<◌, ◌≤◌, ◌^◌, [], ◌∷◌, ◌++◌, false, OnOk, Some, length, nat_le};
ghost use Rattle.std.specs.Prelude.{option_copied, option_map, find, slice_get, None, Ok, Option};
ghost use Rattle.plan_steps.specs.Step.{set_packet};
ghost use Rattle.request_table.specs.Numbers.{IsIndexFor};
ghost use Rattle.sm_manager.specs.Election.{info_out, info_pending};
ghost use Rattle.sm_manager.specs.ManagerRequests.{AreNumbered, how_many, is_for_step, is_step, no_step_waits};
ghost use Rattle.sm_manager.specs.ManagerRequests.{none_counts, with_number, without_number};
ghost use Rattle.sm_manager.specs.Packets.{answers};
ghost use Rattle.sm_manager.specs.Writing.{pending_step};
ghost use Rattle.std.specs.VecDeque.{deque_capacity, deque_len};
ghost use Rattle.smp_bytes.specs.Judges.{JudgesButFor};
ghost use Rattle.sm_manager.specs.declared.pending.Pending.{Pending};
ghost use Rattle.sm_manager.specs.Fault.{is_memory};
ghost use Rattle.sm_manager.specs.PlanFaults.{number_fault};

use crate::fault::ManagerFault;
use crate::outgoing::Outgoing;
use crate::pending::{Pending, Purpose};
use crate::way::Way;
use plan_steps::Step;
use request_table::RequestTable;
use smp_bytes::{AttributeId, Method, Smp};
use std::alloc::{AllocError, Global};
use std::collections::VecDeque;
use std::marker::Model;

/// The outstanding requests of a manager outside its sweeps. Contracts see these requests, the number of the next
/// request, and the number of further requests for which there is memory.
#[derive(Drop)]
pub(crate) struct ManagerRequests {
    table: RequestTable<Pending>,
    /// The number of outstanding requests that are steps of the last writing.
    steps: usize,
    /// The number of outstanding steps that must be done for the plan to count as written.
    counting: usize,
}

impl Model for ManagerRequests {
    ghost use Rattle.sm_manager.specs.ManagerRequests.{AreCounted, ManagerRequests};

    ghost Value = { ManagerRequests };

    ghost view = { λ a. record { counter = a.table.next; pending = a.table.requests; room = a.table.room } };

    ghost invariant = { λ a. AreCounted a.table.requests a.steps a.counting };
}

impl ManagerRequests {
    /// Creates an empty table. The first request will have the number 1. Does not allocate.
    pub(crate) fn new(alloc: Global) -> Self
        ensures counter { result.counter ≡ 1 }
        ensures pending { result.pending ≡ [] }
    {
        ManagerRequests {
            table: RequestTable::new(alloc, 1),
            steps: 0,
            counting: 0,
        }
    }

    /// Returns the number of outstanding requests.
    pub(crate) fn len(&self) -> usize
        ensures { result ≡ length self.now.pending }
    {
        self.table.len()
    }

    /// Returns the number of outstanding steps of the last writing.
    pub(crate) fn step_count(&self) -> usize
        ensures { result ≡ how_many is_step self.now.pending }
    {
        self.steps
    }

    /// Returns whether no step of the last writing is outstanding.
    pub(crate) fn has_no_step(&self) -> bool
        ensures { result ≡ no_step_waits self.now.pending }
    {
        self.steps == 0
    }

    /// Returns whether `count` more requests can have numbers that fit in 32 bits.
    pub(crate) fn has_numbers(&self, count: usize) -> bool
        ensures enough { result ≡ nat_le (self.now.counter + count) (2 ^ 32) }
        ensures numbered { AreNumbered self.now.counter self.now.pending }
    {
        self.table.has_numbers(count)
    }

    /// Reserves memory for `count` more requests.
    pub(crate) fn reserve(&mut self, count: usize) -> Result<(), AllocError>
        ensures counter { self.new.counter ≡ self.old.counter }
        ensures pending { self.new.pending ≡ self.old.pending }
        ensures room { OnOk result (count ≤ self.new.room) }
    {
        self.table.reserve(count)
    }

    /// Adds a request for `step` under the next number, and returns its packet. If `counts`, the plan counts as written
    /// only if the step is done. Does not allocate.
    pub(crate) fn send(&mut self, counts: bool, step: Step) -> Smp
        requires room { 0 < self.old.room }
        requires number { self.old.counter < 2 ^ 32 }
        ensures packet { result ≡ set_packet self.old.counter step }
        ensures counter { self.new.counter ≡ self.old.counter + 1 }
        ensures pending { self.new.pending
            ≡ self.old.pending ++ pending_step self.old.counter counts step ∷ [] }
        ensures room { self.old.room ≤ self.new.room + 1 }
    {
        let number = self.table.next();
        let packet = step.packet(number);
        self.table.push(Pending {
            number: number as u32,
            purpose: Purpose::Step { counts },
            attribute: step.attribute,
            modifier: step.modifier,
            path: Some(step.path),
        });
        self.steps += 1;
        if counts {
            self.counting += 1;
        }
        packet
    }

    /// Adds a request for SMInfo that goes `way` under the next number, and returns its packet. Does not allocate.
    pub(crate) fn send_info(
        &mut self,
        purpose: Purpose,
        method: Method,
        modifier: u32,
        way: Way,
        payload: &[u8; 64],
    ) -> Outgoing
        requires purpose { is_for_step purpose ≡ false }
        requires room { 0 < self.old.room }
        requires number { self.old.counter < 2 ^ 32 }
        ensures packet { result ≡ info_out method.0 modifier self.old.counter way payload.now }
        ensures counter { self.new.counter ≡ self.old.counter + 1 }
        ensures pending { self.new.pending
            ≡ self.old.pending ++ info_pending self.old.counter purpose modifier way ∷ [] }
    {
        let number = self.table.next();
        let packet = way.packet(method, modifier, number, payload);
        let to = way.lid();
        self.table.push(Pending {
            number: number as u32,
            purpose,
            attribute: AttributeId::SM_INFO.0,
            modifier,
            path: way.into_path(),
        });
        Outgoing { packet, to }
    }

    /// Returns the outstanding request at `index`, in ascending order of number, or `None` if there is none.
    pub(crate) fn get(&self, index: usize) -> Option<&Pending>
        ensures { option_copied result ≡ slice_get self.now.pending index }
    {
        self.table.get(index)
    }

    /// Returns the purpose of the outstanding request at `index`, in ascending order of number.
    pub(crate) fn purpose(&self, index: usize) -> Purpose
        requires { index < length self.now.pending }
        ensures { Some result
            ≡ option_map (λ p. p.purpose) (slice_get self.now.pending index) }
    {
        self.table.get(index).unwrap().purpose
    }

    /// Returns whether none of the outstanding requests is a step that counts.
    pub(crate) fn none_counts(&self) -> bool
        ensures { result ≡ none_counts self.now.pending }
    {
        self.counting == 0
    }

    /// Returns the index of the outstanding request with this TransactionID, or `None`. Does a binary search.
    pub(crate) fn index_of(&self, transaction: u64) -> Option<usize>
        ensures { IsIndexFor (with_number transaction self.now.pending) self.now.pending result }
    {
        self.table.index_of(transaction)
    }

    /// Returns the index of the outstanding request that `smp` answers, or `None`. Does a binary search.
    pub(crate) fn index_for(&self, smp: &Smp) -> Option<usize>
        ensures { IsIndexFor (find (answers smp.now) self.now.pending) self.now.pending result }
    {
        let index = self.table.count_below(smp.transaction_id());
        let request = self.get(index)?;
        if request.is_answered_by(smp) {
            Some(index)
        } else {
            None
        }
    }

    /// Removes the outstanding request at `index`, in ascending order of number, and returns it.
    pub(crate) fn end(&mut self, index: usize) -> Pending
        requires { index < length self.old.pending }
        ensures request { Some result ≡ slice_get self.old.pending index }
        ensures counter { self.new.counter ≡ self.old.counter }
        ensures pending { self.new.pending ≡ without_number result.number self.old.pending }
        ensures room { self.old.room ≤ self.new.room }
    {
        let ended = self.table.end(index);
        if ended.is_step() {
            self.steps -= 1;
        }
        if ended.counts() {
            self.counting -= 1;
        }
        ended
    }
}

/// Reserves memory for `count` more requests and for `packets` more packets. Fails with `SequenceSpent` or `Memory`.
pub(crate) fn make_room(
    count: usize,
    packets: usize,
    requests: &mut ManagerRequests,
    outgoing: &mut VecDeque<Outgoing>,
) -> Result<(), ManagerFault>
    ensures judged { JudgesButFor is_memory result
        (number_fault (requests.old.counter + count)) }
    ensures numbered { AreNumbered requests.old.counter requests.old.pending }
    ensures counter { requests.new.counter ≡ requests.old.counter }
    ensures pending { requests.new.pending ≡ requests.old.pending }
    ensures outgoing { outgoing.new.items ≡ outgoing.old.items }
    ensures room { OnOk result (count ≤ requests.new.room) }
    ensures more { OnOk result (deque_len outgoing.new + packets ≤ deque_capacity outgoing.new) }
{
    if !requests.has_numbers(count) {
        return Err(ManagerFault::SequenceSpent);
    }
    reserve(count, packets, requests, outgoing)?;
    Ok(())
}

/// Reserves memory for `count` more requests and for `packets` more packets.
pub(crate) fn reserve(
    count: usize,
    packets: usize,
    requests: &mut ManagerRequests,
    outgoing: &mut VecDeque<Outgoing>,
) -> Result<(), AllocError>
    ensures counter { requests.new.counter ≡ requests.old.counter }
    ensures pending { requests.new.pending ≡ requests.old.pending }
    ensures outgoing { outgoing.new.items ≡ outgoing.old.items }
    ensures room { OnOk result (count ≤ requests.new.room) }
    ensures more { OnOk result (deque_len outgoing.new + packets ≤ deque_capacity outgoing.new) }
{
    requests.reserve(count)?;
    outgoing.reserve(packets)
}
