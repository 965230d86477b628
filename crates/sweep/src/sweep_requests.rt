ghost use Rattle.std.specs.Prelude.{◌≡◌, ◌&&◌, ◌+◌, ◌-◌, ◌*◌, ◌<◌, ◌≤◌, ◌^◌, [], ◌∷◌, ◌++◌, length, slice_get};
ghost use Rattle.std.specs.Prelude.{option_copied, Some, OnOk, take, drop, find, nat_lt};
ghost use Rattle.request_table.specs.Order.{IsIndex};
ghost use Rattle.request_table.specs.Numbers.{AreNumbered, IsIndexFor};
ghost use Rattle.reply_facts.specs.declared.report.Context.TheVariants.{About};
ghost use Rattle.sweep.specs.declared.finding.Onward.TheVariants.{Leads};
ghost use Rattle.sweep.specs.Finding.{IsPathWithinReach};
ghost use Rattle.sweep.specs.Questions.{manager_questions, onward_questions};
ghost use Rattle.sweep.specs.Questions.{port_found_questions, port_questions, vertex_questions};
ghost use Rattle.sweep.specs.Taking.{CanTake, HasTaken};
ghost use Rattle.sweep.specs.Replies.{belongs};
ghost use Rattle.sweep.specs.SweepRequests.{SweepRequests, HasAsked};
ghost use Rattle.sweep.specs.Sweep.{is_none_left, request_with, without_number};

use crate::finding::{Finding, Onward, PortFinding};
use crate::question::Question;
use crate::request::{Request, sequence_of, transaction_of};
use crate::vertex::Vertex;
use fact_store::Context;
use request_table::RequestTable;
use smp_bytes::{Generation, Guid, Path, PortNum, Smp};
use std::alloc::{AllocError, Global};
use std::marker::Model;

/// The maximum number of requests that follow from a reply. A new switch is asked for SwitchInfo, for PortInfo of
/// port 0, and for PortInfo of each of its other ports, which are at most 254.
pub const REQUESTS_PER_REPLY: usize = 256;

/// The requests of a sweep. Contracts see the outstanding requests, the requests to be sent, the number of the next
/// request, and the number of further requests for which there is memory.
#[derive(Drop)]
pub(crate) struct SweepRequests {
    /// The outstanding requests, and then the requests to be sent.
    table: RequestTable<Request>,
    /// The number of outstanding requests.
    sent: usize,
}

impl Model for SweepRequests {
    ghost use Rattle.std.specs.Prelude.{◌≤◌, take, drop, length};
    ghost use Rattle.sweep.specs.SweepRequests.{SweepRequests};

    ghost Value = { SweepRequests };

    ghost view = { λ a. record {
      next = a.table.next;
      outstanding = take a.sent a.table.requests;
      queued = drop a.sent a.table.requests;
      room = a.table.room;
    } };

    ghost invariant = { λ a. a.sent ≤ length a.table.requests };
}

impl SweepRequests {
    /// Creates an empty table. The first request will have the number `first`. Does not allocate.
    pub(crate) fn new(alloc: Global, first: u32) -> Self
        ensures next { result.next ≡ first }
        ensures outstanding { result.outstanding ≡ [] }
        ensures queued { result.queued ≡ [] }
    {
        SweepRequests {
            table: RequestTable::new(alloc, first),
            sent: 0,
        }
    }

    /// Returns the number of the next request.
    pub(crate) fn next(&self) -> u64
        ensures { result ≡ self.now.next }
    {
        self.table.next()
    }

    /// Returns whether no request is outstanding and none is to be sent.
    pub(crate) fn is_empty(&self) -> bool
        ensures { result ≡ is_none_left self.now.queued && is_none_left self.now.outstanding }
    {
        self.table.is_empty()
    }

    /// Reserves memory for as many more requests as can follow from a reply.
    pub(crate) fn reserve(&mut self) -> Result<(), AllocError>
        ensures next { self.new.next ≡ self.old.next }
        ensures outstanding { self.new.outstanding ≡ self.old.outstanding }
        ensures queued { self.new.queued ≡ self.old.queued }
        ensures room { OnOk result (REQUESTS_PER_REPLY ≤ self.new.room) }
    {
        self.table.reserve(REQUESTS_PER_REPLY)
    }

    /// Returns the next request to be sent, or `None` if there is none.
    pub(crate) fn first(&self) -> Option<&Request>
        ensures { option_copied result ≡ slice_get self.now.queued 0 }
    {
        self.table.get(self.sent)
    }

    /// Marks the next request to be sent as sent, so that it is outstanding.
    pub(crate) fn send(&mut self)
        requires queued { 0 < length self.old.queued }
        requires few { length self.old.outstanding < 2 ^ 32 }
        ensures next { self.new.next ≡ self.old.next }
        ensures outstanding { self.new.outstanding
            ≡ self.old.outstanding ++ take 1 self.old.queued }
        ensures queued { self.new.queued ≡ drop 1 self.old.queued }
    {
        self.sent += 1;
    }

    /// Returns the outstanding request at `index`, in ascending order of number, or `None` if there is none.
    pub(crate) fn get(&self, index: usize) -> Option<&Request>
        ensures { option_copied result ≡ slice_get self.now.outstanding index }
    {
        if index < self.sent {
            self.table.get(index)
        } else {
            None
        }
    }

    /// Returns how many requests of a sweep of `generation` are numbered below `transaction`. Does a binary search.
    fn count_below(&self, generation: Generation, transaction: u64) -> usize
        ensures index { IsIndex (λ r. nat_lt r.number (transaction - generation * 2 ^ 32))
            (self.now.outstanding ++ self.now.queued) result }
        ensures numbered { AreNumbered (λ r. r.number)
            (self.now.outstanding ++ self.now.queued) self.now.next }
    {
        self.table.count_below(sequence_of(generation, transaction))
    }

    /// Returns the index of the outstanding request with this TransactionID, or `None`. Does a binary search.
    pub(crate) fn index_of(&self, generation: Generation, transaction: u64) -> Option<usize>
        ensures { IsIndexFor (request_with generation transaction self.now.outstanding)
            self.now.outstanding result }
    {
        let index = self.count_below(generation, transaction);
        let request = self.get(index)?;
        if transaction_of(generation, request.number) == transaction {
            Some(index)
        } else {
            None
        }
    }

    /// Returns the index of the outstanding request that `smp` answers, or `None`. Does a binary search.
    pub(crate) fn index_for(&self, generation: Generation, smp: &Smp) -> Option<usize>
        ensures { IsIndexFor (find (belongs generation smp.now) self.now.outstanding)
            self.now.outstanding result }
    {
        let index = self.count_below(generation, smp.transaction_id());
        let request = self.get(index)?;
        if request.is_answered_by(generation, smp) {
            Some(index)
        } else {
            None
        }
    }

    /// Removes and returns the outstanding request at `index`, in ascending order of number.
    pub(crate) fn end(&mut self, index: usize) -> Request
        requires { index < length self.old.outstanding }
        ensures request { Some result ≡ slice_get self.old.outstanding index }
        ensures next { self.new.next ≡ self.old.next }
        ensures outstanding { self.new.outstanding
            ≡ without_number result.number self.old.outstanding }
        ensures queued { self.new.queued ≡ self.old.queued }
        ensures room { self.old.room ≤ self.new.room }
    {
        self.sent -= 1;
        self.table.end(index)
    }

    /// Appends a request to the queue under the next number. Does not allocate.
    pub(crate) fn ask(&mut self, question: Question, path: Path<63>, context: Context)
        requires room { 0 < self.old.room }
        requires number { self.old.next < 2 ^ 32 }
        ensures { HasAsked (record { question = question; path = path; context = context } ∷ [])
            self.old self.new }
    {
        let number = self.table.next() as u32;
        self.table.push(Request {
            number,
            question,
            path,
            context,
        });
    }

    /// Queues the questions for PortInfo of all ports of the switch `vertex`, port 0 first.
    fn ask_ports(&mut self, vertex: &Vertex)
        requires room { vertex.now.ports + 1 ≤ self.old.room }
        requires number { self.old.next + (vertex.now.ports + 1) ≤ 2 ^ 32 }
        requires ports { vertex.now.ports < 255 }
        ensures { HasAsked
            (port_questions 0 (vertex.now.ports + 1) vertex.now.path (About vertex.now.guid))
            self.old self.new }
    {
        for port in 0..vertex.ports + 1 {
            let context = Context::About(vertex.guid);
            self.ask(
                Question::Port(PortNum::new(port)),
                vertex.path.copy(),
                context,
            );
        }
    }

    /// Queues the questions about the new vertex `vertex`.
    fn ask_vertex(&mut self, vertex: &Vertex)
        requires room { length (vertex_questions vertex.now) ≤ self.old.room }
        requires number { self.old.next + length (vertex_questions vertex.now) ≤ 2 ^ 32 }
        requires few { length (vertex_questions vertex.now) ≤ REQUESTS_PER_REPLY }
        ensures { HasAsked (vertex_questions vertex.now) self.old self.new }
    {
        let context = Context::About(vertex.guid);
        if vertex.is_switch() {
            self.ask(Question::Switch, vertex.path.copy(), context);
            self.ask_ports(vertex);
        } else {
            self.ask(Question::Port(vertex.port), vertex.path.copy(), context);
        }
    }

    /// Queues the question for SMInfo of the manager at the port that `path` leads to, if `found` says to ask it.
    fn ask_manager(&mut self, path: &Path<63>, found: &PortFinding)
        requires room { length (manager_questions path.now found.now) ≤ self.old.room }
        requires number { self.old.next + length (manager_questions path.now found.now) ≤ 2 ^ 32 }
        ensures { HasAsked (manager_questions path.now found.now) self.old self.new }
    {
        if found.asks_manager {
            self.ask(
                Question::Manager(found.guid, found.port),
                path.copy(),
                Context::About(found.guid),
            );
        }
    }

    /// Queues the question for NodeInfo of the node behind `port` of `guid`, along `path` with `port` appended.
    fn ask_across(&mut self, path: Path<63>, guid: Guid, port: PortNum)
        requires path { length path < 63 }
        requires room { 0 < self.old.room }
        requires number { self.old.next < 2 ^ 32 }
        ensures { HasAsked (onward_questions path guid port Leads) self.old self.new }
    {
        let mut path = path;
        path.push(port);
        self.ask(Question::Node, path, Context::Via(guid, port));
    }

    /// Queues the questions that follow from the finding `found` about a port that `path` leads to.
    fn ask_of_port(&mut self, path: Path<63>, found: &PortFinding)
        requires reach { IsPathWithinReach path found.now.onward }
        requires room { length (port_found_questions path found.now) ≤ self.old.room }
        requires number { self.old.next + length (port_found_questions path found.now) ≤ 2 ^ 32 }
        ensures { HasAsked (port_found_questions path found.now) self.old self.new }
    {
        self.ask_manager(&path, found);
        match found.onward {
            Onward::Leads => self.ask_across(path, found.guid, found.port),
            Onward::Stays | Onward::TooFar => {}
        }
    }

    /// Removes the outstanding request at `index`, in ascending order of number, and queues the questions that follow
    /// from `finding`. Does not allocate.
    pub(crate) fn take(&mut self, index: usize, finding: &Finding)
        requires { CanTake self.old index finding.now }
        ensures { HasTaken index finding.now self.old self.new }
    {
        let Request { path, .. } = self.end(index);
        match finding {
            Finding::NewVertex(vertex) => self.ask_vertex(vertex),
            Finding::Port(found) => self.ask_of_port(path, found),
            Finding::Nothing => {}
        }
    }
}
