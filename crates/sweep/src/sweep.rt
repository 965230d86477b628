ghost use Rattle.std.specs.Prelude.{◌≡◌, ◌≤◌, IfOk, OnOk, OnErr, option_copied};
ghost use Rattle.smp_bytes.specs.Judges.{Judges};
ghost use Rattle.sweep.specs.Sweep.{is_done, outstanding_at, path_to, port_image, seen_state, switch_image};
ghost use Rattle.sweep.specs.Sweep.{after_next_request, after_timeout, started, timeout_fault};

use crate::discovered::Discovered;
use crate::fault::SweepFault;
use crate::images::Images;
use crate::question::Question;
use crate::request::transaction_of;
use crate::sweep_requests::SweepRequests;
use crate::vertex::Vertex;
use attr_codec::{Attribute, PortInfo, PortState, SwitchInfo};
use fact_store::Context;
use smp_bytes::{Generation, Guid, Path, PortNum, Smp};
use std::alloc::{AllocError, Global};
use std::marker::Model;

/// A sweep of a subnet: its queued and outstanding requests, and what it has found (subnet management, topology
/// discovery).
#[derive(Drop)]
pub struct Sweep {
    /// The port by which the sweep leaves the manager's own node.
    pub(crate) origin: PortNum,
    pub(crate) generation: Generation,
    pub(crate) requests: SweepRequests,
    pub(crate) found: Discovered,
    pub(crate) images: Images,
    pub(crate) unanswered: u64,
    /// The number of requests for SMInfo that timed out.
    pub(crate) silent_managers: u64,
}

impl Model for Sweep {
    ghost use Rattle.sweep.specs.Sweep.{Sweep, IsSweep};

    ghost Value = { Sweep };

    ghost view = { λ a. record {
      origin = a.origin;
      generation = a.generation;
      next = a.requests.next;
      queued = a.requests.queued;
      outstanding = a.requests.outstanding;
      reached = a.found.reached;
      states = a.found.states;
      images = a.images.kept;
      unanswered = a.unanswered;
      silent_managers = a.silent_managers;
      too_far = a.found.too_far;
    } };

    ghost invariant = { λ a. IsSweep (record {
      origin = a.origin;
      generation = a.generation;
      next = a.requests.next;
      queued =
          a.requests.queued;
      outstanding = a.requests.outstanding;
      reached = a.found.reached;
      states =
          a.found.states;
      images = a.images.kept;
      unanswered = a.unanswered;
      silent_managers = a.silent_managers;
      too_far = a.found.too_far;
    }) };
}

impl Sweep {
    /// Starts a sweep that leaves the manager's own node by the port `origin`. The first request asks what that node
    /// is, and has the number `first_sequence`. If `keeps`, the sweep keeps the first PortInfo of each port and the
    /// first SwitchInfo of each switch that it reads.
    pub fn start(
        alloc: Global,
        origin: PortNum,
        generation: Generation,
        first_sequence: u32,
        keeps: bool,
    ) -> Result<Sweep, AllocError>
        ensures { IfOk result
            (λ sweep. sweep ≡ started origin generation first_sequence keeps) }
    {
        let mut requests = SweepRequests::new(alloc, first_sequence);
        requests.reserve()?;
        requests.ask(Question::Node, Path::new(), Context::Start);
        Ok(Sweep {
            origin,
            generation,
            requests,
            found: Discovered::new(alloc),
            images: Images::new(alloc, keeps),
            unanswered: 0,
            silent_managers: 0,
        })
    }

    /// Takes the next request from the queue, first in, first out, and returns its packet. The request is then
    /// outstanding. Returns `None` if the queue is empty. Takes constant time.
    pub fn next_request(&mut self) -> Option<Smp>
        ensures packet { result ≡ (after_next_request self.old).packet }
        ensures sweep { self.new ≡ (after_next_request self.old).sweep }
    {
        let request = self.requests.first()?;
        let packet = request.packet(self.generation);
        self.requests.send();
        Some(packet)
    }

    /// Ends the outstanding request with the TransactionID `transaction`, and counts it as unanswered. If the request
    /// was for SMInfo, the manager that was asked counts as silent. Returns `NotOutstanding` if no such request is
    /// outstanding.
    pub fn on_timeout(&mut self, transaction: u64) -> Result<(), SweepFault>
        ensures judged { Judges result (timeout_fault self.old transaction) }
        ensures ok { OnOk result (self.new ≡ after_timeout self.old transaction) }
        ensures err { OnErr result (self.new ≡ self.old) }
    {
        let Some(index) = self.requests.index_of(self.generation, transaction) else {
            return Err(SweepFault::NotOutstanding);
        };
        let ended = self.requests.end(index);
        self.unanswered += 1;
        self.silent_managers += ended.question.managers_asked();
        Ok(())
    }

    /// Returns whether no request is to be sent and none is outstanding.
    pub fn is_done(&self) -> bool
        ensures { result ≡ is_done self.now }
    {
        self.requests.is_empty()
    }

    /// Returns the generation of the facts that the sweep reports.
    pub fn generation(&self) -> Generation
        ensures { result ≡ self.now.generation }
    {
        self.generation
    }

    /// Returns the TransactionID of the outstanding request at index `i`, in ascending order of number, or `None` if
    /// at most `i` requests are outstanding.
    pub fn outstanding(&self, i: usize) -> Option<u64>
        ensures { result ≡ outstanding_at self.now i }
    {
        let request = self.requests.get(i)?;
        Some(transaction_of(self.generation, request.number))
    }

    /// Returns the number of requests that timed out.
    pub fn unanswered(&self) -> u64
        ensures { result ≡ self.now.unanswered }
    {
        self.unanswered
    }

    /// Returns the number of requests for SMInfo that timed out. Each was sent to a port that reports a manager.
    pub fn silent_managers(&self) -> u64
        ensures count { result ≡ self.now.silent_managers }
        ensures within { result ≤ self.now.unanswered }
    {
        self.silent_managers
    }

    /// Returns the number of ports through which the sweep did not go on because the path to the port already has 63
    /// hops.
    pub fn too_far(&self) -> u64
        ensures { result ≡ self.now.too_far }
    {
        self.found.too_far()
    }

    /// Returns the vertices that were reached, in ascending order of GUID and port: one with port 0 for each switch,
    /// and one for each port of an adapter that was reached.
    pub fn reached(&self) -> &[Vertex]
        ensures { result.now ≡ self.now.reached }
    {
        self.found.vertices()
    }

    /// Returns the path that first reached the vertex of the node `guid` with the port `port`, which is 0 for a switch.
    /// Returns `None` if the vertex was not reached. Does a binary search among the vertices.
    pub fn path_to(&self, guid: Guid, port: PortNum) -> Option<&Path<63>>
        ensures { option_copied result ≡ path_to self.now guid port }
    {
        let vertex = self.found.vertex(guid, port)?;
        Some(&vertex.path)
    }

    /// Returns the state of `port` of the node `guid`, as reported by the first reply with a state that is not
    /// reserved. Returns `None` if there was no such reply. Does a binary search among the states.
    pub fn seen_state(&self, guid: Guid, port: PortNum) -> Option<PortState>
        ensures { result ≡ seen_state self.now guid port }
    {
        self.found.state(guid, port)
    }

    /// Returns the PortInfo in the first reply about `port` of the node `guid`, or `None` if this PortInfo is not
    /// kept. Does a binary search.
    pub fn port_image(&self, guid: Guid, port: PortNum) -> Option<PortInfo>
        ensures { result ≡ port_image self.now guid port }
    {
        let image = self.images.of_port(guid, port)?;
        Some(PortInfo::decode(&image.bytes))
    }

    /// Returns the SwitchInfo in the first reply of the switch `guid`, or `None` if the switch's SwitchInfo is not
    /// kept. Does a binary search.
    pub fn switch_image(&self, guid: Guid) -> Option<SwitchInfo>
        ensures { result ≡ switch_image self.now guid }
    {
        let image = self.images.of_switch(guid)?;
        Some(SwitchInfo::decode(&image.bytes))
    }
}
