//! How a manager deals with other managers: its state after a sweep, its polls, and its handovers.
ghost use Rattle.std.specs.Prelude.{◌≡◌, ◌<◌, ◌+◌, ◌≤◌, ◌^◌, ◌∷◌, ◌++◌, [], None, Some, true, IfOk, OnOk, OnErr};
ghost use Rattle.std.specs.Prelude.{option_copied};
ghost use Rattle.std.specs.VecDeque.{deque_capacity, deque_len};
ghost use Rattle.fact_store.specs.View.{cells_of};
ghost use Rattle.lid_assign.specs.Lids.{lid_of, lids};
ghost use Rattle.subnet_view.specs.EndPort.{is_end_port};
ghost use Rattle.smp_bytes.specs.Judges.{Judges, JudgesButFor};
ghost use Rattle.sm_manager.specs.Election.{after_handover, handed_to, handing_fault, handover_fault};
ghost use Rattle.sm_manager.specs.Election.{after_rediscover, after_yield, rediscover_fault, yield_fault};
ghost use Rattle.sm_manager.specs.Election.{planned_fault, port_seen, receiver_fault, receiver_lid, receiver_way};
ghost use Rattle.sm_manager.specs.Election.{after_poll, control_out, info_pending, poll_fault, poll_way};
ghost use Rattle.sm_manager.specs.Election.{along, if_way_out, is_way_out, path_seen, unless_way, way_seen};
ghost use Rattle.sm_manager.specs.Election.{message_count, message_out, message_pending};
ghost use Rattle.sm_manager.specs.declared.pending.Purpose.TheVariants.{Control as ForControl};
ghost use Rattle.sm_state.specs.Control.{modifier_of_control};
ghost use Rattle.sm_manager.specs.Fault.{is_memory};
ghost use Rattle.sm_manager.specs.Manager.{after_verdict};
ghost use Rattle.sm_manager.specs.PlanFaults.{number_fault, or_else, plan_fault};

use crate::fault::ManagerFault;
use crate::manager::Manager;
use crate::manager_requests::{ManagerRequests, make_room, reserve};
use crate::outgoing::Outgoing;
use crate::pending::Purpose;
use crate::way::Way;
use crate::write_steps::where_numbered;
use attr_codec::Attribute;
use fact_store::Store;
use lid_assign::{LidFault, LidMap, assign, no_room};
use sm_state::{
    Control, Event, Message, SeenManager, SmState, Standing, heir, polled, step, successor,
    sweep_verdict,
};
use smp_bytes::{Lid, Method, Path, PortNum};
use std::collections::VecDeque;
use subnet_view::{EndPort, is_end_port};

/// Changes the state in `standing` at the end of a sweep that saw the managers `seen`.
pub(crate) fn end_sweep(standing: &mut Standing, seen: &[SeenManager])
    ensures { standing.new ≡ after_verdict seen.now standing.old }
{
    let event = sweep_verdict(&standing.info(), seen);
    standing.move_by(event);
}

impl Manager {
    /// Queues a poll to the manager at `lid` or, if `lid` is `None`, to a manager that the last sweep saw. In the
    /// second case, the poll goes to the first master that this manager hears or, if there is no such master, to the
    /// greatest manager that outranks this one. Ties go to the first. A poll without `lid` goes along the path by
    /// which the sweep reached the port of the polled manager. The poll counts as answered once its answer comes, and
    /// as lost once it times out.
    ///
    /// # Errors
    ///
    /// Returns the first of these that applies: `NotStandby`; `Nobody` if `lid` is `None` and the sweep saw no
    /// manager to poll or has no usable path to that manager; `SequenceSpent`; `Memory`.
    pub fn poll(&mut self, lid: Option<Lid>) -> Result<(), ManagerFault>
        ensures judged { JudgesButFor is_memory result (poll_fault self.old lid) }
        ensures ok { OnOk result (self.new ≡ after_poll self.old lid) }
        ensures err { OnErr result (self.new ≡ self.old) }
    {
        if !self.standing.is_in(SmState::Standby) {
            return Err(ManagerFault::NotStandby);
        }
        let way = self.poll_way(lid)?;
        make_room(1, 1, &mut self.requests, &mut self.outgoing)?;
        let poll = self
            .requests
            .send_info(Purpose::Poll, Method::GET, 0, way, &[0; 64]);
        self.outgoing.push_back_reserved(poll);
        Ok(())
    }

    /// Returns the way of a poll, to `lid` or, if it is `None`, to the manager to poll, or `Nobody` if there is none.
    fn poll_way(&self, lid: Option<Lid>) -> Result<Way, ManagerFault>
        ensures judged { Judges result (unless_way (poll_way self.now lid)) }
        ensures way { IfOk result (λ way. poll_way self.now lid ≡ Some way) }
    {
        match lid {
            Some(lid) => Ok(Way::ToLid(lid)),
            None => self.way_seen(polled(&self.standing.info(), &self.seen)),
        }
    }

    /// Returns the way to the port where `seen` was seen: the path by which the last sweep first reached it, if it has
    /// at most 63 hops and leaves by this manager's port, and otherwise `Nobody`.
    fn way_seen(&self, seen: Option<SeenManager>) -> Result<Way, ManagerFault>
        ensures judged { Judges result (unless_way (way_seen self.now seen)) }
        ensures way { IfOk result (λ way. way_seen self.now seen ≡ Some way) }
    {
        let Some(seen) = seen else {
            return Err(ManagerFault::Nobody);
        };
        match self.path_seen(&seen) {
            None => Err(ManagerFault::Nobody),
            Some(path) => way_along(self.port, path),
        }
    }

    /// Returns the path by which the last sweep first reached the port where it saw the manager `seen`.
    fn path_seen(&self, seen: &SeenManager) -> Option<&Path<63>>
        ensures { option_copied result ≡ path_seen self.now.sweep seen.now }
    {
        match &self.sweep {
            Some(sweep) => sweep.path_to(seen.guid, seen.port),
            None => None,
        }
    }

    /// Asks the successor to take over. The successor is the greatest manager that this one hears, that the last
    /// sweep saw in Standby or Master, and that wins over this one. If several managers are equal, the successor is
    /// the first of them. Under the live conduct, queues a HANDOVER along the path by which the sweep reached the port
    /// where the successor was seen. Otherwise queues it to the LID that the plan gives to this port, and computes the
    /// plan's LIDs anew. This manager stays Master until the successor acknowledges or, under the live conduct, answers
    /// with status 0.
    ///
    /// # Errors
    ///
    /// Returns the first of these that applies: `NotMaster`; `Nobody` if there is no successor or, under the live
    /// conduct, no usable path to it; `NoRoom`; `Nobody` if the successor's port is not known to be an end port and
    /// thus has no LID in the plan; `SequenceSpent`; `Memory`. The live conduct needs no LID, and so neither `NoRoom`
    /// nor the second `Nobody` applies.
    pub fn handover(&mut self) -> Result<(), ManagerFault>
        ensures judged { JudgesButFor is_memory result (handover_fault self.old) }
        ensures ok { OnOk result (self.new ≡ after_handover self.old) }
        ensures err { OnErr result (self.new ≡ self.old) }
    {
        let successor = successor(&self.standing.info(), &self.seen);
        self.hand_to(successor)
    }

    /// Asks the heir to take over, although this manager wins over it. The heir is the greatest master that this
    /// manager hears and that the last sweep saw or, if it saw no master, the greatest standby that it hears; ties go
    /// to the first. A master that gets a HANDOVER looks at the subnet anew. Otherwise as `handover`.
    ///
    /// # Errors
    ///
    /// As `handover`, with the heir in place of the successor.
    pub fn yield_up(&mut self) -> Result<(), ManagerFault>
        ensures judged { JudgesButFor is_memory result (yield_fault self.old) }
        ensures ok { OnOk result (self.new ≡ after_yield self.old) }
        ensures err { OnErr result (self.new ≡ self.old) }
    {
        let heir = heir(&self.standing.info(), &self.seen);
        self.hand_to(heir)
    }

    /// Leaves Standby for Discovering, as if three polls in a row had been lost: nobody is master. Does not allocate.
    ///
    /// # Errors
    ///
    /// Returns only `NotStandby`.
    pub fn rediscover(&mut self) -> Result<(), ManagerFault>
        ensures judged { Judges result (rediscover_fault self.old) }
        ensures ok { OnOk result (self.new ≡ after_rediscover self.old) }
        ensures err { OnErr result (self.new ≡ self.old) }
    {
        if self.standing.is_in(SmState::Standby) {
            self.standing.move_by(Event::PollsUnanswered);
            Ok(())
        } else {
            Err(ManagerFault::NotStandby)
        }
    }

    /// Queues a HANDOVER to the port where `receiver` was seen. Fails with `NotMaster`, or the fault of `receiver_way`.
    fn hand_to(&mut self, receiver: Option<SeenManager>) -> Result<(), ManagerFault>
        ensures judged { JudgesButFor is_memory result (handing_fault self.old receiver) }
        ensures ok { OnOk result (self.new ≡ handed_to self.old (receiver_way self.old receiver)) }
        ensures err { OnErr result (self.new ≡ self.old) }
    {
        let transition = step(
            self.standing.conduct,
            self.standing.state,
            Event::HandoverWanted,
        );
        let Some(message) = transition.message else {
            return Err(ManagerFault::NotMaster);
        };
        let way = self.receiver_way(receiver)?;
        reserve(1, 1, &mut self.requests, &mut self.outgoing)?;
        self.standing.move_to(transition.state);
        send_control(
            way,
            message.control(),
            &self.standing,
            &mut self.requests,
            &mut self.outgoing,
        );
        Ok(())
    }

    /// Returns the way of a HANDOVER to the port where `receiver` was seen: under the live conduct the path by which
    /// the last sweep first reached it, and otherwise to its LID in the plan.
    fn receiver_way(&self, receiver: Option<SeenManager>) -> Result<Way, ManagerFault>
        ensures judged { JudgesButFor is_memory result (receiver_fault self.now receiver) }
        ensures way { IfOk result (λ way. receiver_way self.now receiver ≡ Some way) }
        ensures number { OnOk result (self.now.counter < 2 ^ 32) }
    {
        if self.standing.conduct.is_live() {
            self.numbered_way(receiver)
        } else {
            let lid = self.receiver_lid(receiver)?;
            Ok(Way::ToLid(lid))
        }
    }

    /// Returns the way to the port where `receiver` was seen, `Nobody`, or `SequenceSpent` if no number is left.
    fn numbered_way(&self, receiver: Option<SeenManager>) -> Result<Way, ManagerFault>
        ensures judged { Judges result
            (or_else (unless_way (way_seen self.now receiver)) (number_fault (self.now.counter + 1))) }
        ensures way { IfOk result (λ way. way_seen self.now receiver ≡ Some way) }
        ensures number { OnOk result (self.now.counter < 2 ^ 32) }
    {
        let way = self.way_seen(receiver)?;
        if self.requests.has_numbers(1) {
            Ok(way)
        } else {
            Err(ManagerFault::SequenceSpent)
        }
    }

    /// Returns the LID that the plan gives to the port where the manager `receiver` was seen, or the first fault.
    fn receiver_lid(&self, receiver: Option<SeenManager>) -> Result<Lid, ManagerFault>
        ensures judged { JudgesButFor is_memory result (planned_fault self.now receiver) }
        ensures lid { IfOk result (λ lid. receiver_lid self.now receiver ≡ Some lid) }
        ensures number { OnOk result (self.now.counter < 2 ^ 32) }
    {
        let Some(receiver) = receiver else {
            return Err(ManagerFault::Nobody);
        };
        let Some(port) = port_seen(&self.store, &receiver) else {
            return Err(self.lidless_fault());
        };
        where_numbered(self.planned_lid(port), self.requests.has_numbers(1))
    }

    /// Returns why nothing can be sent to a port that is no known end port: `NoRoom` or `Nobody`. Does not allocate.
    fn lidless_fault(&self) -> ManagerFault
        ensures { Some result
            ≡ or_else (plan_fault self.now.planning.lmc (cells_of self.now.store)) (Some ManagerFault.Nobody) }
    {
        match no_room(&self.store, self.planning.lmc) {
            Some(why) => ManagerFault::NoRoom(why),
            None => ManagerFault::Nobody,
        }
    }

    /// Returns the LID that the plan gives to the end port `port`, `NoRoom` if some end port finds none, or `Memory`.
    fn planned_lid(&self, port: EndPort) -> Result<Lid, ManagerFault>
        requires { is_end_port (cells_of self.now.store) port.node port.port ≡ true }
        ensures judged { JudgesButFor is_memory result (plan_fault self.now.planning.lmc (cells_of self.now.store)) }
        ensures lid { IfOk result (λ lid. lid_of (lids self.now.planning.lmc (cells_of self.now.store)) port
            ≡ Some lid) }
    {
        let lids = self.plan_lids()?;
        Ok(lids.lid_of(port).unwrap())
    }

    /// Returns the LIDs of this manager's plan, `NoRoom` if some end port finds no LID, or `Memory`.
    fn plan_lids(&self) -> Result<LidMap, ManagerFault>
        ensures judged { JudgesButFor is_memory result (plan_fault self.now.planning.lmc (cells_of self.now.store)) }
        ensures lids { IfOk result (λ map. map ≡ lids self.now.planning.lmc (cells_of self.now.store)) }
    {
        match assign(self.alloc, &self.store, self.planning.lmc) {
            Ok(lids) => Ok(lids),
            Err(LidFault::NoRoom(why)) => Err(ManagerFault::NoRoom(why)),
            Err(LidFault::Memory) => Err(ManagerFault::Memory),
        }
    }
}

/// Returns the port where the manager `seen` was seen, if the facts of `store` say that it is an end port.
fn port_seen(store: &Store, seen: &SeenManager) -> Option<EndPort>
    ensures { result ≡ port_seen (cells_of store.now) seen.now }
{
    if !is_end_port(store, seen.guid, seen.port) {
        return None;
    }
    Some(EndPort {
        node: seen.guid,
        port: seen.port,
    })
}

/// Returns the way along `path`. Returns `Nobody` if the path does not leave by `port` or has more than 63 hops.
fn way_along(port: PortNum, path: &Path<63>) -> Result<Way, ManagerFault>
    ensures judged { Judges result (unless_way (along (if_way_out port (Some path.now)))) }
    ensures way { IfOk result (λ way. along (if_way_out port (Some path.now)) ≡ Some way) }
{
    if is_way_out(port, path) {
        Ok(Way::Along(path.copy()))
    } else {
        Err(ManagerFault::Nobody)
    }
}

/// Returns whether `path` leaves by `port` and has at most 63 hops.
fn is_way_out(port: PortNum, path: &Path<63>) -> bool
    ensures { result ≡ is_way_out port path.now }
{
    match path.get(0) {
        Some(first) => first == port && path.len() <= 63,
        None => false,
    }
}

/// Queues the control that carries `message`, to be sent by `way`, if there are both. Does not allocate.
pub(crate) fn send_message(
    way: Option<Way>,
    message: &Option<Message>,
    standing: &Standing,
    requests: &mut ManagerRequests,
    outgoing: &mut VecDeque<Outgoing>,
)
    requires number { requests.old.counter + message_count way message.now ≤ 2 ^ 32 }
    requires room { message_count way message.now ≤ requests.old.room }
    requires outgoing { deque_len outgoing.old + message_count way message.now ≤ deque_capacity outgoing.old }
    ensures counter { requests.new.counter ≡ requests.old.counter + message_count way message.now }
    ensures pending { requests.new.pending ≡ requests.old.pending
        ++ message_pending requests.old.counter way message.now }
    ensures outgoing { outgoing.new.items ≡ outgoing.old.items
        ++ message_out standing.now requests.old.counter way message.now }
{
    match way {
        None => {}
        Some(way) => match message {
            None => {}
            Some(message) => send_control(way, message.control(), standing, requests, outgoing),
        },
    }
}

/// Queues `control`, with the SMInfo of `standing`, to be sent by `way`. Does not allocate.
fn send_control(
    way: Way,
    control: Control,
    standing: &Standing,
    requests: &mut ManagerRequests,
    outgoing: &mut VecDeque<Outgoing>,
)
    requires number { requests.old.counter < 2 ^ 32 }
    requires room { 0 < requests.old.room }
    requires outgoing { deque_len outgoing.old < deque_capacity outgoing.old }
    ensures counter { requests.new.counter ≡ requests.old.counter + 1 }
    ensures pending { requests.new.pending ≡ requests.old.pending
        ++ info_pending requests.old.counter ForControl (modifier_of_control control) way ∷ [] }
    ensures outgoing { outgoing.new.items
        ≡ outgoing.old.items ++ control_out standing.now requests.old.counter way control ∷ [] }
{
    let modifier = control.modifier();
    let data = standing.info_with(control).encode();
    let out = requests.send_info(Purpose::Control, Method::SET, modifier, way, &data);
    outgoing.push_back_reserved(Outgoing { ..out });
}
