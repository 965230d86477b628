//! The answers to requests that other managers send.
ghost use Rattle.std.specs.Prelude.{◌≡◌, ◌<◌, ◌^◌, OnOk, OnErr};
ghost use Rattle.smp_bytes.specs.Judges.{JudgesButFor};
ghost use Rattle.sm_manager.specs.Election.{message_count};
ghost use Rattle.sm_manager.specs.Fault.{is_memory};
ghost use Rattle.sm_manager.specs.Packets.{is_info_request, unless_spent};
ghost use Rattle.sm_manager.specs.SmInfoAnswers.{acknowledged_by, answer_data, answer_out, controlled, is_control};
ghost use Rattle.sm_manager.specs.SmInfoAnswers.{replying, served};
ghost use Rattle.sm_manager.specs.SmInfoAnswers.{status_for};
ghost use Rattle.sm_state.specs.Standing.{moved_to};
ghost use Rattle.sm_state.specs.Transitions.{status_of};

use crate::fault::ManagerFault;
use crate::handover::send_message;
use crate::manager::Manager;
use crate::manager_requests::make_room;
use crate::outgoing::Outgoing;
use crate::way::Way;
use attr_codec::Attribute;
use sm_state::{Event, Message, Standing, Transition, step};
use smp_bytes::{AttributeId, Lid, Method, Smp, SmpClass, Status};
use std::alloc::AllocError;
use std::collections::VecDeque;

impl Manager {
    /// Answers the request `smp` for SMInfo, and obeys it if it is a control for which the table of states has a move
    /// and that came by LIDs or, under the live conduct, by any way. The answer goes back along the path of `smp`, or
    /// to `from`, the LID of the sender. Fails with `SequenceSpent` or `Memory`.
    pub(crate) fn serve(&mut self, smp: &Smp, from: Option<Lid>) -> Result<(), ManagerFault>
        ensures judged { JudgesButFor is_memory result
            (unless_spent self.old (served self.old smp.now from)).fault }
        ensures ok { OnOk result (self.new
            ≡ (unless_spent self.old (served self.old smp.now from)).manager) }
        ensures err { OnErr result (self.new ≡ self.old) }
    {
        if is_control(&self.standing, smp) {
            self.answer_control(smp, from)
        } else {
            self.reply(smp, from)
        }
    }

    /// Queues the answer to the request `smp` for SMInfo, without taking it as a control, or fails with `Memory`.
    fn reply(&mut self, smp: &Smp, from: Option<Lid>) -> Result<(), ManagerFault>
        ensures judged { JudgesButFor is_memory result
            (unless_spent self.old (replying self.old smp.now from)).fault }
        ensures ok { OnOk result (self.new
            ≡ (unless_spent self.old (replying self.old smp.now from)).manager) }
        ensures err { OnErr result (self.new ≡ self.old) }
    {
        make_room(0, 1, &mut self.requests, &mut self.outgoing)?;
        self.standing.count_request();
        let answer = answer(smp, &from, status_for(smp), &self.standing);
        self.outgoing.push_back_reserved(answer);
        Ok(())
    }

    /// Moves the state by the table of states, and queues the answer to the control `smp` and, if it came by LIDs, the
    /// message of the transition to `from`. Fails with `SequenceSpent` if no number is left for it, or with `Memory`.
    fn answer_control(&mut self, smp: &Smp, from: Option<Lid>) -> Result<(), ManagerFault>
        ensures judged { JudgesButFor is_memory result
            (unless_spent self.old (controlled self.old smp.now from)).fault }
        ensures ok { OnOk result (self.new
            ≡ (unless_spent self.old (controlled self.old smp.now from)).manager) }
        ensures err { OnErr result (self.new ≡ self.old) }
    {
        let transition = step(
            self.standing.conduct,
            self.standing.state,
            Event::Control(smp.attribute_modifier()),
        );
        let message = transition.message;
        let way = acknowledged_by(smp, from);
        let count = message_count(&way, &message);
        make_room(count, count + 1, &mut self.requests, &mut self.outgoing)?;
        self.standing.count_request();
        let answer = move_on(&transition, smp, &from, &mut self.standing);
        self.outgoing.push_back_reserved(answer);
        send_message(
            way,
            &message,
            &self.standing,
            &mut self.requests,
            &mut self.outgoing,
        );
        Ok(())
    }
}

/// Moves `standing` by `transition`, and returns the answer to the control `smp`.
fn move_on(
    transition: &Transition,
    smp: &Smp,
    from: &Option<Lid>,
    standing: &mut Standing,
) -> Outgoing
    ensures standing { standing.new ≡ moved_to transition.now.state standing.old }
    ensures answer { result ≡ answer_out (moved_to transition.now.state standing.old)
        smp.now from.now (status_of transition.now) }
{
    standing.move_to(transition.state);
    answer(smp, from, transition.status(), standing)
}

/// Builds the answer to `smp` with `status`, sent back along the directed route of `smp` or, if it has none, to `from`.
fn answer(smp: &Smp, from: &Option<Lid>, status: Status, standing: &Standing) -> Outgoing
    requires { status.0 < 2 ^ 15 }
    ensures { result ≡ answer_out standing.now smp.now from.now status.0 }
{
    let to = match smp.class() {
        SmpClass::DirectedRoute => None,
        SmpClass::LidRouted => *from,
    };
    let packet = smp.answer(status, &answer_data(smp, status, standing));
    Outgoing { packet, to }
}

/// Returns the way of the acknowledgement of the control `smp`: to `from` unless it came along a directed route.
fn acknowledged_by(smp: &Smp, from: Option<Lid>) -> Option<Way>
    ensures { result ≡ acknowledged_by smp.now from }
{
    match smp.class() {
        SmpClass::DirectedRoute => None,
        SmpClass::LidRouted => from.map(Way::ToLid),
    }
}

/// Returns the data of the answer to `smp`: the manager's SMInfo if `status` is 0, and otherwise the data of `smp`.
fn answer_data(smp: &Smp, status: Status, standing: &Standing) -> [u8; 64]
    ensures { result ≡ answer_data standing.now smp.now status.0 }
{
    if status == Status::DONE {
        standing.info().encode()
    } else {
        smp.attribute_data()
    }
}

/// Returns whether `smp` is taken as a control: it is a Set, and it came by LIDs or the conduct is live.
fn is_control(standing: &Standing, smp: &Smp) -> bool
    ensures { result ≡ is_control standing.now smp.now }
{
    smp.method() == Method::SET
        && (standing.conduct.is_live() || smp.class() == SmpClass::LidRouted)
}

/// Returns the status for `smp` as no control: 0 for a Get, invalid field for a Set, else method not supported.
fn status_for(smp: &Smp) -> Status
    ensures status { result.0 ≡ status_for smp.now }
    ensures small { result.0 < 2 ^ 15 }
{
    let method = smp.method();
    if method == Method::GET {
        Status::DONE
    } else if method == Method::SET {
        Status::INVALID_FIELD
    } else {
        Status::METHOD_NOT_SUPPORTED
    }
}

/// Returns the number of requests that are sent for `message`: 0 if `message` or `way` is `None`, and otherwise 1.
fn message_count(way: &Option<Way>, message: &Option<Message>) -> usize
    ensures { result ≡ message_count way.now message.now }
{
    if way.is_some() && message.is_some() {
        1
    } else {
        0
    }
}

/// Returns whether `smp` is a request for SMInfo.
pub(crate) fn is_info_request(smp: &Smp) -> bool
    ensures { result ≡ is_info_request smp.now }
{
    !smp.is_response() && smp.attribute_id() == AttributeId::SM_INFO
}
