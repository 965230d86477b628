//! What a manager does with packets that arrive, and with requests that it gives up.
ghost use Rattle.std.specs.Prelude.{◌≡◌, None, Some, OnOk, Option};
ghost use Rattle.smp_bytes.specs.Packet.{fault_of};
ghost use Rattle.sm_manager.specs.Packets.{HasSender};
ghost use Rattle.acting_manager.specs.Acting.{value_of};
ghost use Rattle.acting_manager.specs.Heard.{answered, asked, answers_poll, given_up, hands_over};
ghost use Rattle.acting_manager.specs.Heard.{heard, heard_packet, is_handed, is_trap};
ghost use Rattle.acting_manager.specs.Heard.{policy_after, policy_asked, requested, responded, says_master};
ghost use Rattle.acting_manager.specs.Heard.{tells_change, timed_out, told};

use crate::acting_manager::ActingManager;
use crate::asks;
use crate::note::Note;
use attr_codec::{Attribute, SmInfo};
use sm_manager::Outgoing;
use sm_policy::{Policy, is_master};
use sm_state::SmState;
use smp_bytes::wire::u16_at;
use smp_bytes::{AttributeId, Lid, Method, Smp};
use std::alloc::AllocError;

/// The method of a trap (management methods, Trap).
const TRAP: Method = Method(0x05);
/// The offset of the trap's number in a packet that carries a Notice (subnet management, Notice).
const TRAP_NUMBER: usize = 68;
/// The trap of a switch one of whose ports has changed its state.
const LINK_STATE_CHANGED: u16 = 128;
/// The trap of a port whose capabilities have changed, as when a manager comes there.
const CAPABILITIES_CHANGED: u16 = 144;
/// The modifier of the control HANDOVER (subnet management, SMInfo).
const HANDOVER: u32 = 1;

impl ActingManager {
    /// Takes the packet `bytes`, which came from the LID `from`. Drops bytes that are not a packet.
    pub(crate) fn hear(&mut self, bytes: &[u8; 256], from: Option<Lid>) -> Result<(), AllocError>
        requires { HasSender bytes.now from }
        ensures { OnOk result (value_of self.new ≡ heard bytes.now from (value_of self.old)) }
    {
        match Smp::parse(bytes) {
            Ok(packet) => self.hear_packet(&packet, from),
            Err(_) => Ok(()),
        }
    }

    /// Takes `packet`, which came from the LID `from`.
    fn hear_packet(&mut self, packet: &Smp, from: Option<Lid>) -> Result<(), AllocError>
        requires { HasSender packet.now from }
        ensures { OnOk result (value_of self.new ≡ heard_packet packet.now from (value_of self.old)) }
    {
        if packet.is_response() {
            self.respond(packet, from)
        } else {
            self.hear_asked(packet, from)
        }
    }

    /// Takes `packet`, which is no response, unless it is a HANDOVER and the manager leaves: nobody would be master.
    fn hear_asked(&mut self, packet: &Smp, from: Option<Lid>) -> Result<(), AllocError>
        requires { HasSender packet.now from }
        ensures { OnOk result (value_of self.new ≡ asked packet.now from (value_of self.old)) }
    {
        if self.is_leaving && hands_over(packet) {
            Ok(())
        } else {
            self.hear_request(packet, from)
        }
    }

    /// Takes the response `packet`, if it answers a request that is out.
    fn respond(&mut self, packet: &Smp, from: Option<Lid>) -> Result<(), AllocError>
        requires { HasSender packet.now from }
        ensures { OnOk result (value_of self.new ≡ responded packet.now from (value_of self.old)) }
    {
        match self.window.answer(packet) {
            Some(request) => self.hand_in(&request, packet, from),
            None => Ok(()),
        }
    }

    /// Hands the manager `packet`, the answer to `request`. Gives `request` up if the manager refuses its answer.
    fn hand_in(
        &mut self,
        request: &Outgoing,
        packet: &Smp,
        from: Option<Lid>,
    ) -> Result<(), AllocError>
        requires { HasSender packet.now from }
        ensures { OnOk result (value_of self.new
            ≡ answered (Some request.now) packet.now from (value_of self.old)) }
    {
        if asks::take_packet(&mut self.manager, packet.bytes(), from)? {
            self.learn(packet);
            Ok(())
        } else {
            self.give_up(request)
        }
    }

    /// Notes what the answer `packet` tells, which the manager has taken.
    fn learn(&mut self, packet: &Smp)
        ensures { value_of self.new ≡ told packet.now (value_of self.old) }
    {
        learn_of_master(&mut self.policy, packet);
        self.reads.read(packet);
    }

    /// Has the manager give up `request`, and notes that.
    pub(crate) fn give_up(&mut self, request: &Outgoing) -> Result<(), AllocError>
        ensures { OnOk result (value_of self.new ≡ given_up request.now (value_of self.old)) }
    {
        self.time_out(request)?;
        self.note(Note::GivenUp(request.packet))
    }

    /// Has the manager give up `request`.
    pub(crate) fn time_out(&mut self, request: &Outgoing) -> Result<(), AllocError>
        ensures { OnOk result (value_of self.new ≡ timed_out request.now (value_of self.old)) }
    {
        asks::time_out(&mut self.manager, request.packet.transaction_id())?;
        Ok(())
    }

    /// Takes `packet`, which is no response: a request of another manager, or a trap.
    fn hear_request(&mut self, packet: &Smp, from: Option<Lid>) -> Result<(), AllocError>
        requires { HasSender packet.now from }
        ensures { OnOk result (value_of self.new ≡ requested packet.now from (value_of self.old)) }
    {
        let is_master = is_master(self.manager.state());
        hear_news(&mut self.policy, packet, is_master);
        if is_handed(packet, is_master) {
            asks::take_packet(&mut self.manager, packet.bytes(), from)?;
        }
        Ok(())
    }
}

/// Notes in `policy` what the answer `packet` says of the master, if it answers a poll.
fn learn_of_master(policy: &mut Policy, packet: &Smp)
    ensures { policy.new ≡ policy_after packet.now policy.old }
{
    if answers_poll(packet) {
        policy.hear_poll(says_master(packet));
    }
}

/// Notes in `policy` what `packet` tells, which is no response. `is_master` says whether the manager is master.
fn hear_news(policy: &mut Policy, packet: &Smp, is_master: bool)
    ensures { policy.new ≡ policy_asked packet.now is_master policy.old }
{
    if tells_change(packet) {
        policy.want();
    } else if hands_over(packet) && is_master {
        policy.take_over();
    }
}

/// Returns whether `packet`, the answer to a request, answers a poll.
fn answers_poll(packet: &Smp) -> bool
    ensures { result ≡ answers_poll packet.now }
{
    packet.attribute_id() == AttributeId::SM_INFO
        && packet.transaction_id() <= 0xFFFF_FFFF
        && packet.attribute_modifier() == 0
}

/// Returns whether SMInfo in `packet` has the state Master.
fn says_master(packet: &Smp) -> bool
    ensures { result ≡ says_master packet.now }
{
    SmInfo::decode(&packet.attribute_data()).state == SmState::Master.number()
}

/// Returns whether `packet` is a trap.
fn is_trap(packet: &Smp) -> bool
    ensures { result ≡ is_trap packet.now }
{
    packet.method() == TRAP
}

/// Returns whether `packet` is a trap that tells of a change of the subnet.
fn tells_change(packet: &Smp) -> bool
    ensures { result ≡ tells_change packet.now }
{
    let number = u16_at(packet.bytes(), TRAP_NUMBER);
    is_trap(packet) && (number == LINK_STATE_CHANGED || number == CAPABILITIES_CHANGED)
}

/// Returns whether `packet` is a HANDOVER.
fn hands_over(packet: &Smp) -> bool
    ensures { result ≡ hands_over packet.now }
{
    packet.method() == Method::SET
        && packet.attribute_id() == AttributeId::SM_INFO
        && packet.attribute_modifier() == HANDOVER
}

/// Returns whether `packet`, which is no response, is handed to the manager: a trap only if `is_master`.
fn is_handed(packet: &Smp, is_master: bool) -> bool
    ensures { result ≡ is_handed packet.now is_master }
{
    !is_trap(packet) || is_master
}
