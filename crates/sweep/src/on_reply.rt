ghost use Rattle.std.specs.Prelude.{◌≡◌, ◌+◌, ◌≤◌, length, IfOk, IfErr, IsTrue, OnOk, OnErr, None, Ok, Err};
ghost use Rattle.std.specs.Result.{result_err};
ghost use Rattle.fact_store.specs.Merge.{merge};
ghost use Rattle.reply_facts.specs.Sighting.{is_generation};
ghost use Rattle.fact_store.specs.View.{view};
ghost use Rattle.smp_bytes.specs.Judges.{Judges, JudgesButFor};
ghost use Rattle.smp_bytes.specs.Packet.{fault_of};
ghost use Rattle.sweep.specs.Accepting.{IsAccepted};
ghost use Rattle.sweep.specs.Fault.{is_memory};
ghost use Rattle.sweep.specs.Replies.{answer_by, answer_for, fault_for, judged, after_reply, sightings_by};

use crate::answer::Answer;
use crate::fact_sink::{Keeper, Nowhere};
use crate::fault::SweepFault;
use crate::finding::Finding;
use crate::question::Question;
use crate::request::Request;
use crate::sweep::Sweep;
use arrayvec::ArrayVec;
use attr_codec::{Attribute, SmInfo};
use fact_store::{Context, Report, ReportFault, Sighting, Store, answer_fault, sightings_in};
use smp_bytes::Smp;

/// An accepted reply: the index of its request among the outstanding requests, the request's question and context,
/// the answer, its facts, and what the reply adds.
#[derive(Drop)]
pub(crate) struct Accepted {
    pub(crate) index: usize,
    pub(crate) question: Question,
    pub(crate) context: Context,
    pub(crate) answer: Answer,
    pub(crate) sightings: ArrayVec<Sighting, 4>,
    pub(crate) finding: Finding,
}

impl Sweep {
    /// Returns what `on_reply_into` would return for the reply `smp` if memory did not run out.
    pub fn judge(&self, smp: &Smp) -> Result<Answer, SweepFault>
        ensures { result ≡ judged self.now smp.now }
    {
        match self.accept(smp) {
            Ok(accepted) => Ok(accepted.answer),
            Err(fault) => Err(fault),
        }
    }

    /// Takes the reply to an outstanding request, and queues the requests that follow from the reply. For a new
    /// switch these ask for SwitchInfo and for PortInfo of each of its ports. For a new adapter port, one asks for
    /// the PortInfo of this port. After PortInfo of a port, one asks the manager there for SMInfo, if this manager is
    /// to be asked. Then one asks the node at the far end of the port's wire for NodeInfo, if the sweep goes on
    /// through the port.
    ///
    /// # Errors
    ///
    /// Returns the first of these that applies: `Bad` if the bytes are not a packet; `NotOutstanding` if no
    /// outstanding request has the TransactionID, attribute, modifier and path of the reply; `Bad` if facts cannot be
    /// read from the reply, or if a reply with SMInfo is not an answer with status 0; `SequenceSpent` if no number is
    /// left for a request that follows; `Memory` if memory runs out. If an error is returned, the sweep is unchanged.
    pub fn on_reply(&mut self, bytes: &[u8; 256]) -> Result<Answer, SweepFault>
        ensures judged { JudgesButFor is_memory result (result_err (judged self.old bytes.now)) }
        ensures answer { IfOk result (λ answer. judged self.old bytes.now ≡ Ok answer) }
        ensures ok { OnOk result (self.new ≡ after_reply self.old bytes.now) }
        ensures few { OnOk result (length self.new.queued ≤ length self.old.queued + 256) }
        ensures err { OnErr result (self.new ≡ self.old) }
    {
        match Smp::parse(bytes) {
            Ok(smp) => self.take_into(&smp, &mut Nowhere),
            Err(fault) => Err(SweepFault::Bad(ReportFault::Smp(fault))),
        }
    }

    /// Takes the reply `smp` to an outstanding request, as `on_reply` does, and adds its facts to `store`. If an
    /// error is returned, the sweep and `store` are unchanged.
    pub fn on_reply_into(&mut self, smp: &Smp, store: &mut Store) -> Result<Answer, SweepFault>
        ensures judged { JudgesButFor is_memory result (result_err (judged self.old smp.now)) }
        ensures answer { IfOk result (λ answer. judged self.old smp.now ≡ Ok answer) }
        ensures ok { OnOk result (self.new ≡ after_reply self.old smp.now) }
        ensures few { OnOk result (length self.new.queued ≤ length self.old.queued + 256) }
        ensures err { OnErr result (self.new ≡ self.old) }
        ensures facts { IfOk result
            (λ answer. store.new ≡ merge store.old (view (sightings_by answer))) }
        ensures no_facts { OnErr result (store.new ≡ store.old) }
    {
        self.take_into(smp, store)
    }

    /// Takes the reply `smp`, and adds its facts to `keeper`.
    fn take_into<K: Keeper>(&mut self, smp: &Smp, keeper: &mut K) -> Result<Answer, SweepFault>
        ensures judged { JudgesButFor is_memory result (result_err (judged self.old smp.now)) }
        ensures answer { IfOk result (λ answer. judged self.old smp.now ≡ Ok answer) }
        ensures ok { OnOk result (self.new ≡ after_reply self.old smp.now) }
        ensures few { OnOk result (length self.new.queued ≤ length self.old.queued + 256) }
        ensures err { OnErr result (self.new ≡ self.old) }
        ensures facts { IfOk result (λ answer. keeper.new ≡ K.kept keeper.old (sightings_by answer)) }
        ensures no_facts { OnErr result (keeper.new ≡ keeper.old) }
    {
        let accepted = self.accept(smp)?;
        self.requests.reserve()?;
        self.found.reserve()?;
        self.images.reserve()?;
        if keeper.keep(accepted.sightings.as_slice()).is_err() {
            return Err(SweepFault::Memory);
        }
        self.requests.take(accepted.index, &accepted.finding);
        self.found.put(accepted.finding);
        self.images.put(accepted.question, &accepted.context, &smp.attribute_data());
        Ok(accepted.answer)
    }

    /// Returns the accepted reply `smp`, with its request and what it adds, or the first reason to refuse the reply.
    fn accept(&self, smp: &Smp) -> Result<Accepted, SweepFault>
        ensures ok { IfOk result (λ accepted. IsAccepted self.now smp.now accepted) }
        ensures err { IfErr result (λ fault. judged self.now smp.now ≡ Err fault) }
    {
        let bytes = smp.bytes();
        let Some(index) = self.requests.index_for(self.generation, smp) else {
            return Err(SweepFault::NotOutstanding);
        };
        let request = self.requests.get(index).unwrap();
        let report = Report {
            generation: self.generation.number(),
            context: request.context,
            bytes: *bytes,
        };
        let sightings = match self.sightings_by(request, smp) {
            Ok(sightings) => sightings,
            Err(fault) => return Err(SweepFault::Bad(fault)),
        };
        let finding = self.finding(request, smp);
        if self.requests.next() + finding.question_count() > 0x1_0000_0000 {
            return Err(SweepFault::SequenceSpent);
        }
        Ok(Accepted {
            index,
            question: request.question,
            context: request.context,
            answer: answer_by(request.question, report, smp),
            sightings,
            finding,
        })
    }

    /// Returns the facts in `smp`, the reply to `request`, or the first fault of the reply.
    fn sightings_by(
        &self,
        request: &Request,
        smp: &Smp,
    ) -> Result<ArrayVec<Sighting, 4>, ReportFault>
        requires generation { IsTrue (is_generation self.now.generation) }
        requires packet { fault_of smp.now ≡ None }
        ensures judged { Judges result (fault_for self.now request.now smp.now) }
        ensures sightings { IfOk result
            (λ sightings. sightings.items ≡ sightings_by (answer_for self.now request.now smp.now)) }
    {
        if let Question::Manager(..) = request.question {
            match answer_fault(smp) {
                Some(fault) => Err(fault),
                None => Ok(ArrayVec::new()),
            }
        } else {
            sightings_in(self.generation, &request.context, smp)
        }
    }
}

/// Returns the answer in a reply to `question`.
fn answer_by(question: Question, report: Report, smp: &Smp) -> Answer
    requires { report.bytes ≡ smp.now }
    ensures { result ≡ answer_by question report }
{
    match question {
        Question::Manager(guid, port) => {
            Answer::Seen(guid, port, SmInfo::decode(&smp.attribute_data()))
        }
        Question::Node | Question::Switch | Question::Port(_) => Answer::Facts(report),
    }
}
