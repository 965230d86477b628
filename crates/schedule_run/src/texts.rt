//! The texts of a topology and of a schedule, which are read and then judged.
ghost use Rattle.std.specs.Prelude.{◌≡◌, ◌+◌, ◌<◌, ◌≤◌, ℕ, List, IfOk, IfErr, Ok, OnOk, None, length};
ghost use Rattle.schedule_file.specs.Schedule.{IsScript, schedule_of};
ghost use Rattle.schedule_run.specs.Run.{AreNotTold, AreRead, DescribeSetting, FailsToReadThem, RefusesScript};
ghost use Rattle.schedule_run.specs.Run.{RefusesTexts, Tells};
ghost use Rattle.schedule_run.specs.Run.{TellsTopology, input_fault, schedule_fault};

use byte_io::Source;
use record_file::read_whole;
use schedule_file::Schedule;
use sm_cli::{Fault, InputReader, TextFault};
use smp_bytes::Guid;
use std::alloc::Global;
use std::str;
use topo_file::Topology;

/// The bytes of a topology and of a schedule.
#[derive(Drop)]
struct Texts {
    topology: Vec<u8>,
    schedule: Vec<u8>,
}

/// The topology and the schedule that the texts describe.
#[derive(Drop)]
pub(crate) struct Setting {
    pub(crate) topology: Topology,
    pub(crate) schedule: Schedule,
}

/// A reader of the text of a topology and then of the text of a schedule. The switches that the reader knows are those
/// of the topology.
#[derive(Clone, Copy, Debug, PartialEq, Eq)]
pub(crate) struct TopologyAndSchedule;

impl<S: Source> InputReader<S> for TopologyAndSchedule {
    ghost use Rattle.std.specs.Prelude.{◌≡◌};
    ghost use Rattle.schedule_run.specs.Run.{texts_reader};

    type Told = Setting;

    ghost reader = { λ texts. texts_reader S.state };

    ghost takes = { λ texts count. count ≡ 2 };

    fn read(&self, alloc: Global, before: usize, inputs: &mut [S]) -> Result<Setting, Fault> {
        read_setting(alloc, before, inputs)
    }

    fn has_switch(&self, told: &Setting, guid: Guid) -> bool {
        told.topology.has_switch(guid)
    }
}

/// Reads the two `texts` to their ends, the topology first, and returns what they describe, or the fault of the first
/// that cannot be read or, if both were read, of the topology and then of the schedule. `before` inputs come before.
fn read_setting<S: Source>(alloc: Global, before: usize, texts: &mut [S]) -> Result<Setting, Fault>
    requires two { length texts.old ≡ 2 }
    requires counted { before + length texts.old ≤ usize.MAX }
    ensures told { IfOk result (DescribeSetting S.state texts.old texts.new) }
    ensures refused { IfErr result
        (AreNotTold S.state before texts.old texts.new) }
{
    let (topology, schedule) = texts.split_at_mut(1);
    let texts = read_texts(alloc, before, &mut topology[0], &mut schedule[0])?;
    judge(alloc, before, &texts)
}

/// Reads the texts of `topology` and then of `schedule` to their ends. `first` is the index of the topology's input.
fn read_texts<S: Source>(
    alloc: Global,
    first: usize,
    topology: &mut S,
    schedule: &mut S,
) -> Result<Texts, Fault>
    requires { first < usize.MAX }
    ensures read { IfOk result (λ texts. AreRead S.state
        topology.old topology.new schedule.old schedule.new
        texts.topology.items texts.schedule.items) }
    ensures refused { IfErr result (FailsToReadThem S.state first
        topology.old topology.new schedule.old schedule.new) }
{
    let topology = match read_whole(alloc, topology) {
        Ok(bytes) => bytes,
        Err(fault) => return Err(Fault::File {
            input: first,
            fault,
        }),
    };
    let schedule = match read_whole(alloc, schedule) {
        Ok(bytes) => bytes,
        Err(fault) => return Err(Fault::File {
            input: first + 1,
            fault,
        }),
    };
    Ok(Texts { topology, schedule })
}

/// Parses both texts, the topology first. `first` is the index of the topology's input.
#[tactic(auto, using(crate::proofs::Judging::behind, crate::proofs::Judging::refused_behind))]
fn judge(alloc: Global, first: usize, texts: &Texts) -> Result<Setting, Fault>
    requires { first < usize.MAX }
    ensures sound { OnOk result
        (input_fault first texts.now.topology.items texts.now.schedule.items ≡ None) }
    ensures told { IfOk result (λ setting. Tells texts.now.topology.items
        texts.now.schedule.items setting.topology setting.schedule) }
    ensures script { IfOk result (λ setting. IsScript setting.topology.nodes setting.schedule) }
    ensures refused { IfErr result
        (RefusesTexts first texts.now.topology.items texts.now.schedule.items) }
{
    let topology = judge_topology(alloc, first, &texts.topology)?;
    let schedule = judge_schedule(alloc, first, &topology, &texts.schedule)?;
    Ok(Setting { topology, schedule })
}

/// Parses `bytes` as a topology. `first` is the index of the topology's input.
fn judge_topology(alloc: Global, first: usize, bytes: &[u8]) -> Result<Topology, Fault>
    ensures sound { IfOk result (λ topology. TellsTopology bytes.now topology) }
    ensures refused { (schedule : List ℕ) → IfErr result (RefusesTexts first bytes.now schedule) }
{
    let Ok(text) = str::from_utf8(bytes) else {
        return Err(refused(first, TextFault::NotUtf8));
    };
    match topo_file::parse(alloc, text) {
        Ok(topology) => Ok(topology),
        Err(fault) => Err(refused(first, TextFault::Topology(fault))),
    }
}

/// Parses `bytes` as a schedule for `topology`. `first` is the index of the topology's input, just before its own.
fn judge_schedule(
    alloc: Global,
    first: usize,
    topology: &Topology,
    bytes: &[u8],
) -> Result<Schedule, Fault>
    requires { first < usize.MAX }
    ensures sound { OnOk result (schedule_fault (first + 1) topology.now.nodes bytes.now ≡ None) }
    ensures told { IfOk result (λ schedule.
        schedule_of topology.now.nodes bytes.now ≡ Ok schedule) }
    ensures script { IfOk result (IsScript topology.now.nodes) }
    ensures refused { IfErr result (RefusesScript first topology.now.nodes bytes.now) }
{
    let Ok(text) = str::from_utf8(bytes) else {
        return Err(refused(first + 1, TextFault::NotUtf8));
    };
    match schedule_file::parse(alloc, text, topology) {
        Ok(schedule) => Ok(schedule),
        Err(fault) => Err(refused(first + 1, TextFault::Schedule(fault))),
    }
}

/// Returns `fault` as a fault of the text whose input has the index `input`.
fn refused(input: usize, fault: TextFault) -> Fault
    ensures { result ≡ Fault.Text input fault }
{
    Fault::Text { input, fault }
}
