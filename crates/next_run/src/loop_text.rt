//! A credit loop that a step can make, and its text.
ghost use Rattle.std.specs.Prelude.{◌≡◌, ◌↔◌, [], IfOk, IsTrue};
ghost use Rattle.std.specs.List.{flat_map};
ghost use Rattle.fact_store.specs.View.{cells_of};
ghost use Rattle.byte_io.specs.Writes.{Writes};
ghost use Rattle.byte_io.specs.Prints.{WritesPart};
ghost use Rattle.next_run.specs.LoopText.{lid_word, lids_line, loop_text};
ghost use Rattle.next_run.specs.StepLoops.{IsLoopInStep};

use audit_channels::{ChannelKind, ChannelOrder, write_cycle};
use byte_io::{Sink, WriteFault, write_number};
use packet_walks::Network;
use smp_bytes::Lid;
use std::alloc::{AllocError, Global};
use step_loops::{loop_lids, step_order};

/// A shortest credit loop in a step, and its LIDs. Both lists are empty if the step can make no credit loop.
#[derive(Drop)]
pub(crate) struct StepLoop {
    pub channels: Vec<usize>,
    /// For each channel, the least LID for which packets that hold the channel wait for the next one. After the last
    /// channel comes the first.
    pub lids: Vec<Lid>,
}

impl StepLoop {
    /// Returns a shortest credit loop that some mixtures of the two tables make, with its LIDs, or empty lists if no
    /// mixtures make a credit loop. `held` and `next` must have the same facts.
    pub fn of(alloc: Global, held: &Network, next: &Network) -> Result<Self, AllocError>
        requires { next.now.facts ≡ held.now.facts }
        ensures { IfOk result (λ found. IsLoopInStep (cells_of held.now.facts) held.now.held next.now.held
            found.channels.items found.lids.items) }
    {
        match step_order(alloc, held, next)? {
            ChannelOrder::Rises(_) => Ok(StepLoop {
                channels: Vec::new(alloc),
                lids: Vec::new(alloc),
            }),
            ChannelOrder::Cycle(channels) => {
                let lids = loop_lids(alloc, held, next, &channels)?;
                Ok(StepLoop { channels, lids })
            }
        }
    }

    /// Returns whether the list of channels is empty: there is no credit loop.
    pub fn is_none(&self) -> bool
        ensures { IsTrue result ↔ (self.now.channels.items ≡ []) }
    {
        self.channels.is_empty()
    }

    /// Writes the line of the channels, or that there is no credit loop. Then writes the line of the LIDs, if there is
    /// a credit loop.
    pub fn write<W: Sink>(&self, sink: &mut W, network: &Network) -> Result<(), WriteFault>
        ensures { Writes W.written W.has_failed result sink.old sink.new
            (loop_text (cells_of network.now.facts) self.now.channels.items self.now.lids.items) }
    {
        write_cycle(sink, network, ChannelKind::OnOneLane, &self.channels)?;
        write_lids(sink, &self.lids)
    }
}

/// Writes the line of `lids`, or nothing if `lids` is empty.
fn write_lids<W: Sink>(sink: &mut W, lids: &[Lid]) -> Result<(), WriteFault>
    ensures { WritesPart W.written W.has_failed result sink.old sink.new (lids_line lids.now) }
{
    if lids.is_empty() {
        return Ok(());
    }
    sink.write(b"lids")?;
    write_each_lid(sink, lids)?;
    sink.write(b"\n")
}

/// Writes each of `lids`, with a space before it.
fn write_each_lid<W: Sink>(sink: &mut W, lids: &[Lid]) -> Result<(), WriteFault>
    ensures { WritesPart W.written W.has_failed result sink.old sink.new (flat_map lid_word lids.now) }
{
    for lid in lids {
        write_lid(sink, *lid)?;
    }
    Ok(())
}

/// Writes a space and `lid`.
fn write_lid<W: Sink>(sink: &mut W, lid: Lid) -> Result<(), WriteFault>
    ensures { Writes W.written W.has_failed result sink.old sink.new (lid_word lid) }
{
    sink.write(b" ")?;
    write_number(sink, u64::from(lid.number()))
}
