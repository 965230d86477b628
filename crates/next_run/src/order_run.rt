//! The order of the switches that a text of tables implies, in the subnet that files describe.
ghost use Rattle.std.specs.Prelude.{◌≡◌, ◌≤◌, ◌⊎◌, Err, IfErr, IfOk, IsTrue, OnErr, OnOk, false, length, map, reverse};
ghost use Rattle.std.specs.List.{range_with_len};
ghost use Rattle.std.specs.Io.KnownBytes.{Appends};
ghost use Rattle.std.specs.Option.{option_map};
ghost use Rattle.fact_store.specs.View.{cells_of};
ghost use Rattle.subnet_view.specs.Reading.{switches};
ghost use Rattle.sm_cli.specs.Fault.{IsOutputFault};
ghost use Rattle.next_tables.specs.SwitchPositions.{switch_at};
ghost use Rattle.held_order.specs.ToldOrder.{IsImpliedOrder};
ghost use Rattle.next_run.specs.OrderRun.{HasPrintedOrder, IsOrderFault, IsOrderAnswer, told_switches};

use byte_io::{Sink, Source};
use fact_store::Store;
use held_order::told_order;
use held_tables::{Held, WiredSubnet};
use packet_walks::Network;
use sm_cli::{Fault, read_tables_and_files, write_order};
use smp_bytes::Guid;
use std::alloc::{AllocError, Global};
use subnet_view::Subnet;

/// Reads the tables from the first input, and then the files from the other inputs, one after the other. There must
/// be at least one input. Returns whether, in some order of the usable switches, these tables send no packet for any
/// LID down and then up. If so, writes such an order, with a line for each switch, `0x` and its GUID, and flushes.
/// Otherwise writes nothing.
///
/// # Errors
///
/// Returns the fault of the first input that is refused, `Memory` if memory is refused, or `Write` if a write fails.
/// Nothing is written unless the error is `Write`; how much is written then is unspecified.
pub fn run_order_of_tables<S: Source, W: Sink>(
    alloc: Global,
    inputs: &mut [S],
    sink: &mut W,
) -> Result<bool, Fault>
    requires { 1 ≤ length inputs.old }
    ensures done { IfOk result (HasPrintedOrder S.state inputs.old inputs.new
        (Appends (W.written sink.old) (W.written sink.new))) }
    ensures flushed { OnOk result (IsTrue (W.is_flushed sink.new)) }
    ensures sink_works { OnOk result (W.has_failed sink.new ≡ false) }
    ensures refused { IfErr result (IsOrderFault S.state
        inputs.old inputs.new (W.has_failed sink.new)) }
    ensures nothing_written { OnErr result ((result ≡ Err Fault.Write) ⊎ (sink.new ≡ sink.old)) }
{
    let read = read_tables_and_files(alloc, 0, inputs)?;
    answer(alloc, sink, &read.store, &read.held)
}

/// Writes the order that `held` implies in the subnet of `store`, if any, and flushes. Returns whether there is one.
fn answer<W: Sink>(alloc: Global, sink: &mut W, store: &Store, held: &Held) -> Result<bool, Fault>
    ensures told { IfOk result (IsOrderAnswer store.now held.now
        (Appends (W.written sink.old) (W.written sink.new))) }
    ensures flushed { OnOk result (IsTrue (W.is_flushed sink.new)) }
    ensures sink_works { OnOk result (W.has_failed sink.new ≡ false) }
    ensures refused { IfErr result (IsOutputFault (W.has_failed sink.new)) }
    ensures nothing_written { OnErr result ((result ≡ Err Fault.Write) ⊎ (sink.new ≡ sink.old)) }
{
    let subnet = Subnet::of(alloc, store)?;
    let wired = WiredSubnet::of(alloc, &subnet)?;
    let network = Network::of(alloc, &wired, held)?;
    let order = order_of(alloc, &network)?;
    let switches = told_switches(alloc, &network, &order)?;
    write_order(sink, &switches)?;
    Ok(order.is_some())
}

/// Returns the order that the tables of `network` imply, if any: the indices of the switches, the last switch first. Of
/// several that may be the last of those left, takes the one with the greatest GUID.
fn order_of(alloc: Global, network: &Network) -> Result<Option<Vec<usize>>, AllocError>
    ensures { IfOk result (λ order. IsImpliedOrder (cells_of network.now.facts) network.now.held
        (range_with_len 0 (length (switches (cells_of network.now.facts)))) (option_map (λ taken. taken.items) order)) }
{
    let indices = indices(alloc, network.switch_count())?;
    told_order(alloc, network, &indices)
}

/// Returns the `count` numbers from 0 on, in ascending order.
fn indices(alloc: Global, count: usize) -> Result<Vec<usize>, AllocError>
    ensures { IfOk result (λ indices. indices.items ≡ range_with_len 0 count) }
{
    (0..count).collect(alloc)
}

/// Returns the GUIDs of the switches of `order`, the first one first, or an empty list. `order` begins with the last.
fn told_switches(
    alloc: Global,
    network: &Network,
    order: &Option<Vec<usize>>,
) -> Result<Vec<Guid>, AllocError>
    ensures { IfOk result (λ switches. switches.items
        ≡ told_switches (cells_of network.now.facts) (option_map (λ taken. taken.items) order.now)) }
{
    match order {
        Some(taken) => switches_at(alloc, network, taken),
        None => Ok(Vec::new(alloc)),
    }
}

/// Returns the GUIDs of the switches at the indices `taken`, from the last index to the first.
fn switches_at(alloc: Global, network: &Network, taken: &[usize]) -> Result<Vec<Guid>, AllocError>
    ensures { IfOk result (λ switches. switches.items
        ≡ map (switch_at (cells_of network.now.facts)) (reverse taken.now)) }
{
    taken
        .iter()
        .rev()
        .map(|index| network.guid(*index))
        .collect(alloc)
}
