//! Tables as text: for each switch, a line with the switch's own top and a line for each of its blocks.
ghost use Rattle.std.specs.Prelude.{◌≡◌, ◌≤◌, ◌++◌, IsTrue, OnOk, length};
ghost use Rattle.std.specs.List.{flat_map, prefix_len};
ghost use Rattle.byte_io.specs.Writes.{Writes};
ghost use Rattle.plan_tables.specs.PlanText.{switch_line};
ghost use Rattle.byte_io.specs.Prints.{WritesPart};
ghost use Rattle.tables_file.specs.PrintedTables.{block_text, first_blocks, is_of, later_blocks, next_text};
ghost use Rattle.tables_file.specs.PrintedTables.{switches_text, tables_text_of};

use byte_io::{Sink, WriteFault};
use held_tables::{Held, HeldBlock, HeldSwitch};
use plan_tables::{LidMap, write_block, write_lids, write_switch};

/// Writes a line for each end port of `lids`, in ascending order of LID, then writes the tables `next` as
/// `write_tables` does, and flushes. Does not allocate.
pub fn write_next<W: Sink>(sink: &mut W, lids: &LidMap, next: &Held) -> Result<(), WriteFault>
    ensures writes { Writes W.written W.has_failed result sink.old sink.new (next_text lids.now next.now) }
    ensures flushed { OnOk result (IsTrue (W.is_flushed sink.new)) }
{
    write_lids(sink, lids)?;
    write_tables(sink, next)?;
    sink.flush()
}

/// Writes the tables `held`: for each switch, in the order of the switches of `held`, a line with the switch's top
/// and a line for each of its blocks. If a block is not in the order of the switches, writes neither this block nor
/// any later one.
pub fn write_tables<W: Sink>(sink: &mut W, held: &Held) -> Result<(), WriteFault>
    ensures { WritesPart W.written W.has_failed result sink.old sink.new (tables_text_of held.now) }
{
    write_switches(sink, held.switches(), held.blocks())
}

/// Writes the lines of `switches` and of their blocks. If a block is not in the order of the switches, writes neither
/// this block nor any later one. The first switch has index 0.
fn write_switches<W: Sink>(
    sink: &mut W,
    switches: &[HeldSwitch],
    blocks: &[HeldBlock],
) -> Result<(), WriteFault>
    ensures { WritesPart W.written W.has_failed result sink.old sink.new
        (switches_text 0 switches.now blocks.now) }
{
    let mut rest = blocks;
    for (index, switch) in switches.iter().enumerate() {
        let (own, later) = split_blocks(rest, index);
        write_held(sink, switch, own)?;
        rest = later;
    }
    Ok(())
}

/// Returns the blocks at the head of `blocks` that belong to the switch at `index`, and the blocks after them.
fn split_blocks(blocks: &[HeldBlock], index: usize) -> (&[HeldBlock], &[HeldBlock])
    ensures first { result.0.now ≡ first_blocks index blocks.now }
    ensures later { result.1.now ≡ later_blocks index blocks.now }
{
    blocks.split_at(count_of(blocks, index))
}

/// Returns the number of blocks at the head of `blocks` that belong to the switch at `index`.
fn count_of(blocks: &[HeldBlock], index: usize) -> usize
    ensures count { result ≡ prefix_len (is_of index) blocks.now }
    ensures within { result ≤ length blocks.now }
{
    for (count, block) in blocks.iter().enumerate() {
        if block.switch != index {
            return count;
        }
    }
    blocks.len()
}

/// Writes the line of `switch` and a line for each of `blocks`.
fn write_held<W: Sink>(
    sink: &mut W,
    switch: &HeldSwitch,
    blocks: &[HeldBlock],
) -> Result<(), WriteFault>
    ensures { WritesPart W.written W.has_failed result sink.old sink.new
        (switch_line switch.now.top switch.now.guid ++ flat_map block_text blocks.now) }
{
    write_switch(sink, switch.top, switch.guid)?;
    write_blocks(sink, blocks)
}

/// Writes a line for each of `blocks`.
fn write_blocks<W: Sink>(sink: &mut W, blocks: &[HeldBlock]) -> Result<(), WriteFault>
    ensures { WritesPart W.written W.has_failed result sink.old sink.new (flat_map block_text blocks.now) }
{
    for block in blocks {
        write_block(sink, usize::from(block.number), &block.entries)?;
    }
    Ok(())
}
