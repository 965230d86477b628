//! A plan as text: a line for each LID, then for each switch a line that is followed by a line for each of its blocks.
ghost use Rattle.std.specs.Prelude.{List, Option, None, Some, IsTrue, OnOk};
ghost use Rattle.std.specs.Option.{option_map_or};
ghost use Rattle.std.specs.List.{flat_map};
ghost use Rattle.hex.specs.Hex.{encode_lower};
ghost use Rattle.byte_io.specs.Writes.{Writes};
ghost use Rattle.byte_io.specs.Prints.{WritesPart};
ghost use Rattle.lft_blocks.specs.PlanText.{lmc_text, lid_line, owner_line, lids_text, switch_line};
ghost use Rattle.lft_blocks.specs.PlanText.{block_line, blocks_text, table_text, tables_text, plan_text};

use crate::plan::Plan;
use crate::table::Table;
use attr_codec::Lmc;
use byte_io::{Sink, WriteFault, write_guid, write_number, write_port};
use lid_assign::LidMap;
use smp_bytes::{Guid, Lid};
use subnet_view::EndPort;

/// Writes a line for each LID, in ascending order. Then writes, for each usable switch in ascending order of GUID, a
/// line with the greatest LID and a line for each block. Flushes at the end. Writes no lines if there is no end port.
/// Returns an error only if `sink` has failed. Does not allocate.
pub fn write_plan<W: Sink>(sink: &mut W, plan: &Plan) -> Result<(), WriteFault>
    ensures writes { Writes W.written W.has_failed result sink.old sink.new (plan_text plan.now) }
    ensures flushed { OnOk result (IsTrue (W.is_flushed sink.new)) }
{
    write_lids(sink, plan.lids())?;
    write_tables(sink, plan)?;
    sink.flush()
}

/// Writes a line for each LID, in ascending order. Writes nothing if there is no end port.
pub fn write_lids<W: Sink>(sink: &mut W, lids: &LidMap) -> Result<(), WriteFault>
    ensures { WritesPart W.written W.has_failed result sink.old sink.new (lids_text lids.now) }
{
    for lid in lids.lids() {
        write_owner(sink, lids, *lid)?;
    }
    Ok(())
}

/// Writes the line of `lid` if an end port has it, and otherwise nothing.
fn write_owner<W: Sink>(sink: &mut W, lids: &LidMap, lid: Lid) -> Result<(), WriteFault>
    ensures { WritesPart W.written W.has_failed result sink.old sink.new (owner_line lids.now lid) }
{
    match lids.owner(lid) {
        Some(port) => {
            let lmc = lids.lmc_of(&port);
            write_lid(sink, lid, lmc, port)
        }
        None => Ok(()),
    }
}

/// Writes the line of `lid`: the word `lid`, the number of the LID, the end port `port`, and the LMC `lmc` if it is not
/// 0.
pub fn write_lid<W: Sink>(sink: &mut W, lid: Lid, lmc: Lmc, port: EndPort) -> Result<(), WriteFault>
    ensures { Writes W.written W.has_failed result sink.old sink.new (lid_line (lid, lmc, port)) }
{
    sink.write(b"lid ")?;
    write_number(sink, u64::from(lid.number()))?;
    sink.write(b" ")?;
    write_port(sink, port.node, port.port)?;
    write_lmc(sink, lmc)?;
    sink.write(b"\n")
}

/// Writes ` lmc ` and the number of `lmc`, or nothing if the number is 0.
fn write_lmc<W: Sink>(sink: &mut W, lmc: Lmc) -> Result<(), WriteFault>
    ensures { WritesPart W.written W.has_failed result sink.old sink.new (lmc_text lmc) }
{
    if lmc.number() == 0 {
        return Ok(());
    }
    sink.write(b" lmc ")?;
    write_number(sink, u64::from(lmc.number()))
}

/// Writes the lines of all switches and their blocks if the plan has a LID. Otherwise writes nothing.
fn write_tables<W: Sink>(sink: &mut W, plan: &Plan) -> Result<(), WriteFault>
    ensures { WritesPart W.written W.has_failed result sink.old sink.new (tables_text plan.now) }
{
    match plan.top() {
        Some(top) => write_each_table(sink, top, plan.tables()),
        None => Ok(()),
    }
}

/// Writes, for each of `tables`, the line of its switch, with `top` as the greatest LID, and the lines of its blocks.
fn write_each_table<W: Sink>(sink: &mut W, top: Lid, tables: &[Table]) -> Result<(), WriteFault>
    ensures { WritesPart W.written W.has_failed result sink.old sink.new
        (flat_map (table_text top) tables.now) }
{
    for table in tables {
        write_table(sink, top, table)?;
    }
    Ok(())
}

/// Writes the line of the switch of `table`, with `top` as the greatest LID, and the lines of its blocks.
fn write_table<W: Sink>(sink: &mut W, top: Lid, table: &Table) -> Result<(), WriteFault>
    ensures { Writes W.written W.has_failed result sink.old sink.new (table_text top table.now) }
{
    write_switch(sink, top, table.guid())?;
    write_blocks(sink, table.blocks())
}

/// Writes the line of the switch `guid`: the word `switch`, the GUID, the word `top`, and the number of the greatest
/// LID, `top`.
pub fn write_switch<W: Sink>(sink: &mut W, top: Lid, guid: Guid) -> Result<(), WriteFault>
    ensures { Writes W.written W.has_failed result sink.old sink.new (switch_line top guid) }
{
    sink.write(b"switch ")?;
    write_guid(sink, guid)?;
    sink.write(b" top ")?;
    write_number(sink, u64::from(top.number()))?;
    sink.write(b"\n")
}

/// Writes a line for each of `blocks`. They are numbered from 0.
fn write_blocks<W: Sink>(sink: &mut W, blocks: &[[u8; 64]]) -> Result<(), WriteFault>
    ensures { WritesPart W.written W.has_failed result sink.old sink.new (blocks_text blocks.now) }
{
    for (b, block) in blocks.iter().enumerate() {
        write_block(sink, b, block)?;
    }
    Ok(())
}

/// Writes the line of a block: the word `block`, the number `b` of the block, and two hex digits for each of its
/// entries.
pub fn write_block<W: Sink>(sink: &mut W, b: usize, block: &[u8; 64]) -> Result<(), WriteFault>
    ensures { Writes W.written W.has_failed result sink.old sink.new (block_line (b, block.now)) }
{
    sink.write(b"block ")?;
    write_number(sink, b as u64)?;
    sink.write(b" ")?;
    write_entries(sink, block)?;
    sink.write(b"\n")
}

/// Writes the 64 entries of a block, each as two hex digits.
fn write_entries<W: Sink>(sink: &mut W, block: &[u8; 64]) -> Result<(), WriteFault>
    ensures { Writes W.written W.has_failed result sink.old sink.new (encode_lower block.now) }
{
    let mut digits = [0; 128];
    hex::encode_to_slice(block.as_slice(), &mut digits).unwrap();
    sink.write(&digits)
}
