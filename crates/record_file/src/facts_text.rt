//! The facts of a store as text. The text has a line for the floor, if the floor is above 1, and a line for each
//! cell.
ghost use Rattle.std.specs.Prelude.{◌≡◌, IsTrue, OnOk};
ghost use Rattle.byte_io.specs.Writes.{Writes};
ghost use Rattle.fact_store.specs.View.{AreInRange};
ghost use Rattle.record_file.specs.FactsText.{subject_text, key_text, value_text, cell_text, fact_text};
ghost use Rattle.record_file.specs.FactsText.{line_text, floor_line, facts_text};

use crate::line::Line;
use byte_io::{Sink, WriteFault, write_guid, write_number, write_port};
use fact_join::Cell;
use fact_store::{Key, Sighting, Store, Value};
use smp_bytes::Generation;

/// Writes the node or the port that `key` is about.
fn write_subject<W: Sink>(sink: &mut W, key: &Key) -> Result<(), WriteFault>
    ensures writes { Writes W.written W.has_failed result sink.old sink.new (subject_text key.now) }
{
    match *key {
        Key::Node(guid) | Key::Cap(guid) => write_guid(sink, guid),
        Key::PortGuid(guid, port)
        | Key::Link(guid, port)
        | Key::Port(guid, port)
        | Key::Claim(guid, port) => write_port(sink, guid, port),
    }
}

/// Writes the word for the kind of `key`, and then the node or the port that `key` is about.
fn write_key<W: Sink>(sink: &mut W, key: &Key) -> Result<(), WriteFault>
    ensures writes { Writes W.written W.has_failed result sink.old sink.new (key_text key.now) }
{
    sink.write(key.word().as_bytes())?;
    sink.write(b" ")?;
    write_subject(sink, key)
}

/// Writes `value` as text.
fn write_value<W: Sink>(sink: &mut W, value: &Value) -> Result<(), WriteFault>
    ensures writes { Writes W.written W.has_failed result sink.old sink.new (value_text value.now) }
{
    match *value {
        Value::Kind(kind, ports) => {
            sink.write(kind.word().as_bytes())?;
            sink.write(b" ")?;
            write_number(sink, u64::from(ports))
        }
        Value::Guid(guid) => write_guid(sink, guid),
        Value::Peer(guid, port) => write_port(sink, guid, port),
        Value::Up(true) => sink.write(b"up"),
        Value::Up(false) => sink.write(b"down"),
        Value::Lid(lid) => write_number(sink, u64::from(lid.number())),
        Value::Count(count) => write_number(sink, u64::from(count)),
    }
}

/// Writes the value of `cell`, or `disputed`, and `@` with the generation of `cell`.
fn write_state<W: Sink>(sink: &mut W, cell: &Cell<Value>) -> Result<(), WriteFault>
    ensures writes { Writes W.written W.has_failed result sink.old sink.new (cell_text cell.now) }
{
    match cell {
        Cell::Known(_, value) => write_value(sink, value)?,
        Cell::Disputed(_) => sink.write(b"disputed")?,
    }
    sink.write(b" @")?;
    write_number(sink, u64::from(cell.generation().number()))
}

/// Writes the key of `cell`, the cell's value or `disputed`, and `@` with the cell's generation.
fn write_fact<W: Sink>(sink: &mut W, cell: &Sighting) -> Result<(), WriteFault>
    ensures writes { Writes W.written W.has_failed result sink.old sink.new (fact_text cell.now) }
{
    write_key(sink, &cell.key())?;
    sink.write(b" ")?;
    write_state(sink, &cell.cell())
}

/// Writes `cell` as `write_fact` does, and the end of the line.
fn write_line<W: Sink>(sink: &mut W, cell: &Sighting) -> Result<(), WriteFault>
    ensures writes { Writes W.written W.has_failed result sink.old sink.new (line_text cell.now) }
{
    write_fact(sink, cell)?;
    sink.write(b"\n")
}

/// Writes the line of a cell: its key, its value or `disputed`, and `@` with its generation. If the line has at most 64
/// bytes, writes it in one call.
pub fn write_cell<W: Sink>(sink: &mut W, cell: &Sighting) -> Result<(), WriteFault>
    ensures writes { Writes W.written W.has_failed result sink.old sink.new (line_text cell.now) }
{
    let mut line = Line::new();
    match write_line(&mut line, cell) {
        Ok(()) => sink.write(line.bytes()),
        Err(_) => write_line(sink, cell),
    }
}

/// Writes the line of a floor above 1: `floor`, and the number of the floor. Writes no bytes for floor 1.
fn write_floor<W: Sink>(sink: &mut W, floor: Generation) -> Result<(), WriteFault>
    ensures writes { Writes W.written W.has_failed result sink.old sink.new (floor_line floor) }
{
    if floor.number() <= 1 {
        // The empty write fails if the sink has failed.
        return sink.write(b"");
    }
    sink.write(b"floor ")?;
    write_number(sink, u64::from(floor.number()))?;
    sink.write(b"\n")
}

/// Writes the line of the floor, if the floor is above 1, and the line of each cell in the order of keys. Then
/// flushes. Does not allocate.
pub fn write_facts<W: Sink>(sink: &mut W, store: &Store) -> Result<(), WriteFault>
    ensures writes { Writes W.written W.has_failed result sink.old sink.new (facts_text store.now) }
    ensures flushed { OnOk result (IsTrue (W.is_flushed sink.new)) }
    ensures in_range { OnOk result (AreInRange store.now) }
{
    write_floor(sink, store.floor())?;
    for cell in store.cells() {
        write_cell(sink, &cell)?;
    }
    sink.flush()
}
