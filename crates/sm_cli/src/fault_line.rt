//! The message of a fault: one line that begins with the program's name.
ghost use Rattle.byte_io.specs.Writes.{Writes};
ghost use Rattle.sm_cli.specs.FaultLine.{name_text, number_text, cause_text, words_of, file_fault_text};
ghost use Rattle.sm_cli.specs.FaultLine.{text_fault_text, count_text, no_room_text, fault_text, program_line};
ghost use Rattle.sm_cli.specs.TextFault.{guid_behind, lid_before, line_text, said_of_text};

use crate::fault::Fault;
use crate::text_fault::TextFault;
use byte_io::{Sink, WriteFault, write_guid, write_number};
use fact_store::ReportFault;
use lid_assign::NoRoom;
use record_file::FileFault;
use smp_bytes::{Guid, Lid};

/// Writes the line of `fault`. `name` is the name of the input that the fault concerns, if it concerns an input.
pub fn write_fault<W: Sink>(sink: &mut W, fault: &Fault, name: &str) -> Result<(), WriteFault>
    ensures writes { Writes W.written W.has_failed result sink.old sink.new
        (program_line (fault_text name.now fault.now)) }
{
    sink.write(b"ibsm: ")?;
    write_fault_text(sink, fault, name.as_bytes())?;
    sink.write(b"\n")
}

fn write_fault_text<W: Sink>(sink: &mut W, fault: &Fault, name: &[u8]) -> Result<(), WriteFault>
    ensures writes { Writes W.written W.has_failed result sink.old sink.new
        (fault_text name.now fault.now) }
{
    match fault {
        Fault::Open { .. } => {
            write_name(sink, name)?;
            sink.write(b"cannot open")
        }
        Fault::File { fault, .. } => write_file_fault(sink, fault, name),
        Fault::Text { fault, .. } => write_text_fault(sink, fault, name),
        Fault::NoRoom(why) => write_no_room(sink, *why),
        Fault::Write => sink.write(b"write failed"),
        Fault::Memory => sink.write(b"out of memory"),
    }
}

/// Writes that there is no room, with the number of end ports and the room for their LIDs.
fn write_no_room<W: Sink>(sink: &mut W, why: NoRoom) -> Result<(), WriteFault>
    ensures writes { Writes W.written W.has_failed result sink.old sink.new (no_room_text why) }
{
    sink.write(b"no room: ")?;
    write_count(sink, why.endports)?;
    sink.write(b", room ")?;
    write_number(sink, u64::from(why.room))
}

/// Writes `endports`, the number of end ports, and the words `end ports`.
fn write_count<W: Sink>(sink: &mut W, endports: usize) -> Result<(), WriteFault>
    ensures writes { Writes W.written W.has_failed result sink.old sink.new (count_text endports) }
{
    write_number(sink, endports as u64)?;
    sink.write(b" end ports")
}

fn write_file_fault<W: Sink>(sink: &mut W, fault: &FileFault, name: &[u8]) -> Result<(), WriteFault>
    ensures writes { Writes W.written W.has_failed result sink.old sink.new
        (file_fault_text name.now fault.now) }
{
    if fault.is_of_file() {
        write_name(sink, name)?;
    }
    write_words(sink, fault)
}

/// Writes what `fault` says, without a file's name.
fn write_words<W: Sink>(sink: &mut W, fault: &FileFault) -> Result<(), WriteFault>
    ensures writes { Writes W.written W.has_failed result sink.old sink.new (words_of fault.now) }
{
    sink.write(fault.words().as_bytes())?;
    write_number_if_any(sink, fault.number())?;
    write_cause(sink, fault.report_fault())
}

/// Writes `number`, with which the words of a fault end, unless it is `None`.
fn write_number_if_any<W: Sink>(sink: &mut W, number: Option<u64>) -> Result<(), WriteFault>
    ensures writes { Writes W.written W.has_failed result sink.old sink.new (number_text number) }
{
    match number {
        Some(number) => write_number(sink, number),
        None => sink.write(b""),
    }
}

/// Writes a colon and the name of `fault`, the fault of a report, unless it is `None`.
fn write_cause<W: Sink>(sink: &mut W, fault: Option<ReportFault>) -> Result<(), WriteFault>
    ensures writes { Writes W.written W.has_failed result sink.old sink.new (cause_text fault) }
{
    match fault {
        Some(fault) => {
            sink.write(b": ")?;
            sink.write(fault.name().as_bytes())
        }
        None => sink.write(b""),
    }
}

fn write_text_fault<W: Sink>(sink: &mut W, fault: &TextFault, name: &[u8]) -> Result<(), WriteFault>
    ensures writes { Writes W.written W.has_failed result sink.old sink.new
        (text_fault_text name.now fault.now) }
{
    if fault.is_of_text() {
        write_name(sink, name)?;
    }
    write_said(sink, fault)
}

/// Writes what `fault` says, without a text's name.
fn write_said<W: Sink>(sink: &mut W, fault: &TextFault) -> Result<(), WriteFault>
    ensures writes { Writes W.written W.has_failed result sink.old sink.new (said_of_text fault.now) }
{
    write_line_if_any(sink, fault.line())?;
    write_lid_if_any(sink, fault.lid())?;
    sink.write(fault.word().as_bytes())?;
    write_guid_if_any(sink, fault.guid())
}

/// Writes `line`, the number of the faulty line, unless it is `None`.
fn write_line_if_any<W: Sink>(sink: &mut W, line: Option<usize>) -> Result<(), WriteFault>
    ensures writes { Writes W.written W.has_failed result sink.old sink.new (line_text line) }
{
    match line {
        Some(line) => {
            sink.write(b"line ")?;
            write_number(sink, line as u64)?;
            sink.write(b": ")
        }
        None => sink.write(b""),
    }
}

/// Writes `lid`, the LID that a fault concerns, unless it is `None`.
fn write_lid_if_any<W: Sink>(sink: &mut W, lid: Option<Lid>) -> Result<(), WriteFault>
    ensures writes { Writes W.written W.has_failed result sink.old sink.new (lid_before lid) }
{
    match lid {
        Some(lid) => {
            sink.write(b"lid ")?;
            write_number(sink, u64::from(lid.number()))?;
            sink.write(b" ")
        }
        None => sink.write(b""),
    }
}

/// Writes `guid`, the GUID that a fault concerns, unless it is `None`.
fn write_guid_if_any<W: Sink>(sink: &mut W, guid: Option<Guid>) -> Result<(), WriteFault>
    ensures writes { Writes W.written W.has_failed result sink.old sink.new (guid_behind guid) }
{
    match guid {
        Some(guid) => {
            sink.write(b" ")?;
            write_guid(sink, guid)
        }
        None => sink.write(b""),
    }
}

/// Writes `name`, a colon and a space.
fn write_name<W: Sink>(sink: &mut W, name: &[u8]) -> Result<(), WriteFault>
    ensures writes { Writes W.written W.has_failed result sink.old sink.new (name_text name.now) }
{
    sink.write(name)?;
    sink.write(b": ")
}
