//! The text of tables and the files after it, and a text that may come before both.
ghost use Rattle.std.specs.Prelude.{◌+◌, ◌≤◌, length, IfErr, IfOk};
ghost use Rattle.sm_cli.specs.Asked.{texts_if};
ghost use Rattle.sm_cli.specs.InputTables.{AreNoTablesAndFiles, AreNoTextAndTables, AreTablesAndFiles};
ghost use Rattle.sm_cli.specs.InputTables.{AreTextAndTables};

use crate::asked::texts_if;
use crate::fault::Fault;
use crate::from_text::FromText;
use crate::input_files::read_files;
use crate::input_texts::{read_text, read_text_if};
use byte_io::Source;
use fact_store::Store;
use smp_bytes::Generation;
use std::alloc::Global;
use tables_file::Held;

/// What a text of tables and the files after it say.
#[derive(Drop)]
pub struct TablesAndFacts {
    /// The tables that switches hold, and the LIDs of end ports.
    pub held: Held,
    /// What the files say together.
    pub store: Store,
}

/// What a text, if there is one, a text of tables and the files after them say.
#[derive(Drop)]
pub struct TextAndTables<T> {
    /// What the first text says. `None` if there is no such text.
    pub text: Option<T>,
    /// What the tables and the files say.
    pub read: TablesAndFacts,
}

/// Reads a text if `has_text` is true, then the text of tables, and then the files. `before` other inputs come before
/// `inputs`. There must be an input for each text, and at most `usize::MAX` inputs in all.
///
/// # Errors
///
/// Returns the fault of the first input that is refused. Memory that is refused counts as a fault of its input.
pub fn read_text_and_tables<S: Source, T: FromText>(
    alloc: Global,
    before: usize,
    has_text: bool,
    inputs: &mut [S],
) -> Result<TextAndTables<T>, Fault>
    requires enough { texts_if has_text + 1 ≤ length inputs.old }
    requires counted { before + length inputs.old ≤ usize.MAX }
    ensures read { IfOk result (AreTextAndTables S.state T.says has_text inputs.old inputs.new) }
    ensures refused { IfErr result (AreNoTextAndTables S.state T.says T.is_refused has_text before
        inputs.old inputs.new) }
{
    let count = texts_if(has_text);
    let (texts, others) = inputs.split_at_mut(count);
    let text = read_text_if(alloc, before, has_text, texts)?;
    let read = read_tables_and_files(alloc, before + count, others)?;
    Ok(TextAndTables { text, read })
}

/// Reads the text of tables, the first of `inputs`, and then the files. What the files say is read at the greatest of
/// their floors. `before` other inputs come before `inputs`. There must be at least one of `inputs`, and at most
/// `usize::MAX` inputs in all. Returns the fault of the first input that is refused. Memory that is refused counts as
/// a fault of its input.
pub fn read_tables_and_files<S: Source>(
    alloc: Global,
    before: usize,
    inputs: &mut [S],
) -> Result<TablesAndFacts, Fault>
    requires enough { 1 ≤ length inputs.old }
    requires counted { before + length inputs.old ≤ usize.MAX }
    ensures read { IfOk result (AreTablesAndFiles S.state inputs.old inputs.new) }
    ensures refused { IfErr result (AreNoTablesAndFiles S.state before inputs.old inputs.new) }
{
    let (tables, files) = inputs.split_at_mut(1);
    let held = read_text(alloc, before, tables)?;
    let floor = Generation::new(1).unwrap();
    let store = read_files(alloc, before + 1, files, floor)?;
    Ok(TablesAndFacts { held, store })
}
