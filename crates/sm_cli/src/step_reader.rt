//! A reader of the inputs of a step.
use crate::fault::Fault;
use crate::input_tables::{TextAndTables, read_text_and_tables};
use crate::inputs::InputReader;
use byte_io::Source;
use smp_bytes::Guid;
use std::alloc::Global;
use subnet_view::is_usable;

/// A reader of the inputs of a step after the text that its rule takes: a text of an order, if it is given, a text of
/// tables, and the files. It knows the usable switches from the files' facts.
#[derive(Clone, Copy, Debug, PartialEq, Eq)]
pub struct StepReader {
    /// Whether a text of an order comes before the text of tables.
    pub has_order: bool,
}

impl<S: Source> InputReader<S> for StepReader {
    ghost use Rattle.std.specs.Prelude.{◌+◌, ◌≤◌};
    ghost use Rattle.sm_cli.specs.Asked.{texts_if};
    ghost use Rattle.sm_cli.specs.InputReaders.{step_reader};

    type Told = TextAndTables<Vec<Guid>>;

    ghost reader = { λ inputs. step_reader S.state inputs.has_order };

    ghost takes = { λ inputs count. texts_if inputs.has_order + 1 ≤ count };

    fn read(
        &self,
        alloc: Global,
        before: usize,
        inputs: &mut [S],
    ) -> Result<TextAndTables<Vec<Guid>>, Fault> {
        read_text_and_tables(alloc, before, self.has_order, inputs)
    }

    fn has_switch(&self, told: &TextAndTables<Vec<Guid>>, guid: Guid) -> bool {
        is_usable(&told.read.store, guid)
    }
}
