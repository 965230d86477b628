//! A text among the inputs of a run, which is read whole and then parsed.
ghost use Rattle.std.specs.Prelude.{◌≡◌, length, IfErr, IfOk};
ghost use Rattle.sm_cli.specs.Asked.{texts_if};
ghost use Rattle.sm_cli.specs.InputTexts.{IsNoText, IsNoTextIf, IsText, IsTextIf};
ghost use Rattle.sm_cli.specs.Sources.{IsOneRead};

use crate::fault::Fault;
use crate::from_text::FromText;
use byte_io::Source;
use record_file::read_whole;
use std::alloc::Global;

/// Reads the text of `source` to its end, and returns what it says. `input` is the index of the text in the run.
fn read_source<S: Source, T: FromText>(
    alloc: Global,
    input: usize,
    source: &mut S,
) -> Result<T, Fault>
    ensures read { IfOk result (IsText S.state T.says source.old source.new) }
    ensures refused { IfErr result (IsNoText S.state T.is_refused input source.old source.new) }
{
    let text = match read_whole(alloc, source) {
        Ok(text) => text,
        Err(fault) => return Err(Fault::File { input, fault }),
    };
    match T::parse(alloc, &text) {
        Ok(told) => Ok(told),
        Err(fault) => Err(Fault::Text { input, fault }),
    }
}

/// Reads the text of the only source of `texts`, that with the index `input` in the run, and returns what it says.
pub(crate) fn read_text<S: Source, T: FromText>(
    alloc: Global,
    input: usize,
    texts: &mut [S],
) -> Result<T, Fault>
    requires { length texts.old ≡ 1 }
    ensures read { IfOk result (λ told. IsOneRead texts.old texts.new
        (λ old new. IsText S.state T.says old new told)) }
    ensures refused { IfErr result (λ fault. IsOneRead texts.old texts.new
        (λ old new. IsNoText S.state T.is_refused input old new fault)) }
{
    read_source(alloc, input, &mut texts[0])
}

/// Reads the only source of `texts`, that with the index `input` in the run, if `is_there`, and returns what it says.
pub(crate) fn read_text_if<S: Source, T: FromText>(
    alloc: Global,
    input: usize,
    is_there: bool,
    texts: &mut [S],
) -> Result<Option<T>, Fault>
    requires { length texts.old ≡ texts_if is_there }
    ensures read { IfOk result (IsTextIf S.state T.says is_there texts.old texts.new) }
    ensures refused { IfErr result (IsNoTextIf S.state T.is_refused is_there input texts.old texts.new) }
{
    if !is_there {
        return Ok(None);
    }
    Ok(Some(read_text(alloc, input, texts)?))
}
