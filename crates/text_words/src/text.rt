ghost use Rattle.std.specs.Prelude.{◌≡◌, ◌<◌, ◌≤◌, ◌∷◌, ◌==◌, [], false, not, length, take, drop, position};
ghost use Rattle.std.specs.Prelude.{MatchOption, option_map};
ghost use Rattle.std.specs.Str.{bytes_eq};
ghost use Rattle.text_words.specs.Text.{lines, words, is_blank, parts, is_behind_word, is_quoted_after};
ghost use Rattle.text_words.specs.Text.{only_word, two_words, without_return};

/// Returns the first line of `text`, without its line end, and the text after this line end. Returns `None` if `text`
/// is empty.
#[tactic(auto, using(crate::proofs::Splits::lines_at, crate::proofs::Splits::lines_none))]
pub fn split_line(text: &[u8]) -> Option<(&[u8], &[u8])>
    ensures line { MatchOption result (lines text.now ≡ [])
        (λ x. lines text.now ≡ x.0.now ∷ lines x.1.now) }
    ensures shorter { MatchOption result (text.now ≡ []) (λ x. length x.1.now < length text.now) }
{
    if text.is_empty() {
        return None;
    }
    match place_of(text, b'\n') {
        Some(end) => Some((without_return(&text[..end]), &text[end + 1..])),
        None => Some((text, &[])),
    }
}

/// Returns `line` without the carriage return at its end, if it ends with one.
#[tactic(auto, using(crate::proofs::Splits::return_at_end, crate::proofs::Splits::no_return_at_end))]
fn without_return(line: &[u8]) -> &[u8]
    ensures { result.now ≡ without_return line.now }
{
    let Some((last, rest)) = line.split_last() else {
        return line;
    };
    if *last == b'\r' { rest } else { line }
}

/// Returns the first word of `line` and the bytes after it, or `None` if `line` has no word. A `#` outside quotes ends
/// the words of the line.
pub fn split_word(line: &[u8]) -> Option<(&[u8], &[u8])>
    ensures { MatchOption result (words line.now ≡ [])
        (λ x. words line.now ≡ x.0.now ∷ words x.1.now) }
{
    let (_, line) = line.split_at(word_start(line)?);
    if line[0] == b'#' {
        None
    } else {
        Some(line.split_at(word_len(line)))
    }
}

/// Returns the only word of `line`, or `None` if `line` has no word or more than one.
pub fn only_word(line: &[u8]) -> Option<&[u8]>
    ensures { option_map (λ x. x.now) result ≡ only_word (words line.now) }
{
    let (word, rest) = split_word(line)?;
    if split_word(rest).is_some() {
        return None;
    }
    Some(word)
}

/// Returns the two words of `line`, or `None` if `line` has more words, or fewer.
pub fn two_words(line: &[u8]) -> Option<(&[u8], &[u8])>
    ensures { option_map (λ x. (x.0.now, x.1.now)) result ≡ two_words (words line.now) }
{
    let (one, rest) = split_word(line)?;
    let (other, rest) = split_word(rest)?;
    if split_word(rest).is_some() {
        return None;
    }
    Some((one, other))
}

/// Returns the index of the first byte of `line` that is neither a blank nor a tab, or `None` if there is none.
fn word_start(line: &[u8]) -> Option<usize>
    ensures { result ≡ position (λ b. not (is_blank b)) line.now }
{
    line.iter().position(|byte| !is_blank(*byte))
}

/// Returns the length of the word that `line` begins with, or 0 if `line` does not begin with a word.
fn word_len(line: &[u8]) -> usize
    ensures within { result ≤ length line.now }
    ensures word { (parts false line.now).0 ≡ take result line.now }
    ensures behind { (parts false line.now).1 ≡ words (drop result line.now) }
{
    let mut is_quoted = false;
    for (place, byte) in line.iter().enumerate() {
        if is_behind_word(is_quoted, *byte) {
            return place;
        }
        is_quoted = is_quoted_after(is_quoted, *byte);
    }
    line.len()
}

/// Returns whether a word ends before `byte`. `is_quoted` says whether the word is within quotes before `byte`.
fn is_behind_word(is_quoted: bool, byte: u8) -> bool
    ensures { result ≡ is_behind_word is_quoted byte }
{
    !is_quoted && (byte == b'#' || is_blank(byte))
}

/// Returns whether a word is within quotes after `byte`, if `is_quoted` says whether it is before.
fn is_quoted_after(is_quoted: bool, byte: u8) -> bool
    ensures { result ≡ is_quoted_after is_quoted byte }
{
    if byte == b'"' { !is_quoted } else { is_quoted }
}

/// Returns whether `word` is `wanted`.
pub fn is_word(word: &[u8], wanted: &str) -> bool
    ensures { result ≡ bytes_eq word.now wanted.now }
{
    word == wanted.as_bytes()
}

/// Returns the index of the first `byte` in `bytes`, or `None` if `bytes` do not contain `byte`.
pub(crate) fn place_of(bytes: &[u8], byte: u8) -> Option<usize>
    ensures { result ≡ position (λ b. b == byte) bytes.now }
{
    bytes.iter().position(|b| *b == byte)
}

/// Returns whether `byte` is a blank or a tab. These separate words.
fn is_blank(byte: u8) -> bool
    ensures { result ≡ is_blank byte }
{
    byte == b' ' || byte == b'\t'
}
