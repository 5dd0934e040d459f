//! The texts of configurations and rules.
ghost use Rattle.std.specs.Prelude.{◌≡◌, ◌≤◌, ◌<◌, ◌+◌, length, drop, MatchResult};
ghost use Rattle.std.specs.List.{list_any};
ghost use Rattle.production_reader.specs.Allowed.{EndsSentence, same_text, is_among as among};
ghost use Rattle.production_reader.specs.Reading.{IsRead, Stops};
ghost use Rattle.file_reader.specs.Files.{IsText, ending_words};
ghost use Rattle.file_reader.specs.Passages.{ends_here as an_end, stands_here as stands, IsPassage, signs_between};
ghost use Rattle.file_reader.specs.Written.{signs_of_text};
ghost use Rattle.file_reader.specs.Meaning.{counted};

use crate::words::word_at;
use production_reader::{Source, Stop};

/// Whether a text is one of these.
pub(crate) fn is_among(texts: &[&str], text: &[u8]) -> bool
    ensures { result ≡ list_any (λ other. same_text text.now other.now) texts.now }
{
    texts.iter().any(|other| text == other.as_bytes())
}

/// Whether a word ends a text.
fn is_ending(word: &[u8]) -> bool
    ensures { result ≡ among ending_words word.now }
{
    is_among(
        &[
            "module",
            "endmodule",
            "imports",
            "syntax",
            "configuration",
            "rule",
        ],
        word,
    )
}

/// Whether one of the words that end a text stands at a place.
fn ends_here(source: &Source<'_>, at: usize) -> bool
    ensures { result ≡ an_end (drop at source.now) }
{
    match word_at(source, at) {
        Some(word) => is_ending(word),
        None => false,
    }
}

/// The number of the first token from a place on that ends a text, or of all tokens.
fn passage_end(source: &Source<'_>, from: usize) -> usize
    requires { from ≤ length source.now }
    ensures { IsPassage source.now from result }
{
    let count = source.len();
    for at in from..count {
        if ends_here(source, at) {
            return at;
        }
    }
    count
}

/// Reads a text: one or more tokens, up to a word that ends it. Gives the number of the token that follows.
pub(crate) fn read_text(source: &Source<'_>, from: usize) -> Result<usize, Stop>
    requires { from ≤ length source.now }
    ensures { MatchResult result (λ past. IsRead IsText signs_of_text EndsSentence source.now from (signs_between source.now from past) past)
        (λ stop. Stops IsText signs_of_text EndsSentence source.now from stop) }
{
    let past = passage_end(source, from);
    if past == from {
        return Err(Stop::Expected { at: from });
    }
    Ok(past)
}

/// Whether these bytes stand at a place.
fn stands_here(source: &Source<'_>, at: usize, text: &str) -> bool
    ensures { result ≡ stands text.now (drop at source.now) }
{
    match source.lexeme(at) {
        Some(lexeme) => lexeme.bytes == text.as_bytes(),
        None => false,
    }
}

/// The number past the last token of a rule's text that counts: a last `[structural]` doesn't.
pub(crate) fn counted_past(source: &Source<'_>, first: usize, past: usize) -> usize
    requires order { first ≤ past }
    requires within { past ≤ length source.now }
    ensures { result ≡ first + counted (signs_between source.now first past) }
{
    if past - first < 3 {
        return past;
    }
    if !stands_here(source, past - 3, "[") {
        return past;
    }
    if !stands_here(source, past - 2, "structural") {
        return past;
    }
    if !stands_here(source, past - 1, "]") {
        return past;
    }
    past - 3
}
