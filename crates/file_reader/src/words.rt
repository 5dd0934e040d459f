//! What stands at a place.
ghost use Rattle.std.specs.Prelude.{◌≡◌, ◌+◌, ◌<◌, ◌↔◌, ℕ, List, IsTrue, MatchOption, drop, length};
ghost use Rattle.production_reader.specs.Lexemes.{word, joined_word, joined_mark};
ghost use Rattle.file_reader.specs.Heads.{Begins};

use k_lexer::Kind;
use production_reader::Source;

/// The word at a place, if a word stands there.
pub(crate) fn word_at<'a>(source: &Source<'a>, at: usize) -> Option<&'a [u8]>
    ensures { MatchOption result ((bytes : List ℕ) → Begins (word bytes) (drop at source.now) → ⊥)
        (λ bytes. Begins (word bytes.now) (drop at source.now)) }
{
    let Some(lexeme) = source.lexeme(at) else {
        return None;
    };
    match lexeme.kind {
        Kind::Word => Some(lexeme.bytes),
        _ => None,
    }
}

/// Whether this word stands at a place.
pub(crate) fn has_word(source: &Source<'_>, at: usize, text: &str) -> bool
    ensures { IsTrue result ↔ Begins (word text.now) (drop at source.now) }
{
    match word_at(source, at) {
        Some(bytes) => bytes == text.as_bytes(),
        None => false,
    }
}

/// Whether a dash stands at a place, where the token before it ends.
pub(crate) fn has_dash(source: &Source<'_>, at: usize) -> bool
    ensures { IsTrue result ↔ Begins (joined_mark 45) (drop at source.now) }
{
    let Some(lexeme) = source.lexeme(at) else {
        return false;
    };
    if !lexeme.joined {
        return false;
    }
    match lexeme.kind {
        Kind::Mark => lexeme.bytes == "-".as_bytes(),
        _ => false,
    }
}

/// The word at a place, if one begins there where the token before it ends.
pub(crate) fn joined_word_at<'a>(source: &Source<'a>, at: usize) -> Option<&'a [u8]>
    ensures { MatchOption result ((bytes : List ℕ) → Begins (joined_word bytes) (drop at source.now) → ⊥)
        (λ bytes. Begins (joined_word bytes.now) (drop at source.now)) }
{
    let Some(lexeme) = source.lexeme(at) else {
        return None;
    };
    if !lexeme.joined {
        return None;
    }
    match lexeme.kind {
        Kind::Word => Some(lexeme.bytes),
        _ => None,
    }
}

/// The number of the token after one.
pub(crate) fn past(source: &Source<'_>, at: usize) -> usize
    requires { at < length source.now }
    ensures { result ≡ at + 1 }
{
    let count = source.len();
    prove!(at < count);
    at + 1
}
