//! What stands at a place among the tokens.
ghost use Rattle.std.specs.Prelude.{◌≡◌, ◌+◌, ◌<◌, ◌^◌, drop, slice_get, MatchOption, IsTrue, Some, None, false};
ghost use Rattle.production_reader.specs.Lexemes.{word, quoted, digits};
ghost use Rattle.production_reader.specs.Sources.{piece_of};
ghost use Rattle.production_reader.specs.Heads.{heads, is_mark_of, is_any_word, is_text, is_number, Stands};

use crate::source::{Lexeme, Source};
use k_lexer::Kind;

/// The lexeme of a number, if there is one; then the number after it is small enough.
fn lexeme_at<'a>(source: &Source<'a>, at: usize) -> Option<Lexeme<'a>>
    ensures { MatchOption result (None ≡ slice_get source.now at) (λ lexeme. (Some (piece_of lexeme) ≡ slice_get source.now at) × (at + 1 < 2 ^ 64)) }
{
    let _count = source.len();
    source.lexeme(at)
}

/// Whether a mark stands there.
pub(crate) fn is_mark(source: &Source<'_>, at: usize, byte: u8) -> bool
    ensures is { result ≡ heads (is_mark_of byte) (drop at source.now) }
    ensures small { IsTrue result → at + 1 < 2 ^ 64 }
{
    let Some(lexeme) = lexeme_at(source, at) else {
        return false;
    };
    match lexeme.kind {
        Kind::Mark => lexeme.bytes == [byte].as_slice(),
        _ => false,
    }
}

/// The word that stands there.
pub(crate) fn word_at<'a>(source: &Source<'a>, at: usize) -> Option<&'a [u8]>
    ensures { MatchOption result (heads is_any_word (drop at source.now) ≡ false) (λ found. Stands (word found.now) source.now at × (at + 1 < 2 ^ 64)) }
{
    let Some(lexeme) = lexeme_at(source, at) else {
        return None;
    };
    match lexeme.kind {
        Kind::Word => Some(lexeme.bytes),
        _ => None,
    }
}

/// The string that stands there, with its quotes.
pub(crate) fn text_at<'a>(source: &Source<'a>, at: usize) -> Option<&'a [u8]>
    ensures { MatchOption result (heads is_text (drop at source.now) ≡ false) (λ found. Stands (quoted found.now) source.now at × (at + 1 < 2 ^ 64)) }
{
    let Some(lexeme) = lexeme_at(source, at) else {
        return None;
    };
    match lexeme.kind {
        Kind::Str => Some(lexeme.bytes),
        _ => None,
    }
}

/// The digits that stand there.
pub(crate) fn digits_at<'a>(source: &Source<'a>, at: usize) -> Option<&'a [u8]>
    ensures { MatchOption result (heads is_number (drop at source.now) ≡ false) (λ found. Stands (digits found.now) source.now at × (at + 1 < 2 ^ 64)) }
{
    let Some(lexeme) = lexeme_at(source, at) else {
        return None;
    };
    match lexeme.kind {
        Kind::Int => Some(lexeme.bytes),
        _ => None,
    }
}
