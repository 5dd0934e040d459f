//! Adjacent base tokens, by what is asked of each.
ghost use Rattle.std.specs.Prelude.{◌≡◌, ◌≤◌, ◌==◌, ◌&&◌, length, drop, slice_index};
ghost use Rattle.k_lexer.specs.Before.{Stands, AllStand};
ghost use Rattle.production_reader.specs.Lexemes.{span};
ghost use Rattle.program_tokens.specs.Base.{bytes_of as bytes_in};
ghost use Rattle.program_tokens.specs.Words.{is_mark as mark_kind};
ghost use Rattle.cell_tokens.specs.Signs.{is_word as word_kind, is_sign as has_sign, fits as fit, bytes_at as bytes_in_place, end_at as end_in_place};

use k_lexer::{Kind, Token};

/// What is asked of a base token.
#[derive(Clone, Copy, Debug, PartialEq, Eq)]
pub(crate) enum Sign {
    /// It is a word.
    Word,
    /// It is this mark.
    Mark(u8),
}

/// The byte at a place, and 0 past the end.
fn byte_at(text: &[u8], at: usize) -> u8
    ensures { result ≡ slice_index text.now at }
{
    match text.get(at) {
        Some(byte) => *byte,
        None => 0,
    }
}

pub(crate) fn is_word(kind: Kind) -> bool
    ensures { result ≡ word_kind kind }
{
    match kind {
        Kind::Word => true,
        Kind::Int | Kind::Str | Kind::Mark => false,
    }
}

/// Whether a base token is this mark.
pub(crate) fn is_mark(text: &[u8], byte: u8, token: Token) -> bool
    ensures { result ≡ (mark_kind token.kind && (slice_index text.now token.start == byte)) }
{
    match token.kind {
        Kind::Mark => byte_at(text, token.start) == byte,
        Kind::Word | Kind::Int | Kind::Str => false,
    }
}

fn is_sign(text: &[u8], sign: Sign, token: Token) -> bool
    ensures { result ≡ has_sign text.now sign token }
{
    match sign {
        Sign::Word => is_word(token.kind),
        Sign::Mark(byte) => is_mark(text, byte, token),
    }
}

/// Whether base tokens of these signs stand first, the first at a place and each other where the one before it ends.
pub(crate) fn fits(text: &[u8], signs: &[Sign], at: usize, tokens: &[Token]) -> bool
    ensures { result ≡ fit text.now signs.now at tokens.now }
{
    let mut end = at;
    for (place, sign) in signs.iter().enumerate() {
        let Some(token) = tokens.get(place) else {
            return false;
        };
        if token.start != end {
            return false;
        }
        if !is_sign(text, *sign, *token) {
            return false;
        }
        end = token.end;
    }
    true
}

/// The bytes of a text from one place up to another.
pub(crate) fn span_of(text: &[u8], start: usize, end: usize) -> &[u8]
    requires order { start ≤ end }
    requires within { end ≤ length text.now }
    ensures { result.now ≡ span text.now start end }
{
    &text[start..end]
}

/// The bytes of a token.
pub(crate) fn bytes_of(text: &[u8], token: Token) -> &[u8]
    requires { Stands text.now token }
    ensures { result.now ≡ bytes_in text.now token }
{
    span_of(text, token.start, token.end)
}

/// The bytes of the token at a place among tokens, and none past the last.
pub(crate) fn bytes_at<'a>(text: &'a [u8], tokens: &[Token], place: usize) -> &'a [u8]
    requires { AllStand text.now tokens.now }
    ensures { result.now ≡ bytes_in_place text.now tokens.now place }
{
    match tokens.get(place) {
        Some(token) => bytes_of(text, *token),
        None => &[],
    }
}

/// The end of the token at a place among tokens, and 0 past the last.
pub(crate) fn end_at(tokens: &[Token], place: usize) -> usize
    ensures { result ≡ end_in_place tokens.now place }
{
    match tokens.get(place) {
        Some(token) => token.end,
        None => 0,
    }
}

/// The tokens behind the first few.
pub(crate) fn behind(tokens: &[Token], count: usize) -> &[Token]
    ensures { result.now ≡ drop count tokens.now }
{
    if tokens.len() <= count {
        return &[];
    }
    let (_, rest) = tokens.split_at(count);
    rest
}
