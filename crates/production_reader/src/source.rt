ghost use Rattle.std.specs.Prelude.{◌≡◌, ◌≤◌, length, slice_get, option_map};
ghost use Rattle.production_reader.specs.Lexemes.{lexemes, span, lexeme_of as one_lexeme};
ghost use Rattle.production_reader.specs.Sources.{AreWithin, piece_of, last_end};

use k_lexer::{Kind, Token};
use std::marker::Model;

/// A token with its bytes.
#[derive(Clone, Copy, Debug)]
pub struct Lexeme<'a> {
    /// What it is.
    pub kind: Kind,
    /// Its bytes.
    pub bytes: &'a [u8],
    /// Whether it begins where the token before it ends, or the text begins.
    pub joined: bool,
}

/// The text of a definition with its tokens.
#[derive(Debug, Drop)]
pub struct Source<'a> {
    text: &'a [u8],
    tokens: &'a [Token],
}

impl<'a> Model for Source<'a> {
    ghost use Rattle.std.specs.Prelude.{List};
    ghost use Rattle.production_reader.specs.Lexemes.{Lexeme as Piece, lexemes};
    ghost use Rattle.production_reader.specs.Sources.{AreWithin};

    ghost Value = { List Piece };

    ghost view = { λ source. lexemes source.text.now source.tokens.now };

    ghost invariant = { λ source. AreWithin source.text.now source.tokens.now };
}

/// The token of a number, if there is one.
fn token_at(tokens: &[Token], at: usize) -> Option<Token>
    ensures { result ≡ slice_get tokens.now at }
{
    tokens.get(at).copied()
}

/// The place after the last byte of the token before this one; 0 before the first.
fn end_before(tokens: &[Token], at: usize) -> usize
    ensures { result ≡ last_end 0 tokens.now at }
{
    if at == 0 {
        return 0;
    }
    match token_at(tokens, at - 1) {
        Some(token) => token.end,
        None => 0,
    }
}

/// The bytes of a token.
fn bytes_of(text: &[u8], token: Token) -> &[u8]
    requires order { token.start ≤ token.end }
    requires within { token.end ≤ length text.now }
    ensures { result.now ≡ span text.now token.start token.end }
{
    &text[token.start..token.end]
}

/// A token of a text with its bytes, where the one before it ends at this place.
fn lexeme_of<'a>(text: &'a [u8], token: Token, last: usize) -> Lexeme<'a>
    requires order { token.start ≤ token.end }
    requires within { token.end ≤ length text.now }
    ensures { piece_of result ≡ one_lexeme text.now last token }
{
    Lexeme {
        kind: token.kind,
        bytes: bytes_of(text, token),
        joined: token.start == last,
    }
}

impl<'a> Source<'a> {
    pub fn new(text: &'a [u8], tokens: &'a [Token]) -> Source<'a>
        requires { AreWithin text.now tokens.now }
        ensures { result ≡ lexemes text.now tokens.now }
    {
        Source { text, tokens }
    }

    /// The token of a number, counted from 0, if there is one.
    pub fn lexeme(&self, at: usize) -> Option<Lexeme<'a>>
        ensures { option_map piece_of result ≡ slice_get self.now at }
    {
        let Some(token) = token_at(self.tokens, at) else {
            return None;
        };
        Some(lexeme_of(self.text, token, end_before(self.tokens, at)))
    }

    /// The number of tokens.
    pub fn len(&self) -> usize
        ensures { result ≡ length self.now }
    {
        self.tokens.len()
    }
}
