//! Words, one after the other.
ghost use Rattle.std.specs.Prelude.{◌≡◌, ◌≤◌, ◌+◌, ◌==◌, ◌&&◌, ◌∷◌, None, Some, length, slice_index, min, drop, take, true, is_some, IfOk, if◌then◌else◌};
ghost use Rattle.std.specs.Str.{IsUtf8};
ghost use Rattle.k_lexer.specs.Characters.{is_mark as mark};
ghost use Rattle.k_lexer.specs.Before.{Stands, AllStand};
ghost use Rattle.k_terms.specs.Names.{number_of};
ghost use Rattle.production_reader.specs.Lexemes.{span};
ghost use Rattle.program_tokens.specs.Base.{bytes_of as bytes_in, IsNumbered, AllNumbered};
ghost use Rattle.program_tokens.specs.Terminals.{longest as longest_of};
ghost use Rattle.program_tokens.specs.Words.{literal as a_literal, terminal as a_terminal, word_of as a_word, adjacent as marks_adjacent, terminal_of as terminal_from, first_word as word_first, AreWords, is_mark as is_a_mark};

use crate::base::bytes_of;
use crate::literals::{number, text_of_string};
use crate::terminals::Terminals;
use grammar_terms::{Word, WordKind};
use k_lexer::{Kind, Token};
use k_terms::{Many, Memory, Names, Symbol, Text, Value, sort};
use std::alloc::Global;

/// A literal or an identifier.
fn literal(token: Token, sort: u32, value: Value) -> Word
    ensures { result ≡ a_literal token sort value }
{
    Word {
        kind: WordKind::Literal(value),
        sort,
        start: token.start,
        end: token.end,
    }
}

/// A terminal.
fn terminal(alloc: Global, start: usize, end: usize, text: &[u8]) -> Result<Word, Memory>
    ensures { IfOk result (λ word. word ≡ a_terminal start end text.now) }
{
    let text = Text::from_vec(Vec::from_slice(alloc, text)?);
    Ok(Word {
        kind: WordKind::Terminal(text),
        sort: 0,
        start,
        end,
    })
}

/// The symbol of a word that has a number.
fn symbol_of(names: &Names, bytes: &[u8]) -> Symbol
    requires utf8 { IsUtf8 bytes.now }
    requires numbered { is_some (number_of names.now bytes.now) ≡ true }
    ensures { number_of names.now bytes.now ≡ Some result.0 }
{
    let Ok(word) = std::str::from_utf8(bytes) else {
        unreachable!();
    };
    let Some(symbol) = names.find(word) else {
        unreachable!();
    };
    symbol
}

/// A word as a terminal, a truth or an identifier.
fn word_of(
    alloc: Global,
    terminals: &Terminals<'_>,
    names: &Names,
    token: Token,
    bytes: &[u8],
) -> Result<Word, Memory>
    requires utf8 { IsUtf8 bytes.now }
    requires numbered { is_some (number_of names.now bytes.now) ≡ true }
    ensures { IfOk result (λ word. word ≡ a_word terminals.now names.now token bytes.now) }
{
    if terminals.has(bytes) {
        return terminal(alloc, token.start, token.end, bytes);
    }
    if bytes == b"true".as_slice() {
        return Ok(literal(token, sort::BOOL, Value::Bool(true)));
    }
    if bytes == b"false".as_slice() {
        return Ok(literal(token, sort::BOOL, Value::Bool(false)));
    }
    Ok(literal(token, sort::ID, Value::Id(symbol_of(names, bytes))))
}

/// Whether a mark begins at a place.
fn is_mark_at(token: Token, at: usize) -> bool
    ensures { result ≡ (is_a_mark token.kind && (token.start == at)) }
{
    match token.kind {
        Kind::Mark => token.start == at,
        Kind::Word | Kind::Int | Kind::Str => false,
    }
}

/// How many marks stand at the front, the first at a place and each other where the one before it ends; up to `most` are
/// counted.
fn adjacent(tokens: &[Token], at: usize, most: usize) -> usize
    ensures { result ≡ min (marks_adjacent at tokens.now) most }
{
    let mut count = 0;
    let mut end = at;
    for token in tokens {
        if count == most {
            return count;
        }
        if !is_mark_at(*token, end) {
            return count;
        }
        count += 1;
        end = token.end;
    }
    count
}

/// The longest terminal that adjacent marks make, with their number, where the first of them stands at a place.
fn terminal_at(
    alloc: Global,
    terminals: &Terminals<'_>,
    text: &[u8],
    at: usize,
    tokens: &[Token],
) -> Result<Option<(Word, usize)>, Memory>
    requires begins { mark (slice_index (drop at text.now) 0) ≡ true }
    requires within { at ≤ length text.now }
    requires fits { marks_adjacent at tokens.now + at ≤ length text.now }
    ensures { IfOk result (λ found. found ≡ terminal_from text.now at (longest_of terminals.now (drop at text.now) (marks_adjacent at tokens.now))) }
{
    let (_, rest) = text.split_at(at);
    let most = adjacent(tokens, at, terminals.greatest());
    let size = terminals.longest(rest, most);
    if size == 0 {
        return Ok(None);
    }
    let (front, _) = rest.split_at(size);
    Ok(Some((terminal(alloc, at, at + size, front)?, size)))
}

/// The first word of base tokens and the number of its tokens.
fn first_word(
    alloc: Global,
    terminals: &Terminals<'_>,
    names: &Names,
    text: &[u8],
    tokens: &[Token],
) -> Result<Option<(Word, usize)>, Memory>
    requires stand { AllStand text.now tokens.now }
    requires numbered { AllNumbered text.now names.now tokens.now }
    ensures { IfOk result (λ found. found ≡ word_first terminals.now names.now text.now tokens.now) }
{
    let Some(first) = tokens.first() else {
        return Ok(None);
    };
    let token = *first;
    let bytes = bytes_of(text, token);
    match token.kind {
        Kind::Word => Ok(Some((word_of(alloc, terminals, names, token, bytes)?, 1))),
        Kind::Int => Ok(Some((literal(token, sort::INT, Value::Int(number(bytes))), 1))),
        Kind::Str => {
            let value = Value::Str(text_of_string(alloc, bytes)?);
            Ok(Some((literal(token, sort::STRING, value), 1)))
        }
        Kind::Mark => terminal_at(alloc, terminals, text, token.start, tokens),
    }
}

/// The words of base tokens up to a mark with which no terminal begins, and the number of their tokens.
pub(crate) fn read_words(
    alloc: Global,
    terminals: &Terminals<'_>,
    names: &Names,
    text: &[u8],
    tokens: &[Token],
) -> Result<(Many<Word>, usize), Memory>
    requires stand { AllStand text.now tokens.now }
    requires numbered { AllNumbered text.now names.now tokens.now }
    ensures words { IfOk result (λ read. AreWords terminals.now names.now text.now read.0 tokens.now (drop read.1 tokens.now)) }
    ensures ends { IfOk result (λ read. word_first terminals.now names.now text.now (drop read.1 tokens.now) ≡ None) }
{
    let mut words = Many::new(alloc);
    let mut at = 0;
    while at < tokens.len() {
        let (_, rest) = tokens.split_at(at);
        let Some((word, size)) = first_word(alloc, terminals, names, text, rest)? else {
            return Ok((words, at));
        };
        words.push(word)?;
        at += size;
    }
    Ok((words, at))
}
