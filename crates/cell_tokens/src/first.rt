//! The first token of base tokens.
ghost use Rattle.std.specs.Prelude.{◌≡◌, ◌+◌, ◌-◌, ◌<◌, ◌≤◌, ◌^◌, ◌∷◌, ℕ, length, zero, suc, Option, List, IfOk, Some, None, if◌then◌else◌};
ghost use Rattle.k_lexer.specs.Before.{Stands, AllStand};
ghost use Rattle.production_reader.specs.Allowed.{is_among};
ghost use Rattle.production_reader.specs.Lexemes.{span};
ghost use Rattle.program_tokens.specs.Base.{AllNumbered};
ghost use Rattle.cell_tokens.specs.Lookup.{IsWhole, AllWhole};
ghost use Rattle.cell_tokens.specs.Signs.{ends as ends_of};
ghost use Rattle.cell_tokens.specs.Forms.{last_place, terminal_size as size_of_terminal, terminal_at as at_terminal, other_at as at_other};
ghost use Rattle.cell_tokens.specs.CellTokens.{lexicon_with, first_token as token_first};

use crate::forms::{
    close_at, empty_at, input_at, list_item_at, longer, open_at, program_at, symbol_at,
};
use crate::signs::{bytes_of, end_at, span_of};
use crate::terminals::Terminals;
use crate::token::{CellKind, CellToken};
use crate::words::literal_as;
use grammar_terms::Grammar;
use k_lexer::Token;
use k_terms::{Memory, Names, Text};
use std::alloc::Global;

/// The size of the longest terminal at a place, where the last base tokens that made one were `size`, and the next
/// makes
/// one or not.
fn size_with(makes: bool, size: usize, place: usize) -> usize
    requires { place + 1 < 2 ^ 64 }
    ensures size { result ≡ (if makes then place + 1 else size) }
    ensures fewer { size ≤ place → result ≤ place + 1 }
{
    if makes { place + 1 } else { size }
}

/// How many base tokens further to a first one make the longest terminal with it; 0 where none does.
fn further_size(terminals: &Terminals<'_>, text: &[u8], first: Token, rest: &[Token]) -> usize
    requires stand { Stands text.now first }
    requires rest { AllStand text.now rest.now }
    requires whole { IsWhole text.now first }
    ensures size { result ≡ last_place (λ end. is_among terminals.now (span text.now first.start end)) (ends_of first.end rest.now) }
    ensures within { result ≤ length rest.now }
{
    let most = terminals.greatest();
    let mut size = 0;
    let mut end = first.end;
    for (place, token) in rest.iter().enumerate() {
        if token.start != end {
            return size;
        }
        if token.end - first.start > most {
            return size;
        }
        end = token.end;
        size = size_with(terminals.has(&text[first.start..end]), size, place);
    }
    size
}

/// Of how many base tokens the longest terminal is made that begins with a first one; 0 where there is none.
fn terminal_size(terminals: &Terminals<'_>, text: &[u8], first: Token, rest: &[Token]) -> usize
    requires stand { Stands text.now first }
    requires rest { AllStand text.now rest.now }
    requires whole { IsWhole text.now first }
    ensures { result ≡ size_of_terminal terminals.now text.now first.start (first ∷ rest.now) }
{
    let further = further_size(terminals, text, first, rest);
    if further > 0 {
        return further + 1;
    }
    if terminals.has(bytes_of(text, first)) {
        return 1;
    }
    0
}

/// The longest terminal that stands here.
fn terminal_at(
    alloc: Global,
    terminals: &Terminals<'_>,
    text: &[u8],
    first: Token,
    rest: &[Token],
    tokens: &[Token],
) -> Result<Option<CellToken>, Memory>
    requires stand { AllStand text.now tokens.now }
    requires whole { AllWhole text.now tokens.now }
    requires parts { tokens.now ≡ first ∷ rest.now }
    ensures { IfOk result (λ found. found ≡ at_terminal terminals.now text.now first.start tokens.now) }
{
    let size = terminal_size(terminals, text, first, rest);
    if size == 0 {
        return Ok(None);
    }
    let end = end_at(tokens, size - 1);
    let bytes = span_of(text, first.start, end);
    Ok(Some(CellToken {
        kind: CellKind::Terminal(Text::from_vec(Vec::from_slice(alloc, bytes)?)),
        size,
    }))
}

/// The longest token beside terminals that stands here.
fn other_at(
    alloc: Global,
    grammar: &Grammar,
    names: &Names,
    text: &[u8],
    tokens: &[Token],
    first: Token,
) -> Result<Option<CellToken>, Memory>
    requires stand { AllStand text.now tokens.now }
    requires numbered { AllNumbered text.now names.now tokens.now }
    requires begins { (rest : List Token) × (tokens.now ≡ first ∷ rest) }
    ensures { (terminals : List (List ℕ)) → IfOk result (λ found. found ≡ at_other (lexicon_with terminals grammar.now names.now) text.now first.start tokens.now) }
{
    let at = first.start;
    let literal = literal_as(alloc, names, text, first)?;
    let item = longer(list_item_at(text, at, tokens), literal);
    let empty = longer(empty_at(text, at, tokens), item);
    let input = longer(input_at(text, at, tokens), empty);
    let program = longer(program_at(grammar, text, at, tokens), input);
    let close = longer(close_at(alloc, text, at, tokens)?, program);
    let tag = longer(open_at(alloc, text, at, tokens)?, close);
    Ok(longer(symbol_at(text, at, tokens), tag))
}

/// The first token of base tokens.
pub(crate) fn first_token(
    alloc: Global,
    terminals: &Terminals<'_>,
    grammar: &Grammar,
    names: &Names,
    text: &[u8],
    tokens: &[Token],
) -> Result<Option<CellToken>, Memory>
    requires stand { AllStand text.now tokens.now }
    requires whole { AllWhole text.now tokens.now }
    requires numbered { AllNumbered text.now names.now tokens.now }
    ensures { IfOk result (λ found. found ≡ token_first (lexicon_with terminals.now grammar.now names.now) text.now tokens.now) }
{
    let Some((first, rest)) = tokens.split_first() else {
        return Ok(None);
    };
    let token = *first;
    let terminal = terminal_at(alloc, terminals, text, token, rest, tokens)?;
    let other = other_at(alloc, grammar, names, text, tokens, token)?;
    let Some(found) = longer(terminal, other) else {
        return Ok(Some(CellToken {
            kind: CellKind::Bad,
            size: 1,
        }));
    };
    Ok(Some(found))
}
