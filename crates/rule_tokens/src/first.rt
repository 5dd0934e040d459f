//! The first token of base tokens.
ghost use Rattle.std.specs.Prelude.{◌≡◌, ◌+◌, ◌-◌, ◌<◌, ◌≤◌, ◌^◌, ◌∷◌, ℕ, length, map, zero, suc, Option, List, IfOk, Some, None, if◌then◌else◌};
ghost use Rattle.k_lexer.specs.Before.{Stands, AllStand};
ghost use Rattle.production_reader.specs.Allowed.{is_among};
ghost use Rattle.production_reader.specs.Lexemes.{span};
ghost use Rattle.program_tokens.specs.Base.{AllNumbered};
ghost use Rattle.rule_tokens.specs.Signs.{ends as ends_of};
ghost use Rattle.rule_tokens.specs.Forms.{last_place, terminal_size as size_of_terminal, terminal_at as at_terminal, other_at as at_other};
ghost use Rattle.rule_tokens.specs.RuleTokens.{IsWhole, AllWhole, first_token as token_first};
ghost use Rattle.rule_tokens.specs.Splits.{lexicon_with};

use crate::forms::{
    close_at, empty_at, list_item_at, longer, open_at, sorted_at, symbol_at, variable_at,
};
use crate::signs::{bytes_of, end_at, span_of};
use crate::terminals::Terminals;
use crate::token::{Found, RuleKind, RuleToken};
use crate::words::literal_as;
use grammar_terms::Grammar;
use k_lexer::Token;
use k_terms::{Memory, Names, Text};
use rule_terms::CellShape;
use std::alloc::Global;

/// The size of the longest terminal at a place, where the last base tokens that made one were `size`, and the next
/// makes
/// one or not.
fn size_with(makes: bool, size: usize, place: usize) -> usize
    requires { place + 1 < 2 ^ 64 }
    ensures size { result ≡ (if makes then place + 1 else size) }
    ensures fewer { size ≤ place → result ≤ place + 1 }
{
    if makes { place + 1 } else { size }
}

/// How many base tokens further to a first one make the longest terminal with it; 0 where none does.
fn further_size(terminals: &Terminals<'_>, text: &[u8], first: Token, rest: &[Token]) -> usize
    requires stand { Stands text.now first }
    requires rest { AllStand text.now rest.now }
    requires whole { IsWhole text.now first }
    ensures size { result ≡ last_place (λ end. is_among terminals.now (span text.now first.start end)) (ends_of first.end rest.now) }
    ensures within { result ≤ length rest.now }
{
    let most = terminals.greatest();
    let mut size = 0;
    let mut end = first.end;
    for (place, token) in rest.iter().enumerate() {
        if token.start != end {
            return size;
        }
        if token.end - first.start > most {
            return size;
        }
        end = token.end;
        size = size_with(terminals.has(&text[first.start..end]), size, place);
    }
    size
}

/// Of how many base tokens the longest terminal is made that begins with a first one; 0 where there is none.
fn terminal_size(terminals: &Terminals<'_>, text: &[u8], first: Token, rest: &[Token]) -> usize
    requires stand { Stands text.now first }
    requires rest { AllStand text.now rest.now }
    requires whole { IsWhole text.now first }
    ensures { result ≡ size_of_terminal terminals.now text.now first.start (first ∷ rest.now) }
{
    let further = further_size(terminals, text, first, rest);
    if further > 0 {
        return further + 1;
    }
    if terminals.has(bytes_of(text, first)) {
        return 1;
    }
    0
}

/// The longest terminal that stands here.
fn terminal_at(
    alloc: Global,
    terminals: &Terminals<'_>,
    text: &[u8],
    first: Token,
    rest: &[Token],
    tokens: &[Token],
) -> Result<Option<Found>, Memory>
    requires stand { AllStand text.now tokens.now }
    requires whole { AllWhole text.now tokens.now }
    requires parts { tokens.now ≡ first ∷ rest.now }
    ensures { IfOk result (λ found. found ≡ at_terminal terminals.now text.now first.start tokens.now) }
{
    let size = terminal_size(terminals, text, first, rest);
    if size == 0 {
        return Ok(None);
    }
    let end = end_at(tokens, size - 1);
    let bytes = span_of(text, first.start, end);
    Ok(Some(Found {
        kind: RuleKind::Terminal(Text::from_vec(Vec::from_slice(alloc, bytes)?)),
        size,
    }))
}

/// The longest token beside terminals that stands here.
fn other_at(
    alloc: Global,
    terminals: &Terminals<'_>,
    grammar: &Grammar,
    cells: &[CellShape],
    names: &Names,
    text: &[u8],
    tokens: &[Token],
    first: Token,
) -> Result<Option<Found>, Memory>
    requires few { length cells.now ≤ 2 ^ 32 }
    requires stand { AllStand text.now tokens.now }
    requires numbered { AllNumbered text.now names.now tokens.now }
    requires begins { (rest : List Token) × (tokens.now ≡ first ∷ rest) }
    ensures { IfOk result (λ found. found ≡ at_other (lexicon_with terminals.now grammar.now cells.now names.now) text.now first.start tokens.now) }
{
    let at = first.start;
    let literal = literal_as(alloc, names, text, first)?;
    let variable = longer(variable_at(terminals, names, text, at, tokens), literal);
    let item = longer(list_item_at(text, at, tokens), variable);
    let sorted = longer(sorted_at(terminals, grammar, names, text, at, tokens), item);
    let empty = longer(empty_at(grammar, text, at, tokens), sorted);
    let close = longer(close_at(cells, text, at, tokens), empty);
    let tag = longer(open_at(cells, text, at, tokens), close);
    Ok(longer(symbol_at(text, at, tokens), tag))
}

/// The first token of base tokens and the number of its base tokens.
pub(crate) fn first_token(
    alloc: Global,
    terminals: &Terminals<'_>,
    grammar: &Grammar,
    cells: &[CellShape],
    names: &Names,
    text: &[u8],
    tokens: &[Token],
) -> Result<Option<(RuleToken, usize)>, Memory>
    requires few { length cells.now ≤ 2 ^ 32 }
    requires stand { AllStand text.now tokens.now }
    requires whole { AllWhole text.now tokens.now }
    requires numbered { AllNumbered text.now names.now tokens.now }
    ensures { IfOk result (λ found. found ≡ token_first (lexicon_with terminals.now grammar.now cells.now names.now) text.now tokens.now) }
{
    let Some((first, rest)) = tokens.split_first() else {
        return Ok(None);
    };
    let token = *first;
    let terminal = terminal_at(alloc, terminals, text, token, rest, tokens)?;
    let other = other_at(alloc, terminals, grammar, cells, names, text, tokens, token)?;
    let Some(found) = longer(terminal, other) else {
        return Ok(None);
    };
    let end = end_at(tokens, found.size.saturating_sub(1));
    let read = RuleToken {
        kind: found.kind,
        start: token.start,
        end,
    };
    Ok(Some((read, found.size)))
}
