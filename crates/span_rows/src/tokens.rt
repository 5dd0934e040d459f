//! What a token makes alone.
ghost use Rattle.std.specs.Prelude.{ℕ, IfOk, IsFalse};
ghost use Rattle.grammar_terms.specs.declared.word.WordKind.TheVariants.{EmptyList as EmptyKind};
ghost use Rattle.grammar_terms.specs.Reading.{IsWordAt};
ghost use Rattle.span_rows.specs.Rows.{Adds, IsOfSome};
ghost use Rattle.span_rows.specs.Tokens.{IsLeafToken, IsWildToken, IsEmptyListOf, IsNothingToken, IsOpening, IsPlaceToken, IsToken, IsTokenOver};

use crate::row::{Class, Held, Key, Row};
use crate::rows::add;
use crate::sign::{Sign, enclosed_code};
use crate::steps::{is_read, one_more};
use grammar_terms::{
    Grammar, Production, Word, is_empty, is_empty_at, is_leaf, is_terminal_at, is_wild_at,
    token_place_at,
};
use k_terms::{Many, Memory, sort};
use production_reader::Form;
use std::alloc::Global;

/// The token at a place is the empty list of some sort, or the empty sequence.
fn is_any_empty_at(tokens: &[Word], at: usize) -> bool
    ensures { IsFalse result → (sort : ℕ) → IsWordAt tokens.now at EmptyKind sort → ⊥ }
{
    let Some(word) = tokens.get(at) else {
        return false;
    };
    is_empty(&word.kind)
}

/// Adds the row of a token that is a reading of its own sort.
fn add_leaf(alloc: Global, tokens: &[Word], at: usize, rows: &mut Vec<Row>) -> Result<(), Memory>
    ensures { IfOk result (λ _. Adds (IsLeafToken tokens.now at) rows.old.items rows.new.items) }
{
    let Some(token) = tokens.get(at) else {
        return Ok(());
    };
    if !is_leaf(&token.kind) {
        return Ok(());
    }
    let key = Key::Token(token.sort);
    let code = Many::from_vec(Vec::from_slice(alloc, &[Sign::Leaf(at)])?);
    add(rows, Row { key, code })?;
    Ok(())
}

/// Adds the row of a variable without a sort.
fn add_wild(alloc: Global, tokens: &[Word], at: usize, rows: &mut Vec<Row>) -> Result<(), Memory>
    ensures { IfOk result (λ _. Adds (IsWildToken tokens.now at) rows.old.items rows.new.items) }
{
    if !is_wild_at(tokens, at) {
        return Ok(());
    }
    let key = Key::Wild;
    let code = Many::from_vec(Vec::from_slice(alloc, &[Sign::Leaf(at)])?);
    add(rows, Row { key, code })?;
    Ok(())
}

/// Adds the empty list of a production, where the token is that.
fn add_empty_list(
    alloc: Global,
    prod: u32,
    production: &Production,
    tokens: &[Word],
    at: usize,
    rows: &mut Vec<Row>,
) -> Result<(), Memory>
    ensures { IfOk result (λ _. Adds (IsEmptyListOf tokens.now at prod production.now) rows.old.items rows.new.items) }
{
    let Form::UserList { .. } = &production.form else {
        return Ok(());
    };
    if !is_read(production) {
        return Ok(());
    }
    if !is_empty_at(tokens, at, production.sort) {
        return Ok(());
    }
    let key = Key::Whole(prod, Class::Other);
    let code = enclosed_code(alloc, &[], Sign::Items(prod))?;
    add(rows, Row { key, code })?;
    Ok(())
}

/// Adds the empty lists of all productions of which the token is that.
fn add_empty_lists(
    alloc: Global,
    grammar: &Grammar,
    tokens: &[Word],
    at: usize,
    rows: &mut Vec<Row>,
) -> Result<(), Memory>
    ensures { IfOk result (λ _. Adds (IsOfSome grammar.now (IsEmptyListOf tokens.now at)) rows.old.items rows.new.items) }
{
    if !is_any_empty_at(tokens, at) {
        return Ok(());
    }
    let mut prod: u32 = 0;
    for production in grammar.prods() {
        prod = one_more(prod)?;
        add_empty_list(alloc, prod, production, tokens, at, rows)?;
    }
    Ok(())
}

/// Adds the row of the empty sequence.
fn add_nothing(alloc: Global, tokens: &[Word], at: usize, rows: &mut Vec<Row>) -> Result<(), Memory>
    ensures { IfOk result (λ _. Adds (IsNothingToken tokens.now at) rows.old.items rows.new.items) }
{
    if !is_empty_at(tokens, at, sort::K) {
        return Ok(());
    }
    let key = Key::Sequence;
    let code = enclosed_code(alloc, &[], Sign::Items(0))?;
    add(rows, Row { key, code })?;
    Ok(())
}

/// Adds the beginning of a sequence, where the grammar is one for rules.
fn add_opening(
    alloc: Global,
    grammar: &Grammar,
    tokens: &[Word],
    at: usize,
    rows: &mut Vec<Row>,
) -> Result<(), Memory>
    ensures { IfOk result (λ _. Adds (IsOpening grammar.now tokens.now at) rows.old.items rows.new.items) }
{
    if !grammar.is_for_rules() {
        return Ok(());
    }
    if !is_terminal_at(tokens, at, b"(") {
        return Ok(());
    }
    let key = Key::Front(0, 0, Held::Nothing);
    let code = Many::new(alloc);
    add(rows, Row { key, code })?;
    Ok(())
}

/// Adds the row of a token for which a place of a production may ask.
fn add_place(alloc: Global, tokens: &[Word], at: usize, rows: &mut Vec<Row>) -> Result<(), Memory>
    ensures { IfOk result (λ _. Adds (IsPlaceToken tokens.now at) rows.old.items rows.new.items) }
{
    let Some(number) = token_place_at(tokens, at) else {
        return Ok(());
    };
    let key = Key::Place(number);
    let code = Many::from_vec(Vec::from_slice(alloc, &[Sign::Leaf(at)])?);
    add(rows, Row { key, code })?;
    Ok(())
}

/// Adds what the token at a place makes alone.
fn add_alone(
    alloc: Global,
    grammar: &Grammar,
    tokens: &[Word],
    at: usize,
    rows: &mut Vec<Row>,
) -> Result<(), Memory>
    ensures { IfOk result (λ _. Adds (IsToken grammar.now tokens.now at) rows.old.items rows.new.items) }
{
    add_leaf(alloc, tokens, at, rows)?;
    add_wild(alloc, tokens, at, rows)?;
    add_empty_lists(alloc, grammar, tokens, at, rows)?;
    add_nothing(alloc, tokens, at, rows)?;
    add_opening(alloc, grammar, tokens, at, rows)?;
    add_place(alloc, tokens, at, rows)?;
    Ok(())
}

/// Adds what the last token of a span makes, where that is the only one.
pub fn add_token(
    alloc: Global,
    grammar: &Grammar,
    tokens: &[Word],
    from: usize,
    last: usize,
    rows: &mut Vec<Row>,
) -> Result<(), Memory>
    ensures { IfOk result (λ _. Adds (IsTokenOver grammar.now tokens.now from last) rows.old.items rows.new.items) }
{
    if from != last {
        return Ok(());
    }
    add_alone(alloc, grammar, tokens, last, rows)?;
    Ok(())
}
