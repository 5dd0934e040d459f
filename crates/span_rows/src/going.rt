//! What a row makes with the token behind it.
ghost use Rattle.std.specs.Prelude.{IfOk};
ghost use Rattle.span_rows.specs.Rows.{Adds, Passes, Rests, Arrows, Closes, Binds, GoesInSequence, GoesOn, IsMade};

use crate::row::{Class, Held, Key, Row};
use crate::rows::add;
use crate::sign::{Sign, enclosed_code, joined_code};
use crate::steps::{count_after, held_with, is_nothing, text_wanted};
use grammar_terms::{Grammar, Word, is_terminal_at, is_variable_at};
use k_terms::{Memory, sort};
use production_reader::Form;
use std::alloc::Global;

/// Adds the front that another makes with the token at a place, where its next item is that terminal.
fn pass(
    alloc: Global,
    grammar: &Grammar,
    tokens: &[Word],
    at: usize,
    front: &Row,
    rows: &mut Vec<Row>,
) -> Result<(), Memory>
    ensures { IfOk result (λ _. Adds (Passes grammar.now tokens.now at front.now) rows.old.items rows.new.items) }
{
    let Key::Front(prod, count, held) = front.key else {
        return Ok(());
    };
    let Some(production) = grammar.production(prod) else {
        return Ok(());
    };
    let Some(text) = text_wanted(production, count) else {
        return Ok(());
    };
    if !is_terminal_at(tokens, at, text.as_slice()) {
        return Ok(());
    }
    let key = Key::Front(prod, count_after(production, count)?, held);
    let code = joined_code(alloc, front.code.as_slice(), &[])?;
    add(rows, Row { key, code })?;
    Ok(())
}

/// Adds the list that a front is with the token at a place as its rest, where that is a variable of the list's sort.
fn add_rest(
    alloc: Global,
    grammar: &Grammar,
    tokens: &[Word],
    at: usize,
    front: &Row,
    rows: &mut Vec<Row>,
) -> Result<(), Memory>
    ensures { IfOk result (λ _. Adds (Rests grammar.now tokens.now at front.now) rows.old.items rows.new.items) }
{
    let Key::Front(prod, 0, held) = front.key else {
        return Ok(());
    };
    if is_nothing(held) {
        return Ok(());
    }
    let Some(production) = grammar.production(prod) else {
        return Ok(());
    };
    let Form::UserList { .. } = &production.form else {
        return Ok(());
    };
    if !is_variable_at(tokens, at, production.sort) {
        return Ok(());
    }
    let code = enclosed_code(alloc, front.code.as_slice(), Sign::ItemsAnd(prod, at))?;
    let key = Key::Whole(prod, Class::Other);
    add(rows, Row { key, code })?;
    Ok(())
}

/// Adds the sequence before a part that one behind a part makes with an arrow.
fn add_arrow(
    alloc: Global,
    tokens: &[Word],
    at: usize,
    front: &Row,
    rows: &mut Vec<Row>,
) -> Result<(), Memory>
    ensures { IfOk result (λ _. Adds (Arrows tokens.now at front.now) rows.old.items rows.new.items) }
{
    let Key::Front(0, 1, held) = front.key else {
        return Ok(());
    };
    if !is_terminal_at(tokens, at, b"~>") {
        return Ok(());
    }
    let key = Key::Front(0, 0, held);
    let code = joined_code(alloc, front.code.as_slice(), &[])?;
    add(rows, Row { key, code })?;
    Ok(())
}

/// Adds the sequence that two parts or more make with the closing parenthesis.
fn add_closed(
    alloc: Global,
    tokens: &[Word],
    at: usize,
    front: &Row,
    rows: &mut Vec<Row>,
) -> Result<(), Memory>
    ensures { IfOk result (λ _. Adds (Closes tokens.now at front.now) rows.old.items rows.new.items) }
{
    let Key::Front(0, 1, Held::More) = front.key else {
        return Ok(());
    };
    if !is_terminal_at(tokens, at, b")") {
        return Ok(());
    }
    let code = enclosed_code(alloc, front.code.as_slice(), Sign::Items(0))?;
    let key = Key::Sequence;
    add(rows, Row { key, code })?;
    Ok(())
}

/// Adds the sequence behind a part that one before a part makes with a variable of sort K.
fn add_bound(
    alloc: Global,
    tokens: &[Word],
    at: usize,
    front: &Row,
    rows: &mut Vec<Row>,
) -> Result<(), Memory>
    ensures { IfOk result (λ _. Adds (Binds tokens.now at front.now) rows.old.items rows.new.items) }
{
    let Key::Front(0, 0, held) = front.key else {
        return Ok(());
    };
    if !is_variable_at(tokens, at, sort::K) {
        return Ok(());
    }
    let key = Key::Front(0, 1, held_with(held, Class::Other));
    let code = joined_code(alloc, front.code.as_slice(), &[Sign::Leaf(at)])?;
    add(rows, Row { key, code })?;
    Ok(())
}

/// Adds what a sequence makes with the token at a place.
fn go_in_sequence(
    alloc: Global,
    tokens: &[Word],
    at: usize,
    front: &Row,
    rows: &mut Vec<Row>,
) -> Result<(), Memory>
    ensures { IfOk result (λ _. Adds (GoesInSequence tokens.now at front.now) rows.old.items rows.new.items) }
{
    add_arrow(alloc, tokens, at, front, rows)?;
    add_closed(alloc, tokens, at, front, rows)?;
    add_bound(alloc, tokens, at, front, rows)?;
    Ok(())
}

/// Adds what a row makes with the token at a place.
fn go_on(
    alloc: Global,
    grammar: &Grammar,
    tokens: &[Word],
    at: usize,
    front: &Row,
    rows: &mut Vec<Row>,
) -> Result<(), Memory>
    ensures { IfOk result (λ _. Adds (GoesOn grammar.now tokens.now at front.now) rows.old.items rows.new.items) }
{
    pass(alloc, grammar, tokens, at, front, rows)?;
    add_rest(alloc, grammar, tokens, at, front, rows)?;
    go_in_sequence(alloc, tokens, at, front, rows)?;
    Ok(())
}

/// Adds what each of some rows makes with the token at a place.
pub fn go_on_all(
    alloc: Global,
    grammar: &Grammar,
    tokens: &[Word],
    at: usize,
    fronts: &[Row],
    rows: &mut Vec<Row>,
) -> Result<(), Memory>
    ensures { IfOk result (λ _. Adds (IsMade (GoesOn grammar.now tokens.now at) fronts.now) rows.old.items rows.new.items) }
{
    for front in fronts {
        go_on(alloc, grammar, tokens, at, front, rows)?;
    }
    Ok(())
}
