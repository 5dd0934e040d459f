//! The first operator on a left side.
ghost use Rattle.std.specs.Prelude.{◌≡◌, ◌↔◌, ◌+◌, ◌<◌, IfOk, IsTrue, length};
ghost use Rattle.rule_contents.specs.Operators.{Begins, BeginsOnLeft, IsFirstPlace, IsPlaceAt, IsOperatorPlace};

use crate::marks::{marked_grammar, marked_words};
use crate::numbers::sort_behind;
use crate::reading::Form;
use crate::sides::{has_operator, is_on_right};
use grammar_terms::{Grammar, Readings, Shape, Word};
use k_terms::Memory;
use rule_terms::Kind;
use span_table::all_readings;
use std::alloc::Global;

/// The term of an operator begins at a place: with a mark there, the words have a reading.
fn begins(
    alloc: Global,
    marks: &Grammar,
    sort: u32,
    words: &[Word],
    at: usize,
) -> Result<bool, Memory>
    requires { at < length words.now }
    ensures { IfOk result (λ truth. IsTrue truth ↔ Begins marks.now sort words.now at) }
{
    let marked = marked_words(alloc, words, at)?;
    match all_readings(alloc, marks, sort, &marked)? {
        Readings::Zero => Ok(false),
        Readings::One(_) => Ok(true),
        Readings::Two(_, _) => Ok(true),
    }
}

/// The same at a place that is on no right side.
fn begins_on_left(
    alloc: Global,
    rules: &Grammar,
    marks: &Grammar,
    sort: u32,
    words: &[Word],
    shape: &Shape,
    at: usize,
) -> Result<bool, Memory>
    requires { at < length words.now }
    ensures { IfOk result (λ truth. IsTrue truth ↔ BeginsOnLeft rules.now marks.now sort words.now shape.now at) }
{
    if is_on_right(rules, shape, at) {
        return Ok(false);
    }
    let truth = begins(alloc, marks, sort, words, at)?;
    Ok(truth)
}

/// The first place where the term of an operator begins on a left side; 0 where there is none.
fn first_place(
    alloc: Global,
    rules: &Grammar,
    marks: &Grammar,
    sort: u32,
    words: &[Word],
    shape: &Shape,
) -> Result<usize, Memory>
    ensures { IfOk result (IsFirstPlace rules.now marks.now sort words.now shape.now) }
{
    for at in 0..words.len() {
        if begins_on_left(alloc, rules, marks, sort, words, shape, at)? {
            return Ok(at);
        }
    }
    Ok(0)
}

/// The place of the first operator on a left side of words that were read at a sort, so many behind those with names.
fn place_at(
    alloc: Global,
    rules: &Grammar,
    kind: Kind,
    more: u32,
    words: &[Word],
    shape: &Shape,
) -> Result<Option<usize>, Memory>
    ensures { IfOk result (IsPlaceAt rules.now kind (length rules.now.names + more) words.now shape.now) }
{
    if !has_operator(rules, shape) {
        return Ok(None);
    }
    let sort = sort_behind(rules, more)?;
    let marks = marked_grammar(alloc, rules, kind)?;
    let at = first_place(alloc, rules, &marks, sort, words, shape)?;
    Ok(Some(at))
}

/// The place of the token at which the first operator's term on a left side of a content begins, where there is one: brackets
/// around the term are not counted. The shape is that of the content, as the form that it was read as.
pub fn operator_place(
    alloc: Global,
    rules: &Grammar,
    kind: Kind,
    form: Form,
    words: &[Word],
    shape: &Shape,
) -> Result<Option<usize>, Memory>
    ensures { IfOk result (IsOperatorPlace rules.now kind form words.now shape.now) }
{
    match form {
        Form::Sides => place_at(alloc, rules, kind, 2, words, shape),
        Form::Made => place_at(alloc, rules, kind, 3, words, shape),
        Form::Expression => Ok(None),
    }
}
