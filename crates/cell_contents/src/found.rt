//! The readings of what is left of a content, cut to two.
ghost use Rattle.std.specs.Prelude.{◌≡◌, ◌∷◌, IfOk};
ghost use Rattle.cell_contents.specs.Tables.{union, IsFirstThen, IsFirstOfMany, IsFirstBefore};

use grammar_terms::{Grammar, Readings, Word};
use k_terms::{Memory, Value, Values, copy, sort};
use program_reader::value;
use span_table::all_readings;
use std::alloc::Global;

/// No reading, one by the values of its items, or two at least.
#[derive(Debug, Drop)]
pub(crate) enum Found {
    Zero,
    One(Values),
    Many,
}

/// What is found in two sets of readings.
pub(crate) fn also(found: Found, more: Found) -> Found
    ensures { result ≡ union found more }
{
    match found {
        Found::Zero => more,
        Found::One(values) => match more {
            Found::Zero => Found::One(values),
            Found::One(_) => Found::Many,
            Found::Many => Found::Many,
        },
        Found::Many => Found::Many,
    }
}

/// A value with copies of others behind it.
fn joined(alloc: Global, first: Value, rest: &[Value]) -> Result<Values, Memory>
    ensures { IfOk result (λ values. values ≡ first ∷ rest.now) }
{
    let mut values = Values::new(alloc);
    values.push(first)?;
    for value in rest {
        values.push(copy(alloc, value)?)?;
    }
    Ok(values)
}

/// The readings of an item, before items that have one reading.
fn first_then(
    alloc: Global,
    grammar: &Grammar,
    words: &[Word],
    rest: &[Value],
) -> Result<Found, Memory>
    ensures { IfOk result (IsFirstThen grammar.now words.now rest.now) }
{
    match all_readings(alloc, grammar, sort::KITEM, words)? {
        Readings::Zero => Ok(Found::Zero),
        Readings::One(shape) => {
            let first = value(alloc, grammar, words, sort::KITEM, &shape)?;
            let values = joined(alloc, first, rest)?;
            Ok(Found::One(values))
        }
        Readings::Two(_, _) => Ok(Found::Many),
    }
}

/// The readings of an item, before items that have two.
fn first_of_many(alloc: Global, grammar: &Grammar, words: &[Word]) -> Result<Found, Memory>
    ensures { IfOk result (IsFirstOfMany grammar.now words.now) }
{
    match all_readings(alloc, grammar, sort::KITEM, words)? {
        Readings::Zero => Ok(Found::Zero),
        Readings::One(_) => Ok(Found::Many),
        Readings::Two(_, _) => Ok(Found::Many),
    }
}

/// The readings of an item, before what is found behind it.
pub(crate) fn first_before(
    alloc: Global,
    grammar: &Grammar,
    words: &[Word],
    rest: &Found,
) -> Result<Found, Memory>
    ensures { IfOk result (IsFirstBefore grammar.now words.now rest.now) }
{
    match rest {
        Found::Zero => Ok(Found::Zero),
        Found::One(values) => {
            let found = first_then(alloc, grammar, words, values.as_slice())?;
            Ok(found)
        }
        Found::Many => {
            let found = first_of_many(alloc, grammar, words)?;
            Ok(found)
        }
    }
}
