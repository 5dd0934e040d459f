//! What readings tokens have.
ghost use Rattle.std.specs.Prelude.{◌≡◌, ◌↔◌, None, IfOk, IsTrue, IsFalse, option_copied};
ghost use Rattle.grammar_terms.specs.Cuts.{Has, Tells};
ghost use Rattle.grammar_terms.specs.Reading.{IsReading};
ghost use Rattle.span_rows.specs.declared.row.Row.{Row as RowOf};
ghost use Rattle.span_table.specs.Codes.{IsCode};
ghost use Rattle.span_rows.specs.Rows.{Stands};
ghost use Rattle.span_table.specs.Choices.{IsFirst, IsOther, TellsOf};

use crate::codes::shape_of;
use crate::passes::empty_rows;
use crate::table::{columns_of, rows_of};
use grammar_terms::{Grammar, Readings, Word};
use k_terms::Memory;
use span_rows::{Key, Row, Sign, same_code, stands};
use std::alloc::Global;

/// Whether what a row says may stand at a sort, with nothing around it.
fn stands_alone(grammar: &Grammar, sort: u32, key: &Key) -> bool
    ensures { IsTrue result ↔ Stands grammar.now None sort key.now }
{
    stands(grammar, None, sort, key)
}

/// The first row whose shape may stand at a sort.
fn first_standing<'a>(grammar: &Grammar, sort: u32, rows: &'a [Row]) -> Option<&'a Row>
    ensures { IsFirst grammar.now sort rows.now (option_copied result) }
{
    for row in rows {
        if stands_alone(grammar, sort, &row.key) {
            return Some(row);
        }
    }
    None
}

/// Whether the shape of a row may stand at a sort, and is another than that of a code.
fn is_other(grammar: &Grammar, sort: u32, row: &Row, code: &[Sign]) -> bool
    ensures other { IsTrue result → Stands grammar.now None sort row.now.key × (row.now.code ≡ code.now → ⊥) }
    ensures same { IsFalse result → Stands grammar.now None sort row.now.key → row.now.code ≡ code.now }
{
    if !stands_alone(grammar, sort, &row.key) {
        return false;
    }
    !same_code(row.code.as_slice(), code)
}

/// The first such row.
fn other_standing<'a>(
    grammar: &Grammar,
    sort: u32,
    rows: &'a [Row],
    code: &[Sign],
) -> Option<&'a Row>
    ensures { IsOther grammar.now sort rows.now code.now (option_copied result) }
{
    for row in rows {
        if is_other(grammar, sort, row, code) {
            return Some(row);
        }
    }
    None
}

/// What readings the rows of all tokens tell of.
fn readings_in(
    alloc: Global,
    grammar: &Grammar,
    sort: u32,
    rows: &[Row],
) -> Result<Readings, Memory>
    requires { (made : RowOf) → Has rows.now made → Stands grammar.now None sort made.key → IsCode made.code }
    ensures { IfOk result (TellsOf grammar.now sort rows.now) }
{
    let Some(one) = first_standing(grammar, sort, rows) else {
        return Ok(Readings::Zero);
    };
    let Some(other) = other_standing(grammar, sort, rows, one.code.as_slice()) else {
        return Ok(Readings::One(shape_of(alloc, one.code.as_slice())?));
    };
    let first = shape_of(alloc, one.code.as_slice())?;
    let second = shape_of(alloc, other.code.as_slice())?;
    Ok(Readings::Two(first, second))
}

/// What readings tokens have at a sort: none, one, or two different ones.
pub fn all_readings(
    alloc: Global,
    grammar: &Grammar,
    sort: u32,
    tokens: &[Word],
) -> Result<Readings, Memory>
    ensures { IfOk result (Tells (IsReading grammar.now sort tokens.now)) }
{
    let empty = empty_rows(alloc, grammar)?;
    let columns = columns_of(alloc, grammar, tokens, empty.as_slice())?;
    let rows = rows_of(empty.as_slice(), columns.as_slice(), 0, tokens.len());
    readings_in(alloc, grammar, sort, rows)
}
