//! All that rows of a span make in it.
ghost use Rattle.std.specs.Prelude.{◌≡◌, [], IfOk};
ghost use Rattle.span_rows.specs.Rows.{Adds, Finishes, IsSeed, IsSeedOf, IsMade, IsNear};
ghost use Rattle.span_table.specs.Table.{IsSaturated, KeepsSound, KeepsSoundAlone, IsEmptySpan};

use grammar_terms::{Grammar, Production};
use k_terms::{Many, Memory};
use span_rows::{Held, Key, Row, add, add_all, finish_all, is_read, join, one_more};
use std::alloc::Global;

/// The rows that those of a span make in it, with those of the empty span.
fn near(alloc: Global, grammar: &Grammar, empty: &[Row], rows: &[Row]) -> Result<Vec<Row>, Memory>
    ensures { IfOk result (λ made. Adds (IsNear grammar.now empty.now rows.now) [] made.items) }
{
    let mut made = Vec::new(alloc);
    finish_all(alloc, grammar, rows, &mut made)?;
    join(alloc, grammar, empty, rows, &mut made)?;
    join(alloc, grammar, rows, empty, &mut made)?;
    Ok(made)
}

/// Adds what rows of a span make in it until nothing is new.
pub(crate) fn saturate(
    alloc: Global,
    grammar: &Grammar,
    empty: &[Row],
    rows: &mut Vec<Row>,
) -> Result<(), Memory>
    ensures covers { IfOk result (λ _. IsSaturated grammar.now empty.now rows.old.items rows.new.items) }
    ensures sound { IfOk result (λ _. KeepsSound grammar.now empty.now rows.old.items rows.new.items) }
{
    loop {
        let made = near(alloc, grammar, empty, rows.as_slice())?;
        if !add_all(rows, made)? {
            return Ok(());
        }
    }
}

/// The same of the empty span.
fn saturate_alone(alloc: Global, grammar: &Grammar, rows: &mut Vec<Row>) -> Result<(), Memory>
    ensures covers { IfOk result (λ _. IsSaturated grammar.now rows.new.items rows.old.items rows.new.items) }
    ensures sound { IfOk result (λ _. KeepsSoundAlone grammar.now rows.old.items rows.new.items) }
{
    loop {
        let made = near(alloc, grammar, rows.as_slice(), rows.as_slice())?;
        if !add_all(rows, made)? {
            return Ok(());
        }
    }
}

/// Adds the first row of a production, where it reads tokens.
fn add_seed(
    alloc: Global,
    prod: u32,
    production: &Production,
    rows: &mut Vec<Row>,
) -> Result<(), Memory>
    ensures { IfOk result (λ _. Adds (IsSeedOf prod production.now) rows.old.items rows.new.items) }
{
    if !is_read(production) {
        return Ok(());
    }
    let key = Key::Front(prod, 0, Held::Nothing);
    let code = Many::new(alloc);
    add(rows, Row { key, code })?;
    Ok(())
}

/// The first row of each production that reads tokens.
fn seeds(alloc: Global, grammar: &Grammar) -> Result<Vec<Row>, Memory>
    ensures { IfOk result (λ rows. Adds (IsSeed grammar.now) [] rows.items) }
{
    let mut rows = Vec::new(alloc);
    let mut prod: u32 = 0;
    for production in grammar.prods() {
        prod = one_more(prod)?;
        add_seed(alloc, prod, production, &mut rows)?;
    }
    Ok(rows)
}

/// The rows of the empty span.
pub(crate) fn empty_rows(alloc: Global, grammar: &Grammar) -> Result<Vec<Row>, Memory>
    ensures { IfOk result (λ rows. IsEmptySpan grammar.now rows.items) }
{
    let mut rows = seeds(alloc, grammar)?;
    saturate_alone(alloc, grammar, &mut rows)?;
    Ok(rows)
}
