//! Productions on cycles.
ghost use Rattle.std.specs.Prelude.{◌≡◌, ◌≤◌, length, IfOk, MatchResult, MatchOption};
ghost use Rattle.std.specs.List.{list_any};
ghost use Rattle.sorted_grammar.specs.Sorting.{HasNoCyclicProduction};
ghost use Rattle.sorted_grammar.specs.Marks.{returns as returns_by, AreInside, is_cyclic as cyclic_by, NonePasses, IsFirstAt, IsProductionFault};

use crate::fault::SortFault;
use crate::leading::{leading, targets};
use crate::nullable::{has_mark, nullable_row};
use crate::reaching::reached_rows;
use grammar_terms::{Grammar, Production, step_from};
use k_terms::{Many, Memory};
use std::alloc::Global;

/// Whether a sort is another one or leads on to it.
fn returns(rows: &[Many<bool>], from: usize, to: u32) -> bool
    ensures { result ≡ returns_by rows.now from to }
{
    if from == to as usize {
        return true;
    }
    match rows.get(from) {
        Some(row) => has_mark(row.as_slice(), to),
        None => false,
    }
}

/// Whether one of some sorts is another one or leads on to it.
fn any_returns(rows: &[Many<bool>], targets: &[usize], to: u32) -> bool
    ensures { result ≡ list_any (λ from. returns_by rows.now from to) targets.now }
{
    for target in targets {
        if returns(rows, *target, to) {
            return true;
        }
    }
    false
}

/// Whether a production is no subsort step and lies on a cycle.
fn is_cyclic(
    alloc: Global,
    row: &[bool],
    rows: &[Many<bool>],
    production: &Production,
) -> Result<bool, Memory>
    ensures { IfOk result (λ cyclic. cyclic ≡ cyclic_by row.now rows.now production.now) }
{
    let None = step_from(production) else {
        return Ok(false);
    };
    let targets = targets(alloc, row, production)?;
    Ok(any_returns(rows, &targets, production.sort))
}

/// The place of the first production that lies on a cycle.
fn first_cyclic(
    alloc: Global,
    row: &[bool],
    rows: &[Many<bool>],
    prods: &[Production],
) -> Result<Option<usize>, Memory>
    ensures { IfOk result (λ found. MatchOption found (NonePasses (cyclic_by row.now rows.now) prods.now (length prods.now)) (IsFirstAt (cyclic_by row.now rows.now) prods.now)) }
{
    for (place, production) in prods.iter().enumerate() {
        if is_cyclic(alloc, row, rows, production)? {
            return Ok(Some(place));
        }
    }
    Ok(None)
}

/// Tells the first production that lies on a cycle, if there is one.
pub fn refuse_cyclic_production(
    alloc: Global,
    grammar: &Grammar,
    count: u32,
) -> Result<(), SortFault>
    requires inside { AreInside grammar.now }
    requires count { count ≡ length grammar.now.names }
    requires few { length grammar.now.prods ≤ 1024 }
    ensures { MatchResult result (λ _. HasNoCyclicProduction grammar.now) (IsProductionFault grammar.now) }
{
    let row = nullable_row(alloc, grammar, count as usize)?;
    let graph = leading(alloc, grammar, &row, count)?;
    let rows = reached_rows(alloc, &graph)?;
    let Some(place) = first_cyclic(alloc, &row, &rows, grammar.prods())? else {
        return Ok(());
    };
    Err(SortFault::CyclicProduction {
        prod: place as u32 + 1,
    })
}
