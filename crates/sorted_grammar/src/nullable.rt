//! The nullable sorts.
ghost use Rattle.std.specs.Prelude.{◌≡◌, ◌↔◌, ◌≤◌, length, false, ◌<◌, IfOk, IfSome, IsTrue, MatchOption};
ghost use Rattle.grammar_terms.specs.Cuts.{Has};
ghost use Rattle.grammar_terms.specs.Grammar.{is_list as list_form};
ghost use Rattle.grammar_terms.specs.declared.production.Production.{Production as ProductionOf};
ghost use Rattle.sorted_grammar.specs.Leading.{Nullable};
ghost use Rattle.sorted_grammar.specs.Marks.{marked, blocks as blocks_by, blocking as blocking_by, fires as fires_by, HasDeclared, IsFired, IsSound, IsClosed, AreInside, IsNullableRow};

use grammar_terms::{Grammar, Part, Production};
use k_terms::{Memory, sort};
use production_reader::Form;
use std::alloc::Global;

/// Whether a sort is marked.
pub fn has_mark(row: &[bool], sort: u32) -> bool
    ensures { result ≡ marked row.now sort }
{
    match row.get(sort as usize) {
        Some(mark) => *mark,
        None => false,
    }
}

/// 1 for an item that is no marked sort, else 0.
pub fn blocks(item: &Part, row: &[bool]) -> usize
    ensures is { result ≡ blocks_by row.now item.now }
    ensures small { result ≤ 1 }
{
    match item {
        Part::Terminal(_) => 1,
        Part::Sort(sort) => { if has_mark(row, *sort) { 0 } else { 1 } }
    }
}

/// How many of items are no marked sorts.
pub fn blocking(items: &[Part], row: &[bool]) -> usize
    ensures { result ≡ blocking_by row.now items.now }
{
    let mut count = 0;
    for item in items {
        count += blocks(item, row);
    }
    count
}

pub fn is_list(form: &Form) -> bool
    ensures { result ≡ list_form form.now }
{
    match form {
        Form::UserList { .. } => true,
        Form::Plain | Form::Prefix(_) => false,
    }
}

/// Whether a production makes its sort nullable, which is not marked yet.
fn fires(production: &Production, row: &[bool]) -> bool
    ensures { result ≡ fires_by row.now production.now }
{
    !has_mark(row, production.sort)
        && (is_list(&production.form) || blocking(production.items.as_slice(), row) == 0)
}

/// A sort that is not marked and that a production makes nullable.
fn next_by_production(prods: &[Production], row: &[bool]) -> Option<u32>
    ensures { MatchOption result ((production : ProductionOf) → Has prods.now production → fires_by row.now production ≡ false) (IsFired prods.now row.now) }
{
    for production in prods {
        if fires(production, row) {
            return Some(production.sort);
        }
    }
    None
}

/// Whether a declared sort is marked.
fn has_declared(row: &[bool]) -> bool
    ensures { IsTrue result ↔ HasDeclared row.now }
{
    for place in 10..row.len() {
        if row[place] {
            return true;
        }
    }
    false
}

/// A sort that is nullable, where those that are marked are, and is not marked.
fn next_sort(grammar: &Grammar, row: &[bool]) -> Option<u32>
    requires { AreInside grammar.now }
    ensures new { MatchOption result (IsClosed grammar.now row.now) (λ sort. marked row.now sort ≡ false) }
    ensures sound { IfSome result (λ sort. IsSound grammar.now row.now → Nullable grammar.now sort) }
    ensures within { IfSome result (λ sort. sort < length grammar.now.names) }
{
    if let Some(sort) = next_by_production(grammar.prods(), row) {
        return Some(sort);
    }
    if !has_declared(row) {
        return None;
    }
    if !has_mark(row, sort::KITEM) {
        return Some(sort::KITEM);
    }
    if !has_mark(row, sort::K) {
        return Some(sort::K);
    }
    None
}

/// The row that marks the nullable sorts of `count`.
pub fn nullable_row(alloc: Global, grammar: &Grammar, count: usize) -> Result<Vec<bool>, Memory>
    requires inside { AreInside grammar.now }
    requires count { count ≡ length grammar.now.names }
    ensures { IfOk result (λ row. IsNullableRow grammar.now row.items) }
{
    let mut row = vec![in alloc; false; count]?;
    while let Some(sort) = next_sort(grammar, &row) {
        row[sort as usize] = true;
    }
    Ok(row)
}
