//! The table of the readings of a content, from right to left.
ghost use Rattle.std.specs.Prelude.{◌+◌, ◌<◌, ◌++◌, length, IfOk};
ghost use Rattle.cell_contents.specs.Tables.{Finds, IsTable, IsEntry};
ghost use Rattle.cell_contents.specs.Tails.{IsTail, Begins, Follows, Starts};

use crate::found::{Found, also, first_before};
use crate::marks::begins;
use crate::table::{Entry, Table, found_behind};
use crate::ways::Way;
use grammar_terms::{Grammar, Word};
use k_terms::{Many, Memory, Values};
use std::alloc::Global;

/// What is found of an item that is these words, with what follows behind them.
fn found_by(
    alloc: Global,
    grammar: &Grammar,
    table: &Table,
    way: Way,
    words: &[Word],
    behind: &[Word],
) -> Result<Found, Memory>
    requires some { 0 < length words.now }
    requires table { IsTable grammar.now behind.now (length behind.now + 1) table.now }
    ensures { IfOk result (Finds grammar.now (Starts grammar.now (Follows grammar.now way behind.now) words.now)) }
{
    let rest = found_behind(table, way, behind);
    let found = first_before(alloc, grammar, words, rest)?;
    Ok(found)
}

/// What is found of items of which the first begins with the words.
pub(crate) fn found_from(
    alloc: Global,
    grammar: &Grammar,
    table: &Table,
    way: Way,
    words: &[Word],
) -> Result<Found, Memory>
    requires { IsTable grammar.now words.now (length words.now) table.now }
    ensures { IfOk result (Finds grammar.now (IsTail grammar.now way words.now)) }
{
    let mut found = Found::Zero;
    for size in 0..words.len() {
        let (first, behind) = words.split_at(size + 1);
        let more = found_by(alloc, grammar, table, way, first, behind)?;
        found = also(found, more);
    }
    Ok(found)
}

/// The same, where such an item can begin behind the words before.
fn found_after(
    alloc: Global,
    grammar: &Grammar,
    table: &Table,
    way: Way,
    before: &[Word],
    words: &[Word],
) -> Result<Found, Memory>
    requires { IsTable grammar.now words.now (length words.now) table.now }
    ensures { IfOk result (λ found. Begins way before.now → Finds grammar.now (IsTail grammar.now way words.now) found) }
{
    if !begins(way, before) {
        return Ok(Found::Zero);
    }
    let found = found_from(alloc, grammar, table, way, words)?;
    Ok(found)
}

/// What is found from a place on.
fn entry_at(
    alloc: Global,
    grammar: &Grammar,
    table: &Table,
    before: &[Word],
    words: &[Word],
) -> Result<Entry, Memory>
    requires { IsTable grammar.now words.now (length words.now) table.now }
    ensures { IfOk result (IsEntry grammar.now before.now words.now) }
{
    let item = found_after(alloc, grammar, table, Way::Item, before, words)?;
    let key = found_after(alloc, grammar, table, Way::Key, before, words)?;
    let value = found_after(alloc, grammar, table, Way::Value, before, words)?;
    let member = found_after(alloc, grammar, table, Way::Member, before, words)?;
    Ok(Entry {
        item,
        key,
        value,
        member,
    })
}

/// What is found from each place on but the first.
pub(crate) fn table_of(alloc: Global, grammar: &Grammar, words: &[Word]) -> Result<Table, Memory>
    ensures { IfOk result (IsTable grammar.now words.now (length words.now)) }
{
    let entries = Many::new(alloc);
    let nothing = Values::new(alloc);
    let mut table = Table {
        entries,
        end: Found::One(nothing),
        none: Found::Zero,
    };
    for left in 0..words.len() {
        let (before, rest) = words.split_at(words.len() - left);
        let entry = entry_at(alloc, grammar, &table, before, rest)?;
        table.entries.push(entry)?;
    }
    Ok(table)
}
