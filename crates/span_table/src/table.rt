//! The table of spans.
ghost use Rattle.std.specs.Prelude.{◌≡◌, ℕ, ◌+◌, ◌-◌, ◌^◌, ◌<◌, ◌≤◌, [], IfOk, get_or, length};
ghost use Rattle.span_rows.specs.Rows.{Adds};
ghost use Rattle.span_table.specs.Meaning.{AreSound};
ghost use Rattle.span_table.specs.Table.{rows_of as rows_by, IsMiddle, IsFull, IsSoundUpTo, IsSoundColumn, IsFullColumn, AreFullColumns, IsEmptySpan, IsFullTable};

use crate::passes::saturate;
use grammar_terms::{Grammar, Word};
use k_terms::{Many, Memory};
use span_rows::{Row, add_token, go_on_all, join};
use std::alloc::Global;

/// The rows of a span.
type Span = Many<Row>;

/// The spans that end with one token, the shortest first.
type Column = Many<Span>;

/// The spans that were filled: the empty one, those that end before a token, and the shorter ones that end with it.
#[derive(Debug, Clone, Copy)]
struct Spans<'a> {
    empty: &'a [Row],
    columns: &'a [Column],
    column: &'a [Span],
}

/// The rows of a span of a column, and none where it has no such span.
fn rows_in(column: &[Span], width: usize) -> &[Row]
    ensures { result.now ≡ get_or column.now width [] }
{
    match column.get(width) {
        Some(rows) => rows.as_slice(),
        None => &[],
    }
}

fn column_in(columns: &[Column], last: usize) -> &[Span]
    ensures { result.now ≡ get_or columns.now last [] }
{
    match columns.get(last) {
        Some(column) => column.as_slice(),
        None => &[],
    }
}

/// The rows of the tokens from one place up to another.
pub(crate) fn rows_of<'a>(
    empty: &'a [Row],
    columns: &'a [Column],
    from: usize,
    past: usize,
) -> &'a [Row]
    ensures { result.now ≡ rows_by empty.now columns.now from past }
{
    if from == past {
        return empty;
    }
    if from >= past {
        return &[];
    }
    rows_in(column_in(columns, past - 1), past - 1 - from)
}

/// Adds the rows that a span has from two parts of it.
fn join_middles(
    alloc: Global,
    grammar: &Grammar,
    spans: Spans<'_>,
    from: usize,
    last: usize,
    rows: &mut Vec<Row>,
) -> Result<(), Memory>
    requires small { last < 2 ^ 63 }
    requires within { from ≤ last }
    ensures { IfOk result (λ _. Adds (IsMiddle grammar.now spans.entry.empty.now spans.entry.columns.now spans.entry.column.now from last) rows.old.items rows.new.items) }
{
    for middle in from + 1..last + 1 {
        let fronts = rows_of(spans.empty, spans.columns, from, middle);
        let children = rows_in(spans.column, last - middle);
        join(alloc, grammar, fronts, children, rows)?;
    }
    Ok(())
}

/// The rows of the tokens from a place to the last of a span, which is longer than those of its column so far.
fn fill(
    alloc: Global,
    grammar: &Grammar,
    tokens: &[Word],
    spans: Spans<'_>,
    from: usize,
    last: usize,
) -> Result<Span, Memory>
    requires small { last < 2 ^ 63 }
    requires within { from ≤ last }
    ensures full { IfOk result (IsFull grammar.now tokens.now spans.entry.empty.now spans.entry.columns.now spans.entry.column.now from last) }
    ensures sound { IfOk result (λ rows.
        IsSoundUpTo grammar.now tokens.now spans.entry.empty.now spans.entry.columns.now last → IsSoundColumn grammar.now tokens.now last spans.entry.column.now (last - from)
        → AreSound grammar.now tokens.now from (last + 1) rows) }
{
    let mut rows = Vec::new(alloc);
    add_token(alloc, grammar, tokens, from, last, &mut rows)?;
    let fronts = rows_of(spans.empty, spans.columns, from, last);
    go_on_all(alloc, grammar, tokens, last, fronts, &mut rows)?;
    join_middles(alloc, grammar, spans, from, last, &mut rows)?;
    saturate(alloc, grammar, spans.empty, &mut rows)?;
    Ok(Many::from_vec(rows))
}

/// The spans that end with a token.
fn column_of(
    alloc: Global,
    grammar: &Grammar,
    tokens: &[Word],
    empty: &[Row],
    columns: &[Column],
    last: usize,
) -> Result<Column, Memory>
    requires { last < 2 ^ 63 }
    ensures full { IfOk result (λ column. IsFullColumn grammar.now tokens.now empty.now columns.now last column (last + 1)) }
    ensures sound { IfOk result (λ column.
        IsSoundUpTo grammar.now tokens.now empty.now columns.now last → IsSoundColumn grammar.now tokens.now last column (last + 1)) }
{
    let mut column = Vec::new(alloc);
    for width in 0..last + 1 {
        let spans = Spans {
            empty,
            columns,
            column: column.as_slice(),
        };
        let rows = fill(alloc, grammar, tokens, spans, last - width, last)?;
        column.push(rows)?;
    }
    Ok(Many::from_vec(column))
}

/// The spans of all tokens.
pub(crate) fn columns_of(
    alloc: Global,
    grammar: &Grammar,
    tokens: &[Word],
    empty: &[Row],
) -> Result<Vec<Column>, Memory>
    requires { IsEmptySpan grammar.now empty.now }
    ensures full { IfOk result (λ columns. IsFullTable grammar.now tokens.now (rows_by empty.now columns.items)) }
    ensures sound { IfOk result (λ columns. AreSound grammar.now tokens.now 0 (length tokens.now) (rows_by empty.now columns.items 0 (length tokens.now))) }
{
    let mut columns = Vec::new(alloc);
    for last in 0..tokens.len() {
        let column = column_of(alloc, grammar, tokens, empty, columns.as_slice(), last)?;
        columns.push(column)?;
    }
    Ok(columns)
}
