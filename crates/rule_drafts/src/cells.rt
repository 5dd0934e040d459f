//! The cells of a side.
ghost use Rattle.std.specs.Prelude.{◌≡◌, ◌++◌, take, length, filter, IfOk};
ghost use Rattle.rule_tokens.specs.declared.token.RuleToken.{RuleToken as Token};
ghost use Rattle.rule_drafts.specs.Cells.{is_open as opens, mark_of as mark_in, cell_with, cells_in, inside_body as body_in, all_cells, forest_of, body_cells};

use crate::bodies::dots_number;
use crate::contents::content_body;
use crate::events::{front_tag, tag_of};
use crate::reading::{Reading, Tag};
use k_terms::{Many, Memory};
use rule_cells::{Inside, Item, Side as CellSide};
use rule_parts::{Leaf, Occurrence, Productions, Side};
use rule_terms::{Body, CellPat, CellShape};
use rule_tokens::{RuleKind, RuleToken};
use std::alloc::Global;

/// Whether a token is an opening tag.
fn is_open(kind: &RuleKind) -> bool
    ensures { result ≡ opens kind.now }
{
    matches!(kind, RuleKind::Open(_))
}

/// How many of these tokens are opening tags.
fn count_open(tokens: &[RuleToken]) -> usize
    ensures { result ≡ length (filter (λ (token : Token). opens token.kind) tokens.now) }
{
    let mut count: usize = 0;
    for token in tokens {
        if is_open(&token.kind) {
            count += 1;
        }
    }
    count
}

/// The tokens before a place.
fn tokens_before(tokens: &[RuleToken], place: usize) -> &[RuleToken]
    ensures { result.now ≡ take place tokens.now }
{
    if place < tokens.len() {
        tokens.split_at(place).0
    } else {
        tokens
    }
}

/// The mark of a cell; more cells than a number counts are more than memory holds.
fn mark_of(tokens: &[RuleToken], place: usize) -> Result<u32, Memory>
    ensures { IfOk result (λ mark. mark ≡ mark_in tokens.now place) }
{
    match u32::try_from(count_open(tokens_before(tokens, place))) {
        Ok(mark) => Ok(mark),
        Err(_) => Err(Memory),
    }
}

/// A cell with what it contains.
fn cell_of(tokens: &[RuleToken], tag: Tag, body: Body) -> Result<CellPat, Memory>
    ensures { IfOk result (λ cell. cell ≡ cell_with tokens.now tag body) }
{
    Ok(CellPat {
        cell: tag.cell,
        mark: mark_of(tokens, tag.start)?,
        body,
    })
}

/// Adds the cells of an item on a side.
#[cycle(building)]
fn add_item(
    alloc: Global,
    item: &Item,
    grammar: &Productions,
    leaves: &[Leaf],
    cells: &[CellShape],
    readings: &[Reading],
    vars: &[Occurrence],
    tokens: &[RuleToken],
    on_left: bool,
    side: Side,
    found: &mut Vec<CellPat>,
) -> Result<(), Memory>
    ensures { IfOk result (λ _. found.new.items
        ≡ found.old.items ++ cells_in grammar.now leaves.now cells.now readings.now vars.now tokens.now on_left side item.now) }
{
    match item {
        Item::Cell(cell) => {
            if !side.stands(on_left) {
                return Ok(());
            }
            let tag = tag_of(cell);
            let inside = &cell.inside;
            let body = body_inside(
                alloc, inside, grammar, leaves, cells, readings, vars, tokens, on_left, side, tag,
            )?;
            found.push(cell_of(tokens, tag, body)?)?;
            Ok(())
        }
        Item::Change { left, right, .. } => {
            let (left, right) = (left.as_slice(), right.as_slice());
            add_items(
                alloc,
                left,
                grammar,
                leaves,
                cells,
                readings,
                vars,
                tokens,
                on_left,
                side.left(),
                found,
            )?;
            add_items(
                alloc,
                right,
                grammar,
                leaves,
                cells,
                readings,
                vars,
                tokens,
                on_left,
                side.right(),
                found,
            )
        }
        Item::Nothing { .. } => Ok(()),
    }
}

/// What a cell contains on a side.
#[cycle(building)]
fn body_inside(
    alloc: Global,
    inside: &Inside,
    grammar: &Productions,
    leaves: &[Leaf],
    cells: &[CellShape],
    readings: &[Reading],
    vars: &[Occurrence],
    tokens: &[RuleToken],
    on_left: bool,
    side: Side,
    tag: Tag,
) -> Result<Body, Memory>
    ensures { IfOk result (λ body. body ≡ body_in grammar.now leaves.now cells.now readings.now vars.now tokens.now on_left side tag inside.now) }
{
    match inside {
        Inside::Cells(inner) => {
            let mut found = Vec::new(alloc);
            add_all(
                alloc, inner, grammar, leaves, cells, readings, vars, tokens, on_left, side,
                &mut found,
            )?;
            Ok(Body::Cells(Many::from_vec(found), dots_number(vars, tag)?))
        }
        Inside::Content { first, .. } => {
            content_body(
                alloc, grammar, leaves, cells, readings, vars, on_left, side, tag, *first,
            )
        }
    }
}

/// Adds the cells of all that a cell or a body contains.
#[cycle(building)]
fn add_all(
    alloc: Global,
    inner: &CellSide,
    grammar: &Productions,
    leaves: &[Leaf],
    cells: &[CellShape],
    readings: &[Reading],
    vars: &[Occurrence],
    tokens: &[RuleToken],
    on_left: bool,
    side: Side,
    found: &mut Vec<CellPat>,
) -> Result<(), Memory>
    ensures { IfOk result (λ _. found.new.items
        ≡ found.old.items ++ all_cells grammar.now leaves.now cells.now readings.now vars.now tokens.now on_left side inner.now) }
{
    match inner {
        CellSide::Same(items) => {
            add_items(
                alloc,
                items.as_slice(),
                grammar,
                leaves,
                cells,
                readings,
                vars,
                tokens,
                on_left,
                side,
                found,
            )
        }
        CellSide::Change(left, right) => {
            let (left, right) = (left.as_slice(), right.as_slice());
            add_items(
                alloc,
                left,
                grammar,
                leaves,
                cells,
                readings,
                vars,
                tokens,
                on_left,
                side.left(),
                found,
            )?;
            add_items(
                alloc,
                right,
                grammar,
                leaves,
                cells,
                readings,
                vars,
                tokens,
                on_left,
                side.right(),
                found,
            )
        }
    }
}

/// Adds the cells of several items on a side.
#[cycle(building)]
fn add_items(
    alloc: Global,
    items: &[Item],
    grammar: &Productions,
    leaves: &[Leaf],
    cells: &[CellShape],
    readings: &[Reading],
    vars: &[Occurrence],
    tokens: &[RuleToken],
    on_left: bool,
    side: Side,
    found: &mut Vec<CellPat>,
) -> Result<(), Memory>
    ensures { IfOk result (λ _. found.new.items
        ≡ found.old.items ++ forest_of grammar.now leaves.now cells.now readings.now vars.now tokens.now on_left side items.now) }
{
    for item in items {
        add_item(
            alloc, item, grammar, leaves, cells, readings, vars, tokens, on_left, side, found,
        )?;
    }
    Ok(())
}

/// The cells of a body on the left side, or on the right.
pub(crate) fn forest(
    alloc: Global,
    k: u32,
    body: &Inside,
    grammar: &Productions,
    leaves: &[Leaf],
    cells: &[CellShape],
    readings: &[Reading],
    vars: &[Occurrence],
    tokens: &[RuleToken],
    on_left: bool,
) -> Result<Many<CellPat>, Memory>
    ensures { IfOk result (λ found. found ≡ body_cells grammar.now leaves.now cells.now readings.now vars.now tokens.now on_left k body.now) }
{
    let side = Side::Both;
    let mut found = Vec::new(alloc);
    match body {
        Inside::Cells(inner) => {
            add_all(
                alloc, inner, grammar, leaves, cells, readings, vars, tokens, on_left, side,
                &mut found,
            )?;
        }
        Inside::Content { first, past } => {
            let tag = front_tag(k, *past);
            let first = *first;
            let body = content_body(
                alloc, grammar, leaves, cells, readings, vars, on_left, side, tag, first,
            )?;
            found.push(cell_of(tokens, tag, body)?)?;
        }
    }
    Ok(Many::from_vec(found))
}
