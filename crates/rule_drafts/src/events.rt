//! The cells of a rule as they stand in the text, one after the other.
ghost use Rattle.std.specs.Prelude.{◌≡◌, ◌+◌, ◌++◌, IfOk};
ghost use Rattle.std.specs.List.{flat_map};
ghost use Rattle.rule_drafts.specs.Cells.{tag_of as tag_by, front_tag as tag_at_front, nested_event, events_in, inside_events, all_events, events_of, body_events};

use crate::reading::Tag;
use k_terms::Memory;
use rule_cells::{Cell, Inside, Item, Side as CellSide};
use rule_parts::Side;
use std::alloc::Global;

/// What begins, ends or stands at a place of the text.
#[derive(Clone, Copy, Debug)]
pub(crate) enum Event {
    /// A cell of cells begins.
    Begin(Side, Tag),
    /// It ends.
    End(Side, Tag),
    /// Any other cell, with the first token of its content.
    Content(Side, Tag, usize),
    /// A change within another one, by its first token.
    Inner(usize),
}

/// The tag of a cell.
pub(crate) fn tag_of(cell: &Cell) -> Tag
    ensures { result ≡ tag_by cell.now.cell cell.now.start cell.now.left_dots cell.now.right_dots }
{
    Tag {
        cell: cell.cell,
        start: cell.start,
        left_dots: cell.left_dots,
        right_dots: cell.right_dots,
    }
}

/// The tag of the cell `k` whose front is a content up to a token.
pub(crate) fn front_tag(k: u32, past: usize) -> Tag
    ensures { result ≡ tag_at_front k past }
{
    Tag {
        cell: k,
        start: past,
        left_dots: false,
        right_dots: true,
    }
}

/// The token behind another; more tokens than a number counts are more than memory holds.
fn behind(token: usize) -> Result<usize, Memory>
    ensures { IfOk result (λ next. next ≡ token + 1) }
{
    token.checked_add(1).ok_or(Memory)
}

/// Adds that a change stands within another, where it does.
fn add_nested(at: usize, side: Side, events: &mut Vec<Event>) -> Result<(), Memory>
    ensures { IfOk result (λ _. events.new.items ≡ events.old.items ++ nested_event at side) }
{
    match side {
        Side::Both => (),
        Side::Left | Side::Right => events.push(Event::Inner(at))?,
    }
    Ok(())
}

/// Adds what stands in an item.
#[cycle(adding)]
fn add_item(item: &Item, side: Side, events: &mut Vec<Event>) -> Result<(), Memory>
    ensures { IfOk result (λ _. events.new.items ≡ events.old.items ++ events_in side item.now) }
{
    match item {
        Item::Cell(cell) => add_inside(&cell.inside, side, tag_of(cell), events),
        Item::Change { start, left, right } => {
            add_nested(*start, side, events)?;
            add_items(left.as_slice(), side.left(), events)?;
            add_items(right.as_slice(), side.right(), events)
        }
        Item::Nothing { .. } => Ok(()),
    }
}

/// Adds what stands in a cell.
#[cycle(adding)]
fn add_inside(inside: &Inside, side: Side, tag: Tag, events: &mut Vec<Event>) -> Result<(), Memory>
    ensures { IfOk result (λ _. events.new.items ≡ events.old.items ++ inside_events side tag inside.now) }
{
    match inside {
        Inside::Cells(cells) => {
            events.push(Event::Begin(side, tag))?;
            add_all(cells, side, behind(tag.start)?, events)?;
            events.push(Event::End(side, tag))?;
            Ok(())
        }
        Inside::Content { first, .. } => {
            events.push(Event::Content(side, tag, *first))?;
            Ok(())
        }
    }
}

/// Adds what stands in all that a cell or a body contains.
#[cycle(adding)]
fn add_all(cells: &CellSide, side: Side, at: usize, events: &mut Vec<Event>) -> Result<(), Memory>
    ensures { IfOk result (λ _. events.new.items ≡ events.old.items ++ all_events side at cells.now) }
{
    match cells {
        CellSide::Same(items) => add_items(items.as_slice(), side, events),
        CellSide::Change(left, right) => {
            add_nested(at, side, events)?;
            add_items(left.as_slice(), side.left(), events)?;
            add_items(right.as_slice(), side.right(), events)
        }
    }
}

/// Adds what stands in several items.
#[cycle(adding)]
fn add_items(items: &[Item], side: Side, events: &mut Vec<Event>) -> Result<(), Memory>
    ensures { IfOk result (λ _. events.new.items ≡ events.old.items ++ events_of side items.now) }
{
    for item in items {
        add_item(item, side, events)?;
    }
    Ok(())
}

/// What stands in a body.
pub(crate) fn events_of_body(alloc: Global, k: u32, body: &Inside) -> Result<Vec<Event>, Memory>
    ensures { IfOk result (λ events. events.items ≡ body_events k body.now) }
{
    let mut events = Vec::new(alloc);
    match body {
        Inside::Cells(cells) => add_all(cells, Side::Both, 0, &mut events)?,
        Inside::Content { first, past } => {
            events.push(Event::Content(Side::Both, front_tag(k, *past), *first))?;
        }
    }
    Ok(events)
}
