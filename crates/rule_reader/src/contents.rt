//! The contents of a rule, in the order of its text.
ghost use Rattle.std.specs.Prelude.{◌≡◌, ◌++◌, IfOk};
ghost use Rattle.std.specs.List.{flat_map};
ghost use Rattle.rule_reader.specs.Contents.{cell_k as number_of_k, is_new as on_right_alone, contents_in, inside_contents, side_contents, contents_of as all_contents};

use k_terms::Memory;
use rule_cells::{Inside, Item, Side as Cells};
use rule_parts::Side;
use rule_terms::CellShape;
use std::alloc::Global;

/// A content: the declared cell that it stands in, whether that is new, and its tokens, from one up to another.
#[derive(Clone, Copy, Debug)]
pub struct Content {
    pub cell: u32,
    pub is_new: bool,
    pub first: usize,
    pub past: usize,
}

/// The place of the declared cell `k`, and 0 where there is none.
fn place_of_k(cells: &[CellShape]) -> usize
    ensures { result ≡ number_of_k cells.now }
{
    for (place, cell) in cells.iter().enumerate() {
        if cell.name.as_slice() == b"k".as_slice() {
            return place;
        }
    }
    0
}

/// The number of the declared cell `k`; more cells than a number counts are more than memory holds.
pub(crate) fn cell_k(cells: &[CellShape]) -> Result<u32, Memory>
    ensures { IfOk result (λ k. k ≡ number_of_k cells.now) }
{
    u32::try_from(place_of_k(cells)).map_err(|_| Memory)
}

/// A cell that stands on the right side alone is new.
fn is_new(side: Side) -> bool
    ensures { result ≡ on_right_alone side }
{
    match side {
        Side::Both => false,
        Side::Left => false,
        Side::Right => true,
    }
}

/// Adds the contents of what a cell or a body holds.
#[cycle(contents)]
fn add_inside(
    inside: &Inside,
    cell: u32,
    side: Side,
    found: &mut Vec<Content>,
) -> Result<(), Memory>
    ensures { IfOk result (λ _. found.new.items ≡ found.old.items ++ inside_contents side cell inside.now) }
{
    match inside {
        Inside::Cells(cells) => add_side(cells, side, found),
        Inside::Content { first, past } => {
            let (first, past) = (*first, *past);
            let is_new = is_new(side);
            found.push(Content {
                cell,
                is_new,
                first,
                past,
            })?;
            Ok(())
        }
    }
}

/// Adds the contents of cells, or of cells that are rewritten to others.
#[cycle(contents)]
fn add_side(cells: &Cells, side: Side, found: &mut Vec<Content>) -> Result<(), Memory>
    ensures { IfOk result (λ _. found.new.items ≡ found.old.items ++ side_contents side cells.now) }
{
    match cells {
        Cells::Same(items) => add_items(items.as_slice(), side, found),
        Cells::Change(left, right) => {
            add_items(left.as_slice(), side.left(), found)?;
            add_items(right.as_slice(), side.right(), found)
        }
    }
}

/// Adds the contents of an item.
#[cycle(contents)]
fn add_item(item: &Item, side: Side, found: &mut Vec<Content>) -> Result<(), Memory>
    ensures { IfOk result (λ _. found.new.items ≡ found.old.items ++ contents_in side item.now) }
{
    match item {
        Item::Cell(cell) => add_inside(&cell.inside, cell.cell, side, found),
        Item::Change { left, right, .. } => {
            add_items(left.as_slice(), side.left(), found)?;
            add_items(right.as_slice(), side.right(), found)
        }
        Item::Nothing { .. } => Ok(()),
    }
}

/// Adds the contents of items.
#[cycle(contents)]
fn add_items(items: &[Item], side: Side, found: &mut Vec<Content>) -> Result<(), Memory>
    ensures { IfOk result (λ _. found.new.items ≡ found.old.items ++ flat_map (contents_in side) items.now) }
{
    for item in items {
        add_item(item, side, found)?;
    }
    Ok(())
}

/// The contents of a body.
pub(crate) fn contents_of(
    alloc: Global,
    cells: &[CellShape],
    body: &Inside,
) -> Result<Vec<Content>, Memory>
    ensures { IfOk result (λ found. found.items ≡ all_contents cells.now body.now) }
{
    let mut found = Vec::new(alloc);
    add_inside(body, cell_k(cells)?, Side::Both, &mut found)?;
    Ok(found)
}
