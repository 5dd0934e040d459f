//! How the least completion is built, from the leaves up.
ghost use Rattle.std.specs.Prelude.{◌≡◌, ◌-◌, ◌≤◌, IfOk, not, filter, length, Some, option_map};
ghost use Rattle.rule_terms.specs.Sound.{cell_limit};
ghost use Rattle.cell_completion.specs.Trees.{marks, least, lesser as lesser_of, first_mark as first_mark_of};
ghost use Rattle.cell_completion.specs.Completion.{is_many as many_of};
ghost use Rattle.cell_completion.specs.Building as building;

use crate::tree::Tree;
use k_terms::{Many, Memory};
use rule_terms::CellShape;
use std::alloc::Global;

// ---- declared cells

/// The number of the declared cell that a declared cell stands in.
pub(crate) fn parent_of(shapes: &[CellShape], cell: u32) -> Option<u32>
    ensures { result ≡ building.parent_of shapes.now cell }
{
    let shape = shapes.get(cell as usize)?;
    shape.parent
}

pub(crate) fn is_many(shapes: &[CellShape], cell: u32) -> bool
    ensures { result ≡ many_of shapes.now cell }
{
    match shapes.get(cell as usize) {
        Some(shape) => shape.many,
        None => false,
    }
}

pub(crate) fn stands_in(shapes: &[CellShape], parent: Option<u32>, tree: &Tree) -> bool
    ensures { result ≡ building.stands_in shapes.now parent tree.now }
{
    parent_of(shapes, tree.cell) == parent
}

// ---- trees in order

fn lesser(one: Option<u32>, other: Option<u32>) -> Option<u32>
    ensures { result ≡ lesser_of one other }
{
    let Some(first) = one else {
        return other;
    };
    let Some(second) = other else {
        return one;
    };
    if first <= second { one } else { other }
}

/// The least mark in a tree.
fn least_mark(tree: &Tree) -> Option<u32>
    ensures { result ≡ least (marks tree.now) }
{
    let mut found = tree.mark;
    for inner in tree.inside.as_slice() {
        found = lesser(found, least_mark(inner));
    }
    found
}

/// The mark of the first written cell of a tree, in the order of the text; 0 where there is none.
pub fn first_mark(tree: &Tree) -> u32
    ensures { result ≡ first_mark_of tree.now }
{
    least_mark(tree).unwrap_or(0)
}

fn stands_before(tree: &Tree, other: &Tree) -> bool
    ensures { result ≡ building.stands_before tree.now other.now }
{
    tree.cell < other.cell || tree.cell == other.cell && first_mark(tree) < first_mark(other)
}

/// How many trees stand before one.
fn place_of(tree: &Tree, trees: &[Tree]) -> usize
    ensures { result ≡ building.place_of tree.now trees.now }
{
    for (place, other) in trees.iter().enumerate() {
        if !stands_before(other, tree) {
            return place;
        }
    }
    trees.len()
}

/// Puts a tree among those in order.
fn insert(tree: Tree, trees: &mut Vec<Tree>) -> Result<(), Memory>
    ensures { IfOk result (λ _. trees.new.items ≡ building.inserted tree trees.old.items) }
{
    let place = place_of(&tree, trees);
    trees.insert(place, tree)?;
    Ok(())
}

pub(crate) fn insert_all(new: Vec<Tree>, trees: &mut Vec<Tree>) -> Result<(), Memory>
    ensures { IfOk result (λ _. trees.new.items ≡ building.all_inserted new.items trees.old.items) }
{
    for tree in new {
        insert(tree, trees)?;
    }
    Ok(())
}

// ---- the cells of one declared cell

/// The trees that stand in a declared cell, and the others.
fn split(
    alloc: Global,
    shapes: &[CellShape],
    cell: u32,
    trees: Vec<Tree>,
) -> Result<(Vec<Tree>, Vec<Tree>), Memory>
    ensures inner { IfOk result (λ parts. parts.0.items ≡ filter (building.stands_in shapes.now (Some cell)) trees.items) }
    ensures others { IfOk result (λ parts. parts.1.items ≡ filter (λ t. not (building.stands_in shapes.now (Some cell) t)) trees.items) }
{
    let mut inner = Vec::new(alloc);
    let mut others = Vec::new(alloc);
    for tree in trees {
        if stands_in(shapes, Some(cell), &tree) {
            inner.push(tree)?;
        } else {
            others.push(tree)?;
        }
    }
    Ok((inner, others))
}

/// Do trees in order have room in one cell? None of a cell that is not repeated stands beside another of it.
pub(crate) fn have_room(shapes: &[CellShape], trees: &[Tree]) -> bool
    ensures { result ≡ building.have_room shapes.now trees.now }
{
    let mut before: Option<u32> = None;
    for tree in trees {
        if before == Some(tree.cell) && !is_many(shapes, tree.cell) {
            return false;
        }
        before = Some(tree.cell);
    }
    true
}

/// Are all of one cell that is not repeated?
fn are_single(shapes: &[CellShape], trees: &[Tree]) -> bool
    ensures { result ≡ building.are_single shapes.now trees.now }
{
    let Some(first) = trees.first() else {
        return true;
    };
    let cell = first.cell;
    !is_many(shapes, cell) && are_of(cell, trees)
}

fn are_of(cell: u32, trees: &[Tree]) -> bool
    ensures { result ≡ building.are_of cell trees.now }
{
    for tree in trees {
        if tree.cell != cell {
            return false;
        }
    }
    true
}

fn added_cell(cell: u32, inside: Vec<Tree>) -> Tree
    ensures { result ≡ building.added_cell cell inside.items }
{
    Tree {
        cell,
        mark: None,
        inside: Many::from_vec(inside),
    }
}

/// Each in an added cell of its own.
fn each_added(alloc: Global, cell: u32, trees: Vec<Tree>) -> Result<Vec<Tree>, Memory>
    ensures { IfOk result (λ new. new.items ≡ building.each_added cell trees.items) }
{
    let mut new = Vec::new(alloc);
    for tree in trees {
        let mut inside = Vec::new(alloc);
        inside.push(tree)?;
        new.push(added_cell(cell, inside))?;
    }
    Ok(new)
}

/// The added cells around trees that stand in a declared cell. `None` where they have no least number.
fn gather(
    alloc: Global,
    shapes: &[CellShape],
    cell: u32,
    trees: Vec<Tree>,
) -> Result<Option<Vec<Tree>>, Memory>
    ensures { IfOk result (λ new. option_map (λ v. v.items) new ≡ building.gathered shapes.now cell trees.items) }
{
    if trees.is_empty() {
        return Ok(Some(trees));
    }
    if have_room(shapes, &trees) {
        let mut new = Vec::new(alloc);
        new.push(added_cell(cell, trees))?;
        return Ok(Some(new));
    }
    if !are_single(shapes, &trees) {
        return Ok(None);
    }
    Ok(Some(each_added(alloc, cell, trees)?))
}

/// The trees with those that stand in a declared cell put into added ones.
fn stage(
    alloc: Global,
    shapes: &[CellShape],
    cell: u32,
    trees: Vec<Tree>,
) -> Result<Option<Vec<Tree>>, Memory>
    ensures { IfOk result (λ new. option_map (λ v. v.items) new ≡ building.stage shapes.now cell trees.items) }
{
    let (inner, mut others) = split(alloc, shapes, cell, trees)?;
    let Some(new) = gather(alloc, shapes, cell, inner)? else {
        return Ok(None);
    };
    insert_all(new, &mut others)?;
    Ok(Some(others))
}

/// The same for the declared cells from one on, the greatest first.
pub(crate) fn stages(
    alloc: Global,
    shapes: &[CellShape],
    first: u32,
    trees: Vec<Tree>,
) -> Result<Option<Vec<Tree>>, Memory>
    requires few { length shapes.now ≤ cell_limit }
    ensures { IfOk result (λ new. option_map (λ v. v.items) new ≡ building.stages shapes.now first (length shapes.now - first) trees.items) }
{
    let mut trees = trees;
    for cell in (first..shapes.len() as u32).rev() {
        match stage(alloc, shapes, cell, trees)? {
            Some(new) => trees = new,
            None => return Ok(None),
        }
    }
    Ok(Some(trees))
}
