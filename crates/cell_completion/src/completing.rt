//! The least completion of written cells, one after the other, the last one first.
ghost use Rattle.std.specs.Prelude.{◌≡◌, ◌<◌, ◌≤◌, [], IfOk, not, filter, map, length, Some, option_map, Contains};
ghost use Rattle.std.specs.List.{list_all};
ghost use Rattle.rule_terms.specs.Sound.{cell_limit};
ghost use Rattle.cell_completion.specs.declared.tree.Written.{Written as OneWritten};
ghost use Rattle.cell_completion.specs.declared.completing.Standing.{Standing as Of};
ghost use Rattle.cell_completion.specs.Building as building;

use crate::building::{have_room, insert_all, stages, stands_in};
use crate::tree::{Tree, Written};
use k_terms::{Many, Memory};
use rule_terms::CellShape;
use std::alloc::Global;

/// A tree that stands in no other one yet, and the mark of the written cell that encloses it.
#[derive(Debug, Drop)]
pub(crate) struct Standing {
    pub(crate) above: Option<u32>,
    pub(crate) tree: Tree,
}

/// Trees in order.
fn in_order(alloc: Global, trees: Vec<Tree>) -> Result<Vec<Tree>, Memory>
    ensures { IfOk result (λ all. all.items ≡ building.all_inserted trees.items []) }
{
    let mut all = Vec::new(alloc);
    insert_all(trees, &mut all)?;
    Ok(all)
}

fn all_stand_in(shapes: &[CellShape], cell: Option<u32>, trees: &[Tree]) -> bool
    ensures { result ≡ list_all (building.stands_in shapes.now cell) trees.now }
{
    for tree in trees {
        if !stands_in(shapes, cell, tree) {
            return false;
        }
    }
    true
}

/// The cells directly in a written one, from the trees of those that it encloses.
fn inside_of(
    alloc: Global,
    shapes: &[CellShape],
    written: &Written,
    trees: Vec<Tree>,
) -> Result<Option<Vec<Tree>>, Memory>
    requires few { length shapes.now ≤ cell_limit }
    requires declared { written.now.cell < length shapes.now }
    ensures { IfOk result (λ inside. option_map (λ v. v.items) inside ≡ building.inside_of shapes.now written.now trees.items) }
{
    let mut trees = in_order(alloc, trees)?;
    if written.both {
        match stages(alloc, shapes, written.cell + 1, trees)? {
            Some(new) => trees = new,
            None => return Ok(None),
        }
    }
    if all_stand_in(shapes, Some(written.cell), &trees) && have_room(shapes, &trees) {
        return Ok(Some(trees));
    }
    Ok(None)
}

/// The trees of those that a written cell encloses, and the others.
fn split_enclosed(
    alloc: Global,
    mark: u32,
    standing: Vec<Standing>,
) -> Result<(Vec<Tree>, Vec<Standing>), Memory>
    ensures inner { IfOk result (λ parts. parts.0.items ≡ map (λ (s : Of). s.tree) (filter (building.is_enclosed mark) standing.items)) }
    ensures others { IfOk result (λ parts. parts.1.items ≡ filter (λ s. not (building.is_enclosed mark s)) standing.items) }
{
    let mut inner = Vec::new(alloc);
    let mut others = Vec::new(alloc);
    for one in standing {
        if one.above == Some(mark) {
            inner.push(one.tree)?;
        } else {
            others.push(one)?;
        }
    }
    Ok((inner, others))
}

/// What stands with a written cell, which encloses some of it. `None` where the cells in that one have no least completion.
fn with_cell(
    alloc: Global,
    shapes: &[CellShape],
    written: &Written,
    standing: Vec<Standing>,
) -> Result<Option<Vec<Standing>>, Memory>
    requires few { length shapes.now ≤ cell_limit }
    requires declared { written.now.cell < length shapes.now }
    ensures { IfOk result (λ all. option_map (λ v. v.items) all ≡ building.with_cell shapes.now written.now standing.items) }
{
    let (inner, mut others) = split_enclosed(alloc, written.mark, standing)?;
    let Some(inside) = inside_of(alloc, shapes, written, inner)? else {
        return Ok(None);
    };
    let tree = Tree {
        cell: written.cell,
        mark: Some(written.mark),
        inside: Many::from_vec(inside),
    };
    others.push(Standing {
        above: written.above,
        tree,
    })?;
    Ok(Some(others))
}

/// The trees of the written cells that no other encloses.
fn built(
    alloc: Global,
    shapes: &[CellShape],
    written: &[Written],
) -> Result<Option<Vec<Standing>>, Memory>
    requires few { length shapes.now ≤ cell_limit }
    requires declared { (w : OneWritten) → Contains written.now w → w.cell < length shapes.now }
    ensures { IfOk result (λ all. option_map (λ v. v.items) all ≡ building.built shapes.now written.now) }
{
    let mut standing = Vec::new(alloc);
    for place in (0..written.len()).rev() {
        match with_cell(alloc, shapes, &written[place], standing)? {
            Some(new) => standing = new,
            None => return Ok(None),
        }
    }
    Ok(Some(standing))
}

fn trees_of(alloc: Global, standing: Vec<Standing>) -> Result<Vec<Tree>, Memory>
    ensures { IfOk result (λ trees. trees.items ≡ map (λ (s : Of). s.tree) standing.items) }
{
    let mut trees = Vec::new(alloc);
    for one in standing {
        trees.push(one.tree)?;
    }
    Ok(trees)
}

/// The root, where it is the one tree.
fn only_root(shapes: &[CellShape], trees: Vec<Tree>) -> Option<Tree>
    ensures { result ≡ building.only_root shapes.now trees.items }
{
    let mut trees = trees;
    if trees.len() != 1 {
        return None;
    }
    let tree = trees.pop()?;
    if stands_in(shapes, None, &tree) {
        Some(tree)
    } else {
        None
    }
}

/// The least completion of written cells. `None` where there is none.
pub(crate) fn completed(
    alloc: Global,
    shapes: &[CellShape],
    written: &[Written],
) -> Result<Option<Tree>, Memory>
    requires few { length shapes.now ≤ cell_limit }
    requires declared { (w : OneWritten) → Contains written.now w → w.cell < length shapes.now }
    ensures { IfOk result (λ tree. tree ≡ building.completed shapes.now written.now) }
{
    let Some(standing) = built(alloc, shapes, written)? else {
        return Ok(None);
    };
    let trees = trees_of(alloc, standing)?;
    let trees = in_order(alloc, trees)?;
    match stages(alloc, shapes, 0, trees)? {
        Some(trees) => Ok(only_root(shapes, trees)),
        None => Ok(None),
    }
}
