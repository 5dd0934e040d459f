//! The declared cells that a new cell doesn't write.
ghost use Rattle.std.specs.Prelude.{◌≡◌, ◌+◌, ◌<◌, ◌++◌, ◌^◌, filter, length, IfOk, OnOk};
ghost use Rattle.rule_completion.specs.Completed as completed;

use cell_trees::{CellTree, default_cell};
use k_terms::{Many, Memory};
use rule_terms::{CellPat, copy_cell};
use std::alloc::Global;

/// Does a cell of a declared one stand among these?
fn has_cell(cells: &[CellPat], cell: u32) -> bool
    ensures { result ≡ completed.has_cell cell cells.now }
{
    cells.iter().any(|one| one.cell == cell)
}

/// Adds copies of the cells of a declared one.
fn add_cells_of(
    alloc: Global,
    cells: &[CellPat],
    cell: u32,
    all: &mut Vec<CellPat>,
) -> Result<(), Memory>
    ensures { OnOk result (all.new.items ≡ all.old.items ++ filter (completed.is_of cell) cells.now) }
{
    for one in cells {
        if one.cell == cell {
            all.push(copy_cell(alloc, one)?)?;
        }
    }
    Ok(())
}

/// Adds the cells of a declared one, or else its default, with marks above a number.
fn add_or_default(
    alloc: Global,
    tree: &CellTree,
    more: u32,
    inside: &[CellPat],
    cell: u32,
    all: &mut Vec<CellPat>,
) -> Result<(), Memory>
    requires few { more + 64 < 2 ^ 32 }
    requires declared { cell < length tree.now.shapes }
    ensures { OnOk result (all.new.items ≡ all.old.items ++ completed.child_or_default tree.now more inside.now cell) }
{
    if has_cell(inside, cell) {
        add_cells_of(alloc, inside, cell, all)?;
        return Ok(());
    }
    all.push(default_cell(alloc, tree, more, cell)?)?;
    Ok(())
}

/// The cells in a new cell of a declared one, with the declared cells that are missing, in declared order.
pub(crate) fn with_defaults(
    alloc: Global,
    tree: &CellTree,
    more: u32,
    cell: u32,
    inside: &[CellPat],
) -> Result<Many<CellPat>, Memory>
    requires few { more + 64 < 2 ^ 32 }
    ensures { IfOk result (λ cells. cells ≡ completed.with_defaults tree.now more cell inside.now) }
{
    tree.sound();
    let mut all = Vec::new(alloc);
    for child in 0..tree.shapes().len() as u32 {
        if tree.is_in(cell, child) {
            add_or_default(alloc, tree, more, inside, child, &mut all)?;
        }
    }
    Ok(Many::from_vec(all))
}
