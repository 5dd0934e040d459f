//! The cells that a draft writes.
ghost use Rattle.std.specs.Prelude.{◌≡◌, ◌++◌, not, map, filter, IfOk, OnOk};
ghost use Rattle.std.specs.List.{flat_map};
ghost use Rattle.rule_completion.specs.Writing.{cells_at, is_among, beside_others, written};
ghost use Rattle.cell_completion.specs.declared.tree.Written.{Written as OneWritten};

use cell_completion::Written;
use k_terms::Memory;
use rule_terms::{Body, CellPat, Draft};
use std::alloc::Global;

/// Adds a cell of a side, and those in it, as if each were on one side alone.
#[cycle(walking)]
fn add_cell(cell: &CellPat, above: Option<u32>, cells: &mut Vec<Written>) -> Result<(), Memory>
    ensures { OnOk result (cells.new.items ≡ cells.old.items ++ cells_at above cell.now) }
{
    cells.push(Written {
        mark: cell.mark,
        cell: cell.cell,
        above,
        both: false,
    })?;
    match &cell.body {
        Body::Cells(inside, _) => {
            add_cells(inside.as_slice(), Some(cell.mark), cells)?;
            Ok(())
        }
        _ => Ok(()),
    }
}

/// Adds cells of a side, and those in them.
#[cycle(walking)]
fn add_cells(
    patterns: &[CellPat],
    above: Option<u32>,
    cells: &mut Vec<Written>,
) -> Result<(), Memory>
    ensures { OnOk result (cells.new.items ≡ cells.old.items ++ flat_map (cells_at above) patterns.now) }
{
    for pattern in patterns {
        add_cell(pattern, above, cells)?;
    }
    Ok(())
}

/// Has one of the cells a mark?
fn has_mark(cells: &[Written], mark: u32) -> bool
    ensures { result ≡ is_among cells.now mark }
{
    cells.iter().any(|one| one.mark == mark)
}

/// Cells, each with whether it is one of others.
fn compared(alloc: Global, cells: &[Written], others: &[Written]) -> Result<Vec<Written>, Memory>
    ensures { IfOk result (λ found. found.items ≡ map (beside_others others.now) cells.now) }
{
    let mut found = Vec::with_capacity(alloc, cells.len())?;
    for one in cells {
        found.push(Written {
            both: has_mark(others, one.mark),
            ..*one
        })?;
    }
    Ok(found)
}

/// Adds those of the cells that are none of others.
fn add_new(cells: &[Written], others: &[Written], all: &mut Vec<Written>) -> Result<(), Memory>
    ensures { OnOk result (all.new.items ≡ all.old.items ++ filter (λ (w : OneWritten). not (is_among others.now w.mark)) cells.now) }
{
    for one in cells {
        if !has_mark(others, one.mark) {
            all.push(*one)?;
        }
    }
    Ok(())
}

/// The cells that a draft writes: those of its left side, and the new ones.
pub(crate) fn written_cells(alloc: Global, draft: &Draft) -> Result<Vec<Written>, Memory>
    ensures { IfOk result (λ cells. cells.items ≡ written draft.now) }
{
    let mut left = Vec::new(alloc);
    add_cells(draft.left.as_slice(), None, &mut left)?;
    let mut right = Vec::new(alloc);
    add_cells(draft.right.as_slice(), None, &mut right)?;
    let mut all = compared(alloc, &left, &right)?;
    add_new(&right, &left, &mut all)?;
    Ok(all)
}
