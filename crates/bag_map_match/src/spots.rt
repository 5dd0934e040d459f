//! The cells of a rule's side as a flat list.
ghost use Rattle.std.specs.Prelude.{◌≡◌, ◌++◌, IfOk, map};
ghost use Rattle.std.specs.List.{flat_map};
ghost use Rattle.rule_terms.specs.Spots.{spots as spots_in_side, spots_in};
ghost use Rattle.rule_terms.specs.CellCounts.{spots_under};
ghost use Rattle.bag_map_match.specs.Lent.{listed};

use k_terms::Memory;
use rule_terms::{Body, CellPat};
use std::alloc::Global;

/// A cell of a rule's side: its declared cell, its mark, the mark of the cell around it, and its body.
#[derive(Clone, Copy, Debug)]
pub struct Spot<'r> {
    pub cell: u32,
    pub mark: u32,
    pub above: Option<u32>,
    pub body: &'r Body,
}

/// Adds the cells that stand in a body, at any depth.
#[cycle(listing)]
fn push_inner<'r>(above: u32, body: &'r Body, spots: &mut Vec<Spot<'r>>) -> Result<(), Memory>
    ensures { IfOk result (λ _. listed spots.new.items ≡ listed spots.old.items ++ spots_in above body.now) }
{
    match body {
        Body::Cells(cells, _) => push_cells(above, cells.as_slice(), spots)?,
        _ => {}
    }
    Ok(())
}

/// Adds these cells, each with those that stand in it behind it.
#[cycle(listing)]
fn push_cells<'r>(above: u32, cells: &'r [CellPat], spots: &mut Vec<Spot<'r>>) -> Result<(), Memory>
    ensures { IfOk result (λ _. listed spots.new.items ≡ listed spots.old.items ++ flat_map (spots_under above) cells.now) }
{
    for cell in cells {
        spots.push(Spot {
            cell: cell.cell,
            mark: cell.mark,
            above: Some(above),
            body: &cell.body,
        })?;
        push_inner(cell.mark, &cell.body, spots)?;
    }
    Ok(())
}

/// The cells of a side in pre-order.
pub fn spots_of(alloc: Global, side: &CellPat) -> Result<Vec<Spot<'_>>, Memory>
    ensures { IfOk result (λ spots. listed spots.items ≡ spots_in_side side.now) }
{
    let mut spots = Vec::new(alloc);
    spots.push(Spot {
        cell: side.cell,
        mark: side.mark,
        above: None,
        body: &side.body,
    })?;
    push_inner(side.mark, &side.body, &mut spots)?;
    Ok(spots)
}
