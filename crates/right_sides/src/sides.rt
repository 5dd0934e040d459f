//! The contents of all cells of a right side.
ghost use Rattle.std.specs.Prelude.{◌≡◌, ℕ, IfOk};
ghost use Rattle.std.specs.List.{flat_map};
ghost use Rattle.rule_terms.specs.Spots.{spots, spots_in};
ghost use Rattle.rule_terms.specs.CellCounts.{spots_under};
ghost use Rattle.right_sides.specs.Bound.{IsUnder};
ghost use Rattle.right_sides.specs.Contents.{contents_of};

use crate::bodies::content;
use k_terms::{Content, Many, Memory};
use leaf_match::Bindings;
use rule_terms::{Body, CellPat};
use std::alloc::Global;

/// The contents of the cells in a body, at any depth.
#[cycle(filling)]
fn contents_in(
    alloc: Global,
    bindings: &Bindings<'_>,
    body: &Body,
) -> Result<Option<Many<Content>>, Memory>
    ensures { IfOk result (λ found. (above : ℕ) → IsUnder bindings.now (contents_of (spots_in above body.now)) found) }
{
    match body {
        Body::Cells(cells, _) => {
            let found = contents_among(alloc, bindings, cells.as_slice())?;
            Ok(found)
        }
        _ => Ok(Some(Many::new(alloc))),
    }
}

/// The contents of these cells and of those in them.
#[cycle(filling)]
fn contents_among(
    alloc: Global,
    bindings: &Bindings<'_>,
    cells: &[CellPat],
) -> Result<Option<Many<Content>>, Memory>
    ensures { IfOk result (λ found. (above : ℕ) → IsUnder bindings.now (contents_of (flat_map (spots_under above) cells.now)) found) }
{
    let mut contents = Vec::new(alloc);
    for cell in cells {
        let Some(own) = content(alloc, bindings, &cell.body)? else {
            return Ok(None);
        };
        let Some(inside) = contents_in(alloc, bindings, &cell.body)? else {
            return Ok(None);
        };
        contents.push(own)?;
        contents.append(&mut inside.into_vec())?;
    }
    Ok(Some(Many::from_vec(contents)))
}

/// The contents of all cells of a right side, each before those in it. `None` where one is undefined.
pub fn right_contents(
    alloc: Global,
    bindings: &Bindings<'_>,
    right: &CellPat,
) -> Result<Option<Many<Content>>, Memory>
    ensures { IfOk result (IsUnder bindings.now (contents_of (spots right.now))) }
{
    let Some(own) = content(alloc, bindings, &right.body)? else {
        return Ok(None);
    };
    let Some(inside) = contents_in(alloc, bindings, &right.body)? else {
        return Ok(None);
    };
    let mut contents = Vec::new(alloc);
    contents.push(own)?;
    contents.append(&mut inside.into_vec())?;
    Ok(Some(Many::from_vec(contents)))
}
