//! A rule's left cells at the cells of a site.
ghost use Rattle.std.specs.Prelude.{◌≡◌, ◌↔◌, ◌&&◌, not, ◌-◌, [], length, map, Some, None, IsTrue, IfOk, option_copied};
ghost use Rattle.std.specs.List.{list_all, list_any};
ghost use Rattle.std.specs.Option.{option_map};
ghost use Rattle.std.specs.Ordering.{nat_cmp};
ghost use Rattle.std.specs.FinMap.{is_sorted};
ghost use Rattle.rule_terms.specs.Sound.{has_no_operator, all_patterns, is_made};
ghost use Rattle.rule_terms.specs.Spots.{keys_in, number_of as number_of_mark};
ghost use Rattle.rule_terms.specs.Language.{Language};
ghost use Rattle.live_config.specs.Configuration.{parent_number, below};
ghost use Rattle.live_config.specs.Fits.{Fits};
ghost use Rattle.leaf_match.specs.Bindings.{AreSuited, Tells, Reaches};
ghost use Rattle.leaf_match.specs.Contents.{leaf_mentions};
ghost use Rattle.bag_map_match.specs.Lent.{spot_of, listed, marks_of};
ghost use Rattle.bag_map_match.specs.Matching.{HasNoOthers, AreNamed, IsCellFor, IsParted, AllHold, are_plain};

use crate::cells::{is_named, number_above};
use crate::spots::Spot;
use k_terms::{Memory, Value};
use leaf_match::{Bindings, Variables};
use live_config::{Cell, CellNo, Live};
use rule_terms::{Body, CellPat};
use std::alloc::Global;

/// The left cells of a rule, each beside the number of a cell.
#[derive(Clone, Copy)]
pub(crate) struct Left<'s, 'l> {
    pub live: &'l Live,
    pub spots: &'s [Spot<'s>],
    pub numbers: &'s [u32],
}

/// Whether each child of the cell with a number is that of one of these left cells.
fn are_named(left: &Left<'_, '_>, cells: &[CellPat], number: u32) -> bool
    requires rising { IsTrue (is_sorted nat_cmp left.now.live.now.now.cells) }
    ensures { IsTrue result ↔ AreNamed left.now.live.now.now (listed left.now.spots.now) left.now.numbers.now (marks_of cells.now) number }
{
    let mut after = None;
    while let Some(child) = left.live.next_child(Some(CellNo(number)), after) {
        if !is_named(left.spots, left.numbers, cells, child.0) {
            return false;
        }
        after = Some(child);
    }
    true
}

/// Whether a body allows the children of the cell with a number: it has a rest, or names them all.
fn is_closed(left: &Left<'_, '_>, body: &Body, number: u32) -> bool
    requires rising { IsTrue (is_sorted nat_cmp left.now.live.now.now.cells) }
    ensures { IsTrue result ↔ HasNoOthers left.now.live.now.now (listed left.now.spots.now) left.now.numbers.now body.now number }
{
    let Body::Cells(cells, rest) = body else {
        return true;
    };
    match rest {
        Some(_) => true,
        None => are_named(left, cells.as_slice(), number),
    }
}

/// Whether a cell lies in the cell with a number, or in none.
fn lies_in(cell: &Cell, above: Option<u32>) -> bool
    ensures { IsTrue result ↔ (parent_number cell.now ≡ above) }
{
    match (cell.parent, above) {
        (Some(parent), Some(number)) => parent.0 == number,
        (None, None) => true,
        _ => false,
    }
}

/// The cell with a number, where a left cell may stand for it.
fn cell_for<'l>(left: &Left<'_, 'l>, spot: &Spot<'_>, number: u32) -> Option<&'l Cell>
    requires rising { IsTrue (is_sorted nat_cmp left.now.live.now.now.cells) }
    ensures { IsCellFor left.now.live.now.now (listed left.now.spots.now) left.now.numbers.now (spot_of spot.now) number (option_copied result) }
{
    let cell = match left.live.cell(CellNo(number)) {
        Some(cell) => cell,
        None => return None,
    };
    if cell.kind != spot.cell {
        return None;
    }
    if !lies_in(cell, number_above(left.spots, left.numbers, spot.above)) {
        return None;
    }
    if !is_closed(left, spot.body, number) {
        return None;
    }
    Some(cell)
}

/// The keys of a body's entries, which stand in front of the others. `None` where there are fewer.
pub(crate) fn own_keys<'k>(body: &Body, keys: &'k [Value]) -> Option<(&'k [Value], &'k [Value])>
    ensures { IsParted keys.now (length (keys_in body.now)) (option_map (λ parts. (parts.0.now, parts.1.now)) result) }
{
    let count = match body {
        Body::Map(entries, _) => entries.len(),
        _ => 0,
    };
    if keys.len() < count {
        return None;
    }
    Some(keys.split_at(count))
}

/// Matches left cells against cells with these numbers, and the keys of their entries: the variables of their contents are bound.
/// `false` where no substitution that agrees with what is bound makes them these cells.
pub(crate) fn match_cells<'l>(
    alloc: Global,
    left: &Left<'_, 'l>,
    variables: &Variables<'_>,
    spots: &[Spot<'_>],
    numbers: &[u32],
    keys: &[Value],
    bindings: &mut Bindings<'l>,
) -> Result<bool, Memory>
    requires fits { (d : Language) × Fits d left.now.live.now.now }
    requires suited { AreSuited variables.now.sorts.now variables.now.vars.now bindings.old }
    requires plain { IsTrue (are_plain (listed spots.now)) }
    ensures suited { IfOk result (λ _. AreSuited variables.now.sorts.now variables.now.vars.now bindings.new) }
    ensures tells { IfOk result (λ found. Tells variables.now.sorts.now variables.now.vars.now found bindings.old bindings.new
        (AllHold left.now.live.now.now (listed left.now.spots.now) left.now.numbers.now (listed spots.now) numbers.now keys.now)) }
    ensures reaches { IfOk result (λ found. Reaches found bindings.old bindings.new
        (λ x. list_any (λ p. leaf_mentions x p.body) (listed spots.now))) }
{
    let Some((spot, spots)) = spots.split_first() else {
        return Ok(numbers.is_empty() && keys.is_empty());
    };
    let Some((number, numbers)) = numbers.split_first() else {
        return Ok(false);
    };
    let Some((own, others)) = own_keys(spot.body, keys) else {
        return Ok(false);
    };
    let Some(cell) = cell_for(left, spot, *number) else {
        return Ok(false);
    };
    if !bindings.match_body(alloc, variables, spot.body, &cell.content, own)? {
        return Ok(false);
    }
    let found = match_cells(alloc, left, variables, spots, numbers, others, bindings)?;
    Ok(found)
}
