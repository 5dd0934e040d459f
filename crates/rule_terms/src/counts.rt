//! How many cells a rule matches, and how many it makes.
ghost use Rattle.std.specs.Prelude.{◌≡◌, ℕ, ◌-◌, ◌^◌, min, cond, length, filter};
ghost use Rattle.std.specs.List.{flat_map};
ghost use Rattle.rule_terms.specs.Spots.{spots, spots_in, new_spots, has_mark as marked};
ghost use Rattle.rule_terms.specs.CellCounts.{spots_under, is_beside};

use crate::pattern::{Body, CellPat};
use crate::rule::Rule;

/// How many cells stand in a body, at any depth.
#[cycle(counting)]
fn cells_in(body: &Body) -> u32
    ensures { (above : ℕ) → result ≡ min (length (spots_in above body.now)) (2 ^ 32 - 1) }
{
    match body {
        Body::Cells(cells, _) => cells_among(cells.as_slice()),
        _ => 0,
    }
}

/// How many cells these are, with those in them.
#[cycle(counting)]
fn cells_among(cells: &[CellPat]) -> u32
    ensures { (above : ℕ) → result ≡ min (length (flat_map (spots_under above) cells.now)) (2 ^ 32 - 1) }
{
    let mut count: u32 = 0;
    for cell in cells {
        count = count.saturating_add(1).saturating_add(cells_in(&cell.body));
    }
    count
}

/// How many cells the left side of a rule has. A count above the greatest `u32` stays there.
pub fn left_cells(rule: &Rule) -> u32
    ensures { result ≡ min (length (spots rule.now.left)) (2 ^ 32 - 1) }
{
    cells_in(&rule.left.body).saturating_add(1)
}

/// Whether a cell with a mark stands in a body, at any depth.
#[cycle(marking)]
fn has_mark_in(body: &Body, mark: u32) -> bool
    ensures { (above : ℕ) → result ≡ marked (spots_in above body.now) mark }
{
    match body {
        Body::Cells(cells, _) => has_mark_among(cells.as_slice(), mark),
        _ => false,
    }
}

/// Whether one of these cells, or one in them, has a mark.
#[cycle(marking)]
fn has_mark_among(cells: &[CellPat], mark: u32) -> bool
    ensures { (above : ℕ) → result ≡ marked (flat_map (spots_under above) cells.now) mark }
{
    for cell in cells {
        if cell.mark == mark {
            return true;
        }
        if has_mark_in(&cell.body, mark) {
            return true;
        }
    }
    false
}

/// 1 where no cell of a side has a mark, and else 0.
fn one_beside(side: &CellPat, mark: u32) -> u32
    ensures { result ≡ cond (marked (spots side.now) mark) 0 1 }
{
    if side.mark == mark {
        return 0;
    }
    if has_mark_in(&side.body, mark) {
        return 0;
    }
    1
}

/// How many cells in a body have marks that no cell of a side has.
#[cycle(counting_new)]
fn new_in(body: &Body, side: &CellPat) -> u32
    ensures { (above : ℕ) → result ≡ min (length (filter (is_beside side.now) (spots_in above body.now))) (2 ^ 32 - 1) }
{
    match body {
        Body::Cells(cells, _) => new_among(cells.as_slice(), side),
        _ => 0,
    }
}

/// How many of these cells, and of those in them, have such marks.
#[cycle(counting_new)]
fn new_among(cells: &[CellPat], side: &CellPat) -> u32
    ensures { (above : ℕ)
        → result ≡ min (length (filter (is_beside side.now) (flat_map (spots_under above) cells.now))) (2 ^ 32 - 1) }
{
    let mut count: u32 = 0;
    for cell in cells {
        count = count
            .saturating_add(one_beside(side, cell.mark))
            .saturating_add(new_in(&cell.body, side));
    }
    count
}

/// How many cells a rule makes: those of its right side whose marks are not on the left. A count above the greatest
/// `u32` stays there.
pub fn new_cells(rule: &Rule) -> u32
    ensures { result ≡ min (length (new_spots rule.now)) (2 ^ 32 - 1) }
{
    one_beside(&rule.left, rule.right.mark).saturating_add(new_in(&rule.right.body, &rule.left))
}
