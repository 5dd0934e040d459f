//! Cells of a draft by their marks.
ghost use Rattle.std.specs.Prelude.{◌≡◌, ℕ, option_copied};
ghost use Rattle.std.specs.List.{flat_map};
ghost use Rattle.rule_terms.specs.Spots.{spots_in};
ghost use Rattle.rule_terms.specs.CellCounts.{spots_under};
ghost use Rattle.live_config.specs.Footprint.{body_of_mark};
ghost use Rattle.strictness.specs.SoundDrafts.{spots_of};

use rule_terms::{Body, CellPat};

/// What stands in the first cell with a mark in a body, at any depth.
#[cycle(finding)]
fn find_inside(body: &Body, mark: u32) -> Option<&Body>
    ensures { (above : ℕ) → option_copied result ≡ body_of_mark (spots_in above body.now) mark }
{
    match body {
        Body::Cells(cells, _) => find_among(cells.as_slice(), mark),
        _ => None,
    }
}

/// What stands in the first of these cells, or of those in them, that has a mark.
#[cycle(finding)]
fn find_among(cells: &[CellPat], mark: u32) -> Option<&Body>
    ensures { (above : ℕ) → option_copied result ≡ body_of_mark (flat_map (spots_under above) cells.now) mark }
{
    for cell in cells {
        if cell.mark == mark {
            return Some(&cell.body);
        }
        if let Some(found) = find_inside(&cell.body, mark) {
            return Some(found);
        }
    }
    None
}

/// What stands in the cell of a forest with a mark.
pub(crate) fn body_at(forest: &[CellPat], mark: u32) -> Option<&Body>
    ensures { option_copied result ≡ body_of_mark (spots_of forest.now) mark }
{
    find_among(forest, mark)
}
