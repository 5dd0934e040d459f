//! The numbers of a site's cells, by the marks of the left cells that they stand for.
ghost use Rattle.std.specs.Prelude.{◌≡◌, ◌↔◌, map, IsTrue};
ghost use Rattle.std.specs.Option.{option_and_then};
ghost use Rattle.rule_terms.specs.Spots.{number_of as number_of_mark};
ghost use Rattle.rule_terms.specs.Numbers.{has_number, all_different as are_different};
ghost use Rattle.live_config.specs.Firing.{numbers_of};
ghost use Rattle.bag_map_match.specs.Lent.{listed, marks_of};

use crate::spots::Spot;
use rule_terms::CellPat;

/// The number of the cell with a mark.
pub(crate) fn number_of(spots: &[Spot<'_>], numbers: &[u32], mark: u32) -> Option<u32>
    ensures { result ≡ number_of_mark (listed spots.now) numbers.now mark }
{
    let Some((spot, spots)) = spots.split_first() else {
        return None;
    };
    let Some((number, numbers)) = numbers.split_first() else {
        return None;
    };
    if spot.mark == mark {
        return Some(*number);
    }
    number_of(spots, numbers, mark)
}

/// The number of the cell around a left cell.
pub(crate) fn number_above(spots: &[Spot<'_>], numbers: &[u32], above: Option<u32>) -> Option<u32>
    ensures { result ≡ option_and_then (number_of_mark (listed spots.now) numbers.now) above }
{
    match above {
        Some(mark) => number_of(spots, numbers, mark),
        None => None,
    }
}

/// Whether a number is that of one of these left cells.
pub(crate) fn is_named(spots: &[Spot<'_>], numbers: &[u32], cells: &[CellPat], number: u32) -> bool
    ensures { result ≡ has_number (numbers_of (listed spots.now) numbers.now (marks_of cells.now)) number }
{
    for cell in cells {
        if number_of(spots, numbers, cell.mark) == Some(number) {
            return true;
        }
    }
    false
}

/// Whether no number stands twice.
pub(crate) fn all_different(numbers: &[u32]) -> bool
    ensures { result ≡ are_different numbers.now }
{
    let Some((first, others)) = numbers.split_first() else {
        return true;
    };
    if has(others, *first) {
        return false;
    }
    all_different(others)
}

/// Whether a number is among these.
fn has(numbers: &[u32], number: u32) -> bool
    ensures { result ≡ has_number numbers.now number }
{
    numbers.iter().any(|other| *other == number)
}
