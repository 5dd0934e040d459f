//! How many cells are added, and the marks of what a completion adds.
ghost use Rattle.std.specs.Prelude.{◌≡◌, ◌-◌, ◌+◌, ◌<◌, ◌^◌, min};
ghost use Rattle.rule_completion.specs.Numbering.{mark_limit, own_count, count, added_mark as mark_of, default_marks as marks_of};

use cell_completion::Tree;

/// The marks of a draft are below this number.
const MARKS: u32 = 1024;

/// There are at most so many declared cells.
const CELLS: u32 = 64;

/// 1 where the cell of a tree is added, and else 0.
fn own(tree: &Tree) -> u32
    ensures { result ≡ own_count tree.now }
{
    match tree.mark {
        None => 1,
        Some(_) => 0,
    }
}

/// How many cells of a tree are added. A count above the greatest `u32` stays there.
pub(crate) fn count_added(tree: &Tree) -> u32
    ensures { result ≡ min (count tree.now) (2 ^ 32 - 1) }
{
    let mut found = own(tree);
    for inner in tree.inside.as_slice() {
        found = found.saturating_add(count_added(inner));
    }
    found
}

/// The mark of an added cell.
pub(crate) fn added_mark(number: u32) -> u32
    requires { number < 2 ^ 31 }
    ensures { result ≡ mark_of number }
{
    MARKS + number
}

/// The marks of the declared cells that are filled into a new one are above this number.
pub(crate) fn default_marks(total: u32, mark: u32) -> u32
    requires total { total < 2 ^ 31 }
    requires mark { mark < mark_limit }
    ensures { result ≡ marks_of total mark }
{
    MARKS + total + mark * CELLS
}
