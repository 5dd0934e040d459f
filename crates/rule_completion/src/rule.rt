//! The rule of a draft and its completion.
ghost use Rattle.std.specs.Prelude.{◌≡◌, ◌+◌, ◌<◌, ◌++◌, ◌∷◌, [], ◌^◌, length, replicate, IfOk, IsTrue, true, false};
ghost use Rattle.k_terms.specs.Sorts.{sort_bag};
ghost use Rattle.rule_completion.specs.Numbering.{is_few, count};
ghost use Rattle.rule_completion.specs.Completed.{on_side, IsCompletedBy, HasRoot};

use crate::numbering::count_added;
use crate::side::{Side, add_tree};
use cell_completion::Tree;
use cell_trees::CellTree;
use k_terms::{Many, Memory, sort};
use rule_terms::{CellPat, Draft, Rule, copy_conditions};
use std::alloc::Global;

/// No rule has so many variables that a number of one wouldn't fit a `u32`.
const MOST: u32 = 1 << 31;

/// The sorts of the variables of a draft, and those of the rests of added cells.
fn vars_of(alloc: Global, vars: &[u32], total: u32) -> Result<Many<u32>, Memory>
    ensures { IfOk result (λ all. all ≡ vars.now ++ replicate total sort_bag) }
{
    let mut all = Vec::from_slice(alloc, vars)?;
    for _ in 0..total {
        all.push(sort::BAG)?;
    }
    Ok(Many::from_vec(all))
}

/// The root of a side.
fn root_of(alloc: Global, side: &Side<'_>, whole: &Tree) -> Result<CellPat, Memory>
    requires few { IsTrue (is_few whole.now) }
    requires total { side.now.total < 2 ^ 31 }
    requires counted { side.now.total ≡ count whole.now }
    requires vars { length side.now.draft.now.vars + side.now.total < 2 ^ 32 }
    requires root { HasRoot side.now.tree.now side.now.draft.now side.now.is_left whole.now }
    ensures { IfOk result (λ root. on_side side.now.tree.now side.now.draft.now (count whole.now) side.now.is_left 0 whole.now ≡ root ∷ []) }
{
    let mut cells = Vec::new(alloc);
    add_tree(whole, side, alloc, 0, &mut cells)?;
    match cells.pop() {
        Some(root) => Ok(root),
        None => unreachable!(),
    }
}

/// The rule of a draft and its completion.
pub(crate) fn rule_of(
    alloc: Global,
    tree: &CellTree,
    draft: &Draft,
    whole: &Tree,
) -> Result<Rule, Memory>
    requires few { IsTrue (is_few whole.now) }
    requires left { HasRoot tree.now draft.now true whole.now }
    requires right { HasRoot tree.now draft.now false whole.now }
    ensures { IfOk result (IsCompletedBy tree.now draft.now whole.now) }
{
    let total = count_added(whole);
    if total >= MOST || draft.vars.len() >= MOST as usize {
        return Err(Memory);
    }
    let left = Side {
        tree,
        draft,
        total,
        is_left: true,
    };
    let right = Side {
        is_left: false,
        ..left
    };
    Ok(Rule {
        origin: draft.origin,
        vars: vars_of(alloc, draft.vars.as_slice(), total)?,
        left: root_of(alloc, &left, whole)?,
        right: root_of(alloc, &right, whole)?,
        when: copy_conditions(alloc, draft.when.as_slice())?,
    })
}
