//! The cells of a completion that are on a side of its rule.
ghost use Rattle.std.specs.Prelude.{◌≡◌, ◌+◌, ◌<◌, ◌≤◌, ◌++◌, ◌^◌, length, IfOk, OnOk, IsTrue};
ghost use Rattle.std.specs.List.{list_all};
ghost use Rattle.rule_completion.specs.Numbering.{mark_limit, is_few, count, count_all};
ghost use Rattle.rule_completion.specs.Completed as completed;

use crate::filling::with_defaults;
use crate::finding::body_at;
use crate::numbering::{added_mark, count_added, default_marks};
use cell_completion::Tree;
use cell_trees::CellTree;
use k_terms::{Many, Memory};
use rule_terms::{Body, CellPat, Draft, copy_body};
use std::alloc::Global;

/// A side of the rule that a draft is completed to, by a completion with so many added cells.
#[derive(Clone, Copy)]
pub(crate) struct Side<'a> {
    pub(crate) tree: &'a CellTree,
    pub(crate) draft: &'a Draft,
    pub(crate) total: u32,
    pub(crate) is_left: bool,
}

/// A body with these cells in it, where it contains cells.
fn with_inside(alloc: Global, body: &Body, inside: Many<CellPat>) -> Result<Body, Memory>
    ensures { IfOk result (λ found. found ≡ completed.with_inside body.now inside) }
{
    match body {
        Body::Cells(_, rest) => Ok(Body::Cells(inside, *rest)),
        _ => copy_body(alloc, body),
    }
}

impl Side<'_> {
    /// What the draft has on this side.
    fn forest(&self) -> &[CellPat]
        ensures { result.now ≡ completed.forest self.now.draft.now self.now.is_left }
    {
        if self.is_left {
            return self.draft.left.as_slice();
        }
        self.draft.right.as_slice()
    }

    /// Is a cell new?
    fn is_new(&self, mark: u32) -> bool
        ensures { result ≡ completed.is_new_mark self.now.draft.now self.now.is_left mark }
    {
        !self.is_left && body_at(self.draft.left.as_slice(), mark).is_none()
    }

    /// The cells in a written cell that are on this side, with those that are missing in a new one.
    fn filled(
        &self,
        alloc: Global,
        mark: u32,
        cell: u32,
        inside: Many<CellPat>,
    ) -> Result<Many<CellPat>, Memory>
        requires few { mark < mark_limit }
        requires total { self.now.total < 2 ^ 31 }
        ensures { IfOk result (λ cells. cells ≡ completed.inside_of self.now.tree.now self.now.draft.now self.now.total self.now.is_left mark cell inside) }
    {
        if self.is_new(mark) {
            let more = default_marks(self.total, mark);
            return with_defaults(alloc, self.tree, more, cell, inside.as_slice());
        }
        Ok(inside)
    }

    /// Adds an added cell, with these cells in it.
    fn add_added(
        &self,
        number: u32,
        cell: u32,
        inside: Many<CellPat>,
        cells: &mut Vec<CellPat>,
    ) -> Result<(), Memory>
        requires few { number < 2 ^ 31 }
        requires vars { length self.now.draft.now.vars + number < 2 ^ 32 }
        ensures { OnOk result (cells.new.items ≡ cells.old.items ++ completed.added_cell self.now.draft.now number cell inside) }
    {
        let rest = self.draft.vars.len() as u32 + number;
        cells.push(CellPat {
            cell,
            mark: added_mark(number),
            body: Body::Cells(inside, Some(rest)),
        })?;
        Ok(())
    }

    /// Adds a written cell, with these cells in it, where it is on this side.
    fn add_written(
        &self,
        alloc: Global,
        mark: u32,
        cell: u32,
        inside: Many<CellPat>,
        cells: &mut Vec<CellPat>,
    ) -> Result<(), Memory>
        requires few { mark < mark_limit }
        requires total { self.now.total < 2 ^ 31 }
        ensures { OnOk result (cells.new.items ≡ cells.old.items ++ completed.written_cell self.now.tree.now self.now.draft.now self.now.total self.now.is_left mark cell inside) }
    {
        let Some(body) = body_at(self.forest(), mark) else {
            return Ok(());
        };
        let inside = self.filled(alloc, mark, cell, inside)?;
        let body = with_inside(alloc, body, inside)?;
        cells.push(CellPat { cell, mark, body })?;
        Ok(())
    }
}

/// Adds the cell that a tree is on a side, where it is on it, with the added ones numbered from a number on.
#[cycle(siding)]
pub(crate) fn add_tree(
    tree: &Tree,
    side: &Side<'_>,
    alloc: Global,
    number: u32,
    cells: &mut Vec<CellPat>,
) -> Result<(), Memory>
    requires few { IsTrue (is_few tree.now) }
    requires total { side.now.total < 2 ^ 31 }
    requires numbers { number + count tree.now ≤ side.now.total }
    requires vars { length side.now.draft.now.vars + side.now.total < 2 ^ 32 }
    ensures { OnOk result (cells.new.items ≡ cells.old.items ++ completed.on_side side.now.tree.now side.now.draft.now side.now.total side.now.is_left number tree.now) }
{
    match tree.mark {
        None => {
            let inside = trees_on(tree.inside.as_slice(), side, alloc, number + 1)?;
            side.add_added(number, tree.cell, inside, cells)?;
            Ok(())
        }
        Some(mark) => {
            let inside = trees_on(tree.inside.as_slice(), side, alloc, number)?;
            side.add_written(alloc, mark, tree.cell, inside, cells)?;
            Ok(())
        }
    }
}

/// The cells that trees are on a side.
#[cycle(siding)]
fn trees_on(
    trees: &[Tree],
    side: &Side<'_>,
    alloc: Global,
    number: u32,
) -> Result<Many<CellPat>, Memory>
    requires few { IsTrue (list_all is_few trees.now) }
    requires total { side.now.total < 2 ^ 31 }
    requires numbers { number + count_all trees.now ≤ side.now.total }
    requires vars { length side.now.draft.now.vars + side.now.total < 2 ^ 32 }
    ensures { IfOk result (λ cells. cells ≡ completed.all_on_side side.now.tree.now side.now.draft.now side.now.total side.now.is_left number trees.now) }
{
    let mut cells = Vec::new(alloc);
    let mut next = number;
    for tree in trees {
        add_tree(tree, side, alloc, next, &mut cells)?;
        next += count_added(tree);
    }
    Ok(Many::from_vec(cells))
}
