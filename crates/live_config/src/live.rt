ghost use Rattle.std.specs.Prelude.{◌≡◌, ◌↔◌, ℕ, ◌+◌, ◌-◌, ◌<◌, ◌≤◌, ◌^◌, min, [], length, drop, Some, None, option_copied, IsSome, IsTrue, IfOk, IfErr, OnOk, OnErr, map};
ghost use Rattle.std.specs.Ordering.{nat_cmp};
ghost use Rattle.std.specs.FinMap.{is_sorted};
ghost use Rattle.live_config.specs.Configuration.{cell_at, first_number, below, level_limit};
ghost use Rattle.live_config.specs.Configuration.{plain as plain_of, tree as tree_of, no_cell as no_cell_of};
ghost use Rattle.live_config.specs.Live.{with_cell, without, IsPlaceOf, IsGapFor, cells_past, children_past, has_parent, number_of_cell};

use crate::cell::{Cell, CellNo, copy_cell, copy_content};
use k_terms::{Content, Many, Memory};
use rule_terms::Plain;
use std::alloc::Global;
use std::marker::Model;
use std::mem;

/// No cell of a configuration that fits a definition lies deeper than this.
const LEVELS: u32 = 64;

/// A live configuration: cells by their numbers. Contracts see beside the cells for how many more there is room.
#[derive(Debug, Drop)]
pub struct Live {
    cells: Vec<(u32, Cell)>,
}

impl Model for Live {
    ghost use Rattle.std.specs.Prelude.{◌-◌, length, IsTrue};
    ghost use Rattle.std.specs.Coded.{codes};
    ghost use Rattle.std.specs.Vec.{vec_capacity};
    ghost use Rattle.std.specs.Ordering.{nat_cmp};
    ghost use Rattle.std.specs.FinMap.{is_sorted};
    ghost use Rattle.live_config.specs.contracts.cell.Cell as cell;
    ghost use Rattle.live_config.specs.Live.{LiveState};

    ghost Value = { LiveState };

    ghost coded = { Prim.hlevel (codes, cell.the_row.coded) };

    ghost view = { λ live. record { now = record { cells = live.cells.items }; spare = vec_capacity live.cells - length live.cells.items } };

    ghost invariant = { λ live. IsTrue (is_sorted nat_cmp live.cells.items) };
}

impl Live {
    /// A configuration without cells.
    pub fn new(alloc: Global) -> Live
        ensures { result.now ≡ record { cells = [] } }
    {
        Live {
            cells: Vec::new(alloc),
        }
    }

    /// The number of cells; it stays at the greatest `u32` where there are more.
    pub fn size(&self) -> u32
        ensures size { result ≡ min (length self.now.now.cells) (2 ^ 32 - 1) }
        ensures rising { IsTrue (is_sorted nat_cmp self.now.now.cells) }
    {
        u32::try_from(self.cells.len()).unwrap_or(u32::MAX)
    }

    /// The cell with a number.
    pub fn cell(&self, id: CellNo) -> Option<&Cell>
        ensures { option_copied result ≡ cell_at self.now.now id.0 }
    {
        match self.place(id.0) {
            Ok(at) => Some(&self.cells[at].1),
            Err(_) => None,
        }
    }

    /// An equal configuration, with its contents copied.
    pub fn view(&self, alloc: Global) -> Result<Live, Memory>
        ensures ok { IfOk result (λ view. view.now ≡ self.now.now) }
    {
        let mut cells = Vec::with_capacity(alloc, self.cells.len())?;
        for (number, cell) in &self.cells {
            cells.push((*number, copy_cell(alloc, cell)?))?;
        }
        Ok(Live { cells })
    }

    /// The configuration without its numbers.
    pub fn plain(&self, alloc: Global) -> Result<Plain, Memory>
        ensures ok { IfOk result (λ tree. tree ≡ plain_of self.now.now) }
    {
        match self.next_child(None, None) {
            Some(root) => self.tree(alloc, LEVELS, root.0),
            None => Ok(no_cell(alloc)),
        }
    }

    /// A cell and all below it, down to so many levels.
    #[cycle(growing)]
    fn tree(&self, alloc: Global, levels: u32, number: u32) -> Result<Plain, Memory>
        ensures ok { IfOk result (λ tree. tree ≡ tree_of levels self.now.now number) }
    {
        if levels == 0 {
            return Ok(no_cell(alloc));
        }
        match self.cell(CellNo(number)) {
            Some(cell) => Ok(Plain {
                cell: cell.kind,
                content: copy_content(alloc, &cell.content)?,
                children: self.trees_below(alloc, levels - 1, number)?,
            }),
            None => Ok(no_cell(alloc)),
        }
    }

    /// The children of a cell with all below them, down to so many levels.
    #[cycle(growing)]
    fn trees_below(&self, alloc: Global, levels: u32, number: u32) -> Result<Many<Plain>, Memory>
        ensures ok { IfOk result (λ trees. trees ≡ map (tree_of levels self.now.now) (below self.now.now number)) }
    {
        let mut trees = Vec::new(alloc);
        for (child, cell) in &self.cells {
            if is_child(cell, Some(CellNo(number))) {
                trees.push(self.tree(alloc, levels, *child)?)?;
            }
        }
        Ok(Many::from_vec(trees))
    }

    /// Makes room for `births` more cells. An `Err` too leaves the configuration as it was.
    pub fn room(&mut self, births: u32) -> Result<(), Memory>
        ensures now { self.new.now ≡ self.old.now }
        ensures ok { OnOk result (births ≤ self.new.spare) }
        ensures spare { self.old.spare ≤ self.new.spare }
        ensures full { OnErr result (self.old.spare < births) }
    {
        self.cells.reserve(births as usize)?;
        Ok(())
    }

    /// Puts a cell at a number, and hands back the cell that it replaces. A new number takes one of the room.
    pub fn put(&mut self, id: CellNo, cell: Cell) -> Option<Cell>
        requires room { cell_at self.old.now id.0 ≡ None → 1 ≤ self.old.spare }
        ensures old { result ≡ cell_at self.old.now id.0 }
        ensures now { self.new.now ≡ with_cell self.old.now id.0 cell }
        ensures replaced { IsSome result → self.new.spare ≡ self.old.spare }
        ensures added { result ≡ None → self.new.spare + 1 ≡ self.old.spare }
    {
        match self.place(id.0) {
            Ok(at) => Some(mem::replace(&mut self.cells[at].1, cell)),
            Err(at) => match self.cells.insert(at, (id.0, cell)) {
                Ok(()) => None,
                Err(_) => unreachable!(),
            },
        }
    }

    /// Takes the cell with a number out.
    pub fn take(&mut self, id: CellNo) -> Option<Cell>
        ensures old { result ≡ cell_at self.old.now id.0 }
        ensures now { self.new.now ≡ without self.old.now id.0 }
        ensures spare { self.old.spare ≤ self.new.spare }
    {
        match self.place(id.0) {
            Ok(at) => Some(self.cells.remove(at).1),
            Err(_) => None,
        }
    }

    /// The least number of a cell, or, with `after`, the least greater one.
    pub fn next_cell(&self, after: Option<CellNo>) -> Option<CellNo>
        ensures { number_of_cell result ≡ first_number (cells_past self.now.now (number_of_cell after)) }
    {
        match self.past(after).first() {
            Some((number, _)) => Some(CellNo(*number)),
            None => None,
        }
    }

    /// The least number of a cell with exactly this parent, or, with `after`, the least greater one.
    pub fn next_child(&self, parent: Option<CellNo>, after: Option<CellNo>) -> Option<CellNo>
        ensures { number_of_cell result ≡ first_number (children_past self.now.now (number_of_cell parent) (number_of_cell after)) }
    {
        for (number, cell) in self.past(after) {
            if is_child(cell, parent) {
                return Some(CellNo(*number));
            }
        }
        None
    }

    /// The cells with greater numbers.
    fn past(&self, after: Option<CellNo>) -> &[(u32, Cell)]
        ensures { result.now ≡ cells_past self.now.now (number_of_cell after) }
    {
        match after {
            Some(id) => &self.cells[self.first_past(id.0)..],
            None => &self.cells,
        }
    }

    /// The place of the first cell with a greater number.
    fn first_past(&self, number: u32) -> usize
        ensures within { result ≤ length self.now.now.cells }
        ensures past { drop result self.now.now.cells ≡ cells_past self.now.now (Some number) }
    {
        self.cells.partition_point(|entry| entry.0 <= number)
    }

    /// Where the cell with a number is, or where it would go.
    fn place(&self, number: u32) -> Result<usize, usize>
        ensures found { IfOk result (IsPlaceOf self.now.now.cells number) }
        ensures absent { IfErr result (IsGapFor self.now.now.cells number) }
        ensures rising { IsTrue (is_sorted nat_cmp self.now.now.cells) }
    {
        self.cells.binary_search_by_key(&number, |entry| entry.0)
    }
}

/// Stands for a cell that is not there.
fn no_cell(alloc: Global) -> Plain
    ensures { result ≡ no_cell_of }
{
    Plain {
        cell: 0,
        content: Content::Cells,
        children: Many::new(alloc),
    }
}

/// Whether a cell has exactly this parent.
fn is_child(cell: &Cell, parent: Option<CellNo>) -> bool
    ensures { result ≡ has_parent (number_of_cell parent) cell.now }
{
    cell.parent == parent
}

/// Whether two configurations have equal cells at the same numbers.
pub fn equal_live(a: &Live, b: &Live) -> bool
    ensures { IsTrue result ↔ (a.now.now ≡ b.now.now) }
{
    a.cells == b.cells
}
