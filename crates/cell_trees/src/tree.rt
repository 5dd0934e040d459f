ghost use Rattle.std.specs.Prelude.{◌≡◌, unwrap_or, length, option_copied};
ghost use Rattle.cell_trees.specs.Trees.{IsTree};
ghost use Rattle.cell_trees.specs.Initials.{held_at};
ghost use Rattle.cell_trees.specs.Defaults.{is_in as stands_in};

use crate::declared::Declared;
use k_terms::Many;
use rule_terms::CellShape;
use std::marker::Model;

/// The declared cells as a tree, in pre-order from cell 0, with what each of them declares. Their names differ, and the cell
/// `k` alone has the program.
#[derive(Debug, Drop)]
pub struct CellTree {
    shapes: Many<CellShape>,
    held: Many<Option<Declared>>,
    k: u32,
    sort: u32,
}

impl Model for CellTree {
    ghost use Rattle.std.specs.Coded.{codes};
    ghost use Rattle.k_terms.specs.contracts.value.Value as value;
    ghost use Rattle.cell_trees.specs.Trees.{Tree, IsTree};

    ghost Value = { Tree };

    ghost coded = { Prim.hlevel (codes, value.the_row.coded) };

    ghost view = { λ tree. record { shapes = tree.shapes; held = tree.held; k = tree.k; sort = tree.sort } };

    ghost invariant = { λ tree.
        IsTree record { shapes = tree.shapes; held = tree.held; k = tree.k; sort = tree.sort } };
}

impl CellTree {
    /// The tree with these cells, each with what it declares, and with the cell `k`, which has programs of a sort.
    pub fn new(shapes: Many<CellShape>, held: Many<Option<Declared>>, k: u32, sort: u32) -> CellTree
        requires { IsTree record { shapes = shapes; held = held; k = k; sort = sort } }
        ensures { result ≡ record { shapes = shapes; held = held; k = k; sort = sort } }
    {
        CellTree {
            shapes,
            held,
            k,
            sort,
        }
    }

    /// Does nothing: its contract is what every tree keeps.
    pub fn sound(&self)
        ensures { IsTree self.now }
    {
        let _ = &self.shapes;
    }

    pub fn shapes(&self) -> &[CellShape]
        ensures { result.now ≡ self.now.shapes }
    {
        self.shapes.as_slice()
    }

    /// The sort of programs.
    pub fn pgm_sort(&self) -> u32
        ensures { result ≡ self.now.sort }
    {
        self.sort
    }

    /// The declared cell `k`.
    pub fn cell_k(&self) -> u32
        ensures { result ≡ self.now.k }
    {
        self.k
    }

    /// What a declared cell declares. `None` where it contains cells.
    pub fn held(&self, cell: u32) -> Option<&Declared>
        ensures { option_copied result ≡ held_at self.now cell }
    {
        match self.held.get(cell as usize) {
            Some(Some(held)) => Some(held),
            _ => None,
        }
    }

    /// Is a declared cell directly in another?
    pub fn is_in(&self, parent: u32, cell: u32) -> bool
        ensures { result ≡ stands_in self.now parent cell }
    {
        match self.shapes.get(cell as usize) {
            Some(shape) => shape.parent == Some(parent),
            None => false,
        }
    }
}
