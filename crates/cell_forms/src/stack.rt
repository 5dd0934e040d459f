//! The cells that are open around the one that is read.
ghost use Rattle.std.specs.Prelude.{◌≡◌, ◌∷◌, [], OnOk, MatchOption};
ghost use Rattle.cell_forms.specs.Steps.{innermost, is_within};

use k_terms::{Memory, Text};
use std::alloc::Global;
use std::marker::Model;

/// A cell that holds cells and is open.
#[derive(Debug, Drop)]
pub(crate) struct Opening {
    pub(crate) number: usize,
    pub(crate) name: Text,
}

/// Open cells, of which the innermost can be taken out. Contracts see it first.
#[derive(Debug, Drop)]
pub(crate) struct Stack {
    cells: Vec<Opening>,
}

impl Model for Stack {
    ghost use Rattle.std.specs.Prelude.{List, reverse};
    ghost use Rattle.cell_forms.specs.declared.stack.Opening.{Opening};

    ghost Value = { List Opening };

    ghost view = { λ stack. reverse stack.cells.items };
}

impl Stack {
    pub(crate) fn new(alloc: Global) -> Stack
        ensures { result ≡ [] }
    {
        Stack {
            cells: Vec::new(alloc),
        }
    }

    /// Puts a cell inside all others.
    pub(crate) fn push(&mut self, cell: Opening) -> Result<(), Memory>
        ensures { OnOk result (self.new ≡ cell ∷ self.old) }
    {
        self.cells.push(cell)?;
        Ok(())
    }

    /// Takes the innermost cell out.
    pub(crate) fn pop(&mut self) -> Option<Opening>
        ensures { MatchOption result (self.old ≡ []) (λ cell. self.old ≡ cell ∷ self.new) }
    {
        self.cells.pop()
    }

    /// The number of the innermost cell.
    pub(crate) fn innermost(&self) -> Option<usize>
        ensures { result ≡ innermost self.now }
    {
        match self.cells.last() {
            Some(cell) => Some(cell.number),
            None => None,
        }
    }

    /// Whether the innermost cell has this name.
    pub(crate) fn is_within(&self, name: &Text) -> bool
        ensures { result ≡ is_within self.now name.now }
    {
        match self.cells.last() {
            Some(cell) => cell.name.as_slice() == name.as_slice(),
            None => false,
        }
    }
}
