ghost use Rattle.std.specs.Prelude.{◌≡◌, IfOk, IfErr};
ghost use Rattle.cell_completion.specs.Completion.{IsLeastCompletion, NoneMisplaced};
ghost use Rattle.cell_completion.specs.Listed.{AreDeclared, AreWritten};
ghost use Rattle.cell_completion.specs.Faults.{IsCompletionFault};

use crate::completing::completed;
use crate::misplaced::first_misplaced;
use crate::tree::{Tree, Written};
use rule_terms::CellShape;
use std::alloc::Global;

/// Why written cells have no completion.
#[derive(Clone, Copy, Debug, PartialEq, Eq)]
pub enum CompletionFault {
    /// A written cell of this declared cell, the first one of the text, is not declared in the cell that encloses it; or it
    /// is on one side alone, and neither repeated nor within a cell that is on one side alone.
    Misplaced { cell: u32 },
    /// There is no least completion.
    Unclear,
    /// Memory was wanting.
    Memory,
}

/// The least completion of written cells: the tree under the root in which they stand.
pub fn complete_cells(
    alloc: Global,
    shapes: &[CellShape],
    written: &[Written],
) -> Result<Tree, CompletionFault>
    requires tree { AreDeclared shapes.now }
    requires written { AreWritten shapes.now written.now }
    ensures ok { IfOk result (IsLeastCompletion shapes.now written.now) }
    ensures placed { IfOk result (λ _. NoneMisplaced shapes.now written.now) }
    ensures fault { IfErr result (IsCompletionFault shapes.now written.now) }
{
    if let Some(cell) = first_misplaced(shapes, written) {
        return Err(CompletionFault::Misplaced { cell });
    }
    match completed(alloc, shapes, written) {
        Ok(Some(tree)) => Ok(tree),
        Ok(None) => Err(CompletionFault::Unclear),
        Err(_) => Err(CompletionFault::Memory),
    }
}
