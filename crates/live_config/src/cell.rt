ghost use Rattle.std.specs.Prelude.{◌≡◌, IfOk};

use k_terms::{Content, Memory, copy, copy_pairs, copy_values};
use std::alloc::Global;

/// The number of a cell of a live configuration.
#[derive(Clone, Copy, Debug, PartialEq, Eq, PartialOrd, Ord)]
pub struct CellNo(pub u32);

/// A cell: the number of its declared cell, its parent, which the root alone lacks, and its content.
#[derive(Debug, Drop, PartialEq, Eq)]
pub struct Cell {
    pub kind: u32,
    pub parent: Option<CellNo>,
    pub content: Content,
}

/// An equal cell.
pub fn copy_cell(alloc: Global, cell: &Cell) -> Result<Cell, Memory>
    ensures ok { IfOk result (λ copy. copy ≡ cell.now) }
{
    Ok(Cell {
        kind: cell.kind,
        parent: cell.parent,
        content: copy_content(alloc, &cell.content)?,
    })
}

/// An equal content.
pub fn copy_content(alloc: Global, content: &Content) -> Result<Content, Memory>
    ensures ok { IfOk result (λ copy. copy ≡ content.now) }
{
    Ok(match content {
        Content::Cells => Content::Cells,
        Content::Seq(values) => Content::Seq(copy_values(alloc, values.as_slice())?),
        Content::Map(entries) => Content::Map(copy_pairs(alloc, entries.as_slice())?),
        Content::List(values) => Content::List(copy_values(alloc, values.as_slice())?),
        Content::One(value) => Content::One(copy(alloc, value)?),
    })
}
