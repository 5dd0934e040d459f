//! The lines of the refusals of cells.
ghost use Rattle.std.specs.Prelude.{◌≡◌, ◌++◌, IfOk, codes};
ghost use Rattle.std.specs.Fmt.{decimal};
ghost use Rattle.krun.specs.Lines.{line_end, cell_refusal_line, unclear_line};

use crate::def_fault::{count_line, named_line, numbered_line};
use cell_config::CellRefusal;
use context_transform::CellsUnclear;
use k_terms::Memory;
use std::alloc::Global;

/// The line of a refusal of the configurations.
pub fn line_of_cell_refusal(alloc: Global, refusal: &CellRefusal) -> Result<Vec<u8>, Memory>
    ensures { IfOk result (λ line. line.items ≡ cell_refusal_line refusal.now) }
{
    match refusal {
        CellRefusal::TwoCells { name } => {
            named_line(alloc, "definition 22 TwoCells name=", name.as_slice())
        }
        CellRefusal::NoK => Ok(Vec::from_slice(alloc, b"definition 23 NoK\n")?),
        CellRefusal::CellContent { name } => {
            named_line(alloc, "definition 24 CellContent name=", name.as_slice())
        }
        CellRefusal::TooMany { what, n } => count_line(alloc, *what, *n),
        CellRefusal::Memory => Ok(Vec::new(alloc)),
    }
}

/// The line of a misplaced cell.
fn misplaced_line(alloc: Global, rule: u32, cell: &[u8]) -> Result<Vec<u8>, Memory>
    ensures { IfOk result (λ line. line.items ≡ codes "definition 26 CellMisplaced rule=" ++ decimal rule ++ codes " cell=" ++ cell.now ++ line_end) }
{
    let front = format!(in alloc; "definition 26 CellMisplaced rule={rule} cell=")?;
    let mut line = Vec::from_slice(alloc, front.as_bytes())?;
    line.extend_from_slice(cell)?;
    line.push(b'\n')?;
    Ok(line)
}

/// The line of a rule whose cells are not told.
pub fn line_of_unclear_cells(alloc: Global, refusal: &CellsUnclear) -> Result<Vec<u8>, Memory>
    ensures { IfOk result (λ line. line.items ≡ unclear_line refusal.now) }
{
    match refusal {
        CellsUnclear::CellMisplaced { rule, cell } => misplaced_line(alloc, *rule, cell.as_slice()),
        CellsUnclear::Unclear { rule } => {
            numbered_line(alloc, "definition 25 Unclear rule=", *rule as u64)
        }
        CellsUnclear::TooMany { what, n } => count_line(alloc, *what, *n),
        CellsUnclear::Memory => Ok(Vec::new(alloc)),
    }
}
