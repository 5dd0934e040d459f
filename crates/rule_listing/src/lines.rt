//! The lines of rules.
ghost use Rattle.std.specs.Prelude.{◌≡◌, ◌++◌, ◌+◌, IfOk, map, ℕ, codes};
ghost use Rattle.std.specs.List.{flat_map};
ghost use Rattle.std.specs.Arc.{arc_value};
ghost use Rattle.std.specs.Fmt.{decimal};
ghost use Rattle.rule_terms.specs.Spots.{Spot, spots, spots_in};
ghost use Rattle.printed_form.specs.Pieces.{joined_by};
ghost use Rattle.rule_listing.specs.Lines.{cells_of, cell_name, label_at, place_text as text_of_place, origin_text as text_of_origin, rule_line as line_of_rule, lines_from};

use grammar_terms::Grammar;
use k_terms::Memory;
use rule_terms::{Body, CellPat, CellShape, Origin, Rule};
use std::alloc::Global;
use std::sync::Arc;

/// Adds the declared cells of what stands in a body.
#[cycle(cells)]
fn add_inner(body: &Body, found: &mut Vec<u32>) -> Result<(), Memory>
    ensures { IfOk result (λ _. (above : ℕ) → found.new.items ≡ found.old.items ++ map (λ (p : Spot). p.cell) (spots_in above body.now)) }
{
    let Body::Cells(cells, _) = body else {
        return Ok(());
    };
    add_cells(cells.as_slice(), found)?;
    Ok(())
}

/// Adds the declared cell of a cell, and behind it those of what stands in it.
#[cycle(cells)]
fn add_cell(cell: &CellPat, found: &mut Vec<u32>) -> Result<(), Memory>
    ensures { IfOk result (λ _. found.new.items ≡ found.old.items ++ map (λ (p : Spot). p.cell) (spots cell.now)) }
{
    found.push(cell.cell)?;
    add_inner(&cell.body, found)
}

/// Adds the declared cells of cells.
#[cycle(cells)]
fn add_cells(cells: &[CellPat], found: &mut Vec<u32>) -> Result<(), Memory>
    ensures { IfOk result (λ _. found.new.items ≡ found.old.items ++ cells_of cells.now) }
{
    for cell in cells {
        add_cell(cell, found)?;
    }
    Ok(())
}

/// The declared cells of a side.
fn side_cells(alloc: Global, side: &CellPat) -> Result<Vec<u32>, Memory>
    ensures { IfOk result (λ found. found.items ≡ map (λ (p : Spot). p.cell) (spots side.now)) }
{
    let mut found = Vec::new(alloc);
    add_cell(side, &mut found)?;
    Ok(found)
}

/// The name of a declared cell.
fn name_of(cells: &[CellShape], cell: u32) -> &[u8]
    ensures { result.now ≡ cell_name cells.now cell }
{
    match cells.get(cell as usize) {
        Some(shape) => shape.name.as_slice(),
        None => &[],
    }
}

/// Adds the names of declared cells with commas between.
fn add_names(cells: &[CellShape], numbers: &[u32], line: &mut Vec<u8>) -> Result<(), Memory>
    ensures { IfOk result (λ _. line.new.items ≡ line.old.items ++ joined_by (codes ",") (map (cell_name cells.now) numbers.now)) }
{
    let Some((first, rest)) = numbers.split_first() else {
        return Ok(());
    };
    line.extend_from_slice(name_of(cells, *first))?;
    for number in rest {
        line.push(b',')?;
        line.extend_from_slice(name_of(cells, *number))?;
    }
    Ok(())
}

/// The label of a production.
fn label_of(grammar: &Grammar, prod: u32) -> &[u8]
    ensures { result.now ≡ label_at grammar.now prod }
{
    match grammar.label(prod) {
        Some(label) => label.as_slice(),
        None => &[],
    }
}

/// Adds a place of a production.
fn add_place(
    alloc: Global,
    word: &[u8],
    grammar: &Grammar,
    prod: u32,
    place: u32,
    line: &mut Vec<u8>,
) -> Result<(), Memory>
    ensures { IfOk result (λ _. line.new.items ≡ line.old.items ++ text_of_place word.now grammar.now prod place) }
{
    let number = format!(in alloc; " {place}")?;
    line.extend_from_slice(word)?;
    line.extend_from_slice(label_of(grammar, prod))?;
    line.extend_from_slice(number.as_bytes())?;
    Ok(())
}

/// Adds where a rule comes from.
fn add_origin(
    alloc: Global,
    grammar: &Grammar,
    cells: &[CellShape],
    rule: &Rule,
    line: &mut Vec<u8>,
) -> Result<(), Memory>
    ensures { IfOk result (λ _. line.new.items ≡ line.old.items ++ text_of_origin grammar.now cells.now rule.now.left rule.now.origin) }
{
    match rule.origin {
        Origin::Written { at: _ } => {
            let numbers = side_cells(alloc, &rule.left)?;
            line.extend_from_slice(b"rule ")?;
            add_names(cells, &numbers, line)
        }
        Origin::Heat { prod, place } => add_place(alloc, b"heat ", grammar, prod, place, line),
        Origin::Cool { prod, place } => add_place(alloc, b"cool ", grammar, prod, place, line),
    }
}

/// Adds the line of a rule with a number.
fn add_line(
    alloc: Global,
    grammar: &Grammar,
    cells: &[CellShape],
    number: usize,
    rule: &Rule,
    lines: &mut Vec<u8>,
) -> Result<(), Memory>
    ensures { IfOk result (λ _. lines.new.items ≡ lines.old.items ++ line_of_rule grammar.now cells.now number rule.now) }
{
    let number = format!(in alloc; "{number} ")?;
    lines.extend_from_slice(number.as_bytes())?;
    add_origin(alloc, grammar, cells, rule, lines)?;
    lines.push(b'\n')?;
    Ok(())
}

/// The lines of rules, numbered from 1: a line is the number, and `rule` with the names of the cells on its left side, an outer
/// cell before those in it, or `heat` or `cool` with the label of a production and the place of its argument.
pub fn rule_lines(
    alloc: Global,
    grammar: &Grammar,
    cells: &[CellShape],
    rules: &[Arc<Rule>],
) -> Result<Vec<u8>, Memory>
    ensures { IfOk result (λ lines. lines.items ≡ lines_from grammar.now cells.now 1 (map arc_value rules.now)) }
{
    let mut lines = Vec::new(alloc);
    let mut number: usize = 0;
    for rule in rules {
        number += 1;
        add_line(alloc, grammar, cells, number, rule, &mut lines)?;
    }
    Ok(lines)
}
