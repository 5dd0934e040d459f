use cell_config::CellRefusal;
use context_transform::{CellsUnclear, DefFault, Definition, assemble};
use k_terms::{Memory, Text};
use rule_terms::{Body, CellPat, CellShape, Rule};
use std::alloc::Global;
use std::str;
use std::test::Fail;

/// A repeated cell with the program, beside a single one.
const THREADS: &str = "module M syntax E ::= \"e\" | \"f\" E
  configuration <T> <ts> <t multiplicity=\"*\"> <k> $PGM:E </k> <env> .Map </env> </t> </ts> <mem> .Map </mem> </T>";

/// Three levels of repeated cells.
const LEVELS: &str = "module M syntax E ::= \"e\" | \"f\" E
  configuration <T> <a multiplicity=\"*\"> <b multiplicity=\"*\"> <c multiplicity=\"*\"> <k> $PGM:E </k> <d> .Map </d> </c> </b> </a> </T>";

fn str_of(text: &Text) -> &str {
    str::from_utf8(text.as_slice()).unwrap_or("(no text)")
}

fn name_of(cells: &[CellShape], cell: u32) -> &str {
    match cells.get(cell as usize) {
        Some(shape) => str_of(&shape.name),
        None => "(none)",
    }
}

/// Adds the cells in a body in parentheses, with a `+` behind them where it has a rest.
#[cycle(cells)]
fn add_body(cells: &[CellShape], body: &Body, line: &mut String) -> Result<(), Memory> {
    let Body::Cells(inside, rest) = body else {
        return Ok(());
    };
    line.push_str("(")?;
    add_cells(cells, inside.as_slice(), line)?;
    line.push_str(")")?;
    if rest.is_some() {
        line.push_str("+")?;
    }
    Ok(())
}

#[cycle(cells)]
fn add_cell(cells: &[CellShape], cell: &CellPat, line: &mut String) -> Result<(), Memory> {
    line.push_str(name_of(cells, cell.cell))?;
    add_body(cells, &cell.body, line)
}

#[cycle(cells)]
fn add_cells(cells: &[CellShape], inside: &[CellPat], line: &mut String) -> Result<(), Memory> {
    for cell in inside {
        add_cell(cells, cell, line)?;
        line.push_str(" ")?;
    }
    Ok(())
}

/// The cells of both sides of a rule.
fn rule_shown(alloc: Global, cells: &[CellShape], rule: &Rule) -> Result<String, Memory> {
    let mut line = String::new(alloc);
    add_cell(cells, &rule.left, &mut line)?;
    line.push_str(" => ")?;
    add_cell(cells, &rule.right, &mut line)?;
    Ok(line)
}

fn last_shown(alloc: Global, definition: &Definition) -> Result<String, Memory> {
    match definition.defs.rules().last() {
        Some(rule) => rule_shown(alloc, definition.tree.shapes(), rule),
        None => Ok(String::from_str(alloc, "no rule")?),
    }
}

fn unclear_shown(alloc: Global, fault: &CellsUnclear) -> Result<String, Memory> {
    match fault {
        CellsUnclear::CellMisplaced { rule, cell } => {
            Ok(format!(in alloc; "misplaced {rule} {}", str_of(cell))?)
        }
        CellsUnclear::Unclear { rule } => Ok(format!(in alloc; "unclear {rule}")?),
        CellsUnclear::TooMany { n, .. } => Ok(format!(in alloc; "too many {n}")?),
        CellsUnclear::Memory => Ok(String::from_str(alloc, "memory")?),
    }
}

fn fault_shown(alloc: Global, fault: &DefFault) -> Result<String, Memory> {
    match fault {
        DefFault::Complete(fault) => unclear_shown(alloc, fault),
        DefFault::Cell(CellRefusal::TwoCells { name }) => {
            Ok(format!(in alloc; "two cells {}", str_of(name))?)
        }
        DefFault::Cell(_) => Ok(String::from_str(alloc, "cells")?),
        DefFault::Strict(_) => Ok(String::from_str(alloc, "strict")?),
        DefFault::Rule(refusal) => Ok(format!(in alloc; "rule at {}", refusal.at)?),
        DefFault::TooMany { n, .. } => Ok(format!(in alloc; "{n} rules")?),
        DefFault::Memory => Ok(String::from_str(alloc, "memory")?),
        _ => Ok(String::from_str(alloc, "syntax")?),
    }
}

/// The cells of the last rule of a definition with these sentences, or its fault.
fn shown(alloc: Global, front: &str, sentences: &str) -> Result<String, Memory> {
    let text = format!(in alloc; "{front} {sentences} endmodule")?;
    match assemble(alloc, text.as_bytes()) {
        Ok(assembly) => last_shown(alloc, &assembly),
        Err(fault) => fault_shown(alloc, &fault),
    }
}

/// What else is shown than should be, and nothing where all is right.
fn otherwise(alloc: Global, front: &str, cases: &[(&str, &str)]) -> Result<String, Memory> {
    let mut line = String::new(alloc);
    for (sentences, wanted) in cases {
        let found = shown(alloc, front, sentences)?;
        if found.as_str() != *wanted {
            line.push_str(&format!(in alloc; "{sentences}: {found}; ")?)?;
        }
    }
    Ok(line)
}

const OVER_THREADS: [(&str, &str); 14] = [
    ("", "no rule"),
    // The front of `k`.
    ("rule e => f e", "T(ts(t(k )+ )+ )+ => T(ts(t(k )+ )+ )+"),
    // Two cells that one added parent serves.
    (
        "rule <k> e => . ...</k> <env> M:Map </env>",
        "T(ts(t(k env )+ )+ )+ => T(ts(t(k env )+ )+ )+",
    ),
    // Two that need one each.
    (
        "rule <k> e => . ...</k> <k> e ...</k>",
        "T(ts(t(k )+ t(k )+ )+ )+ => T(ts(t(k )+ t(k )+ )+ )+",
    ),
    // Whose cell `env` is isn't told.
    (
        "rule <k> e => . ...</k> <env> M:Map </env> <k> e ...</k>",
        "unclear 1",
    ),
    (
        "rule e => f e rule <env> M:Map </env> <env> N:Map </env> <k> e ...</k>",
        "unclear 2",
    ),
    (
        "rule <k> e => . ...</k> <mem> M:Map </mem>",
        "T(ts(t(k )+ )+ mem )+ => T(ts(t(k )+ )+ mem )+",
    ),
    // A new cell gets the declared cells that it doesn't write.
    (
        "rule <k> e => . ...</k> (.Bag => <t> <k> e </k> </t>)",
        "T(ts(t(k )+ )+ )+ => T(ts(t(k )+ t(k env ) )+ )+",
    ),
    // A removed one has those that it matches.
    (
        "rule <k> e => . ...</k> (<t>... <k> f e </k> ...</t> => .Bag)",
        "T(ts(t(k )+ t(k )+ )+ )+ => T(ts(t(k )+ )+ )+",
    ),
    // A cell below the wrong one.
    ("rule <t> <mem> M:Map </mem> ...</t>", "misplaced 1 mem"),
    // A single cell that comes alone.
    (
        "rule <k> e ...</k> (.Bag => <env> .Map </env>)",
        "misplaced 1 env",
    ),
    // Cells are tested before rules, and strict productions before both.
    (
        "configuration <k> $PGM:E </k> rule x y z => . rule <t> <mem> .Map </mem> </t>",
        "two cells k",
    ),
    (
        "syntax F ::= g(F) [strict(2)] configuration <k> $PGM:E </k>",
        "strict",
    ),
    // Rule by rule.
    (
        "rule <t> <mem> M:Map </mem> ...</t> rule x y z => .",
        "misplaced 1 mem",
    ),
];

const OVER_LEVELS: [(&str, &str); 6] = [
    (
        "rule e => f e",
        "T(a(b(c(k )+ )+ )+ )+ => T(a(b(c(k )+ )+ )+ )+",
    ),
    // Two cells of one declared cell in added parents of their own, within shared ones.
    (
        "rule <k> e => . ...</k> <k> f e ...</k>",
        "T(a(b(c(k )+ c(k )+ )+ )+ )+ => T(a(b(c(k )+ c(k )+ )+ )+ )+",
    ),
    // Two repeated cells that one added parent serves.
    (
        "rule <c>... <k> e => . ...</k> ...</c> <c>... <k> f e ...</k> ...</c>",
        "T(a(b(c(k )+ c(k )+ )+ )+ )+ => T(a(b(c(k )+ c(k )+ )+ )+ )+",
    ),
    // A removed cell within a repeated one, and a new one.
    (
        "rule <b>... (<c>... <k> e ...</k> ...</c> => .Bag) ...</b>",
        "T(a(b(c(k )+ )+ )+ )+ => T(a(b()+ )+ )+",
    ),
    (
        "rule <b>... <c>... <k> e => . ...</k> ...</c> (.Bag => <c> </c>) ...</b>",
        "T(a(b(c(k )+ )+ )+ )+ => T(a(b(c(k )+ c(k d ) )+ )+ )+",
    ),
    (
        "rule <b>... <k> e => . ...</k> (.Bag => <c> <k> f e </k> </c>) ...</b>",
        "T(a(b(c(k )+ )+ )+ )+ => T(a(b(c(k )+ c(k d ) )+ )+ )+",
    ),
];

#[test]
fn completes_rules(rt: HostRuntime) -> Result<(), Fail> {
    let alloc = rt.alloc();
    assert_eq!(rt; otherwise(alloc, THREADS, &OVER_THREADS)?.as_str(), "");
    assert_eq!(rt; otherwise(alloc, LEVELS, &OVER_LEVELS)?.as_str(), "");
    Ok(())
}
