//! Copies of rules.
ghost use Rattle.std.specs.Prelude.{◌≡◌, IfOk};

use crate::pattern::{Body, CellPat, Pattern};
use crate::rule::{Cond, Rule};
use k_terms::{Many, Memory, copy};
use std::alloc::Global;

/// A copy of a pattern.
#[cycle(copying_patterns)]
fn copy_pattern(alloc: Global, pattern: &Pattern) -> Result<Pattern, Memory>
    ensures { IfOk result (λ copy. copy ≡ pattern.now) }
{
    Ok(match pattern {
        Pattern::Var(variable) => Pattern::Var(*variable),
        Pattern::Lit(value) => Pattern::Lit(copy(alloc, value)?),
        Pattern::Node(prod, parts) => Pattern::Node(*prod, copy_patterns(alloc, parts.as_slice())?),
        Pattern::Items(prod, parts, rest) => {
            Pattern::Items(*prod, copy_patterns(alloc, parts.as_slice())?, *rest)
        }
        Pattern::Seq(parts, rest) => Pattern::Seq(copy_patterns(alloc, parts.as_slice())?, *rest),
        Pattern::Freezer(prod, hole, parts) => {
            Pattern::Freezer(*prod, *hole, copy_patterns(alloc, parts.as_slice())?)
        }
        Pattern::Apply(op, parts) => Pattern::Apply(*op, copy_patterns(alloc, parts.as_slice())?),
    })
}

/// Copies of patterns.
#[cycle(copying_patterns)]
fn copy_patterns(alloc: Global, patterns: &[Pattern]) -> Result<Many<Pattern>, Memory>
    ensures { IfOk result (λ copies. copies ≡ patterns.now) }
{
    let mut copies = Vec::with_capacity(alloc, patterns.len())?;
    for pattern in patterns {
        copies.push(copy_pattern(alloc, pattern)?)?;
    }
    Ok(Many::from_vec(copies))
}

/// A copy of the entries of a map.
fn copy_entries(
    alloc: Global,
    entries: &[(Pattern, Pattern)],
) -> Result<Many<(Pattern, Pattern)>, Memory>
    ensures { IfOk result (λ copies. copies ≡ entries.now) }
{
    let mut copies = Vec::with_capacity(alloc, entries.len())?;
    for (key, value) in entries {
        copies.push((copy_pattern(alloc, key)?, copy_pattern(alloc, value)?))?;
    }
    Ok(Many::from_vec(copies))
}

/// A copy of a body.
#[cycle(copying_cells)]
pub fn copy_body(alloc: Global, body: &Body) -> Result<Body, Memory>
    ensures { IfOk result (λ copy. copy ≡ body.now) }
{
    Ok(match body {
        Body::Cells(cells, rest) => Body::Cells(copy_cells(alloc, cells.as_slice())?, *rest),
        Body::Seq(parts, rest) => Body::Seq(copy_patterns(alloc, parts.as_slice())?, *rest),
        Body::Map(entries, rest) => Body::Map(copy_entries(alloc, entries.as_slice())?, *rest),
        Body::List(before, rest, after) => Body::List(
            copy_patterns(alloc, before.as_slice())?,
            *rest,
            copy_patterns(alloc, after.as_slice())?,
        ),
        Body::One(pattern) => Body::One(copy_pattern(alloc, pattern)?),
        Body::Made(pattern) => Body::Made(copy_pattern(alloc, pattern)?),
    })
}

/// A copy of a cell of a side.
#[cycle(copying_cells)]
pub fn copy_cell(alloc: Global, cell: &CellPat) -> Result<CellPat, Memory>
    ensures { IfOk result (λ copy. copy ≡ cell.now) }
{
    Ok(CellPat {
        cell: cell.cell,
        mark: cell.mark,
        body: copy_body(alloc, &cell.body)?,
    })
}

/// Copies of cells.
#[cycle(copying_cells)]
fn copy_cells(alloc: Global, cells: &[CellPat]) -> Result<Many<CellPat>, Memory>
    ensures { IfOk result (λ copies. copies ≡ cells.now) }
{
    let mut copies = Vec::with_capacity(alloc, cells.len())?;
    for cell in cells {
        copies.push(copy_cell(alloc, cell)?)?;
    }
    Ok(Many::from_vec(copies))
}

/// A copy of a condition.
fn copy_condition(alloc: Global, condition: &Cond) -> Result<Cond, Memory>
    ensures { IfOk result (λ copy. copy ≡ condition.now) }
{
    Ok(match condition {
        Cond::Holds(pattern) => Cond::Holds(copy_pattern(alloc, pattern)?),
        Cond::IsSort(variable, sort) => Cond::IsSort(*variable, *sort),
        Cond::NotSort(variable, sort) => Cond::NotSort(*variable, *sort),
    })
}

/// Copies of conditions.
pub fn copy_conditions(alloc: Global, conditions: &[Cond]) -> Result<Many<Cond>, Memory>
    ensures { IfOk result (λ copies. copies ≡ conditions.now) }
{
    let mut copies = Vec::with_capacity(alloc, conditions.len())?;
    for condition in conditions {
        copies.push(copy_condition(alloc, condition)?)?;
    }
    Ok(Many::from_vec(copies))
}

/// A copy of a rule.
pub fn copy_rule(alloc: Global, rule: &Rule) -> Result<Rule, Memory>
    ensures { IfOk result (λ copy. copy ≡ rule.now) }
{
    Ok(Rule {
        origin: rule.origin,
        vars: Many::from_vec(Vec::from_slice(alloc, rule.vars.as_slice())?),
        left: copy_cell(alloc, &rule.left)?,
        right: copy_cell(alloc, &rule.right)?,
        when: copy_conditions(alloc, rule.when.as_slice())?,
    })
}
