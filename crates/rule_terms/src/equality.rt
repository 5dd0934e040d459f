//! Whether rules, and whole definitions, are equal.
ghost use Rattle.std.specs.Prelude.{◌≡◌, ◌↔◌, IsTrue, map};
ghost use Rattle.std.specs.Arc.{arc_value};

use crate::defs::{CellShape, Defs};
use crate::rule::Rule;
use k_terms::{Sorts, Text};
use std::sync::Arc;

/// Whether two rules are equal in all of their parts, their origins too.
pub fn equal_rule(a: &Rule, b: &Rule) -> bool
    ensures { IsTrue result ↔ (a.now ≡ b.now) }
{
    *a == *b
}

fn equal_steps(a: &[(u32, u32)], b: &[(u32, u32)]) -> bool
    ensures { IsTrue result ↔ (a.now ≡ b.now) }
{
    a == b
}

fn equal_numbers(a: &[u32], b: &[u32]) -> bool
    ensures { IsTrue result ↔ (a.now ≡ b.now) }
{
    a == b
}

/// Whether two orders of sorts have the same steps and productions.
fn equal_sorts(a: &Sorts, b: &Sorts) -> bool
    ensures { IsTrue result ↔ (a.now ≡ b.now) }
{
    if !equal_steps(a.steps(), b.steps()) {
        return false;
    }
    equal_numbers(a.productions(), b.productions())
}

fn equal_cells(a: &[CellShape], b: &[CellShape]) -> bool
    ensures { IsTrue result ↔ (a.now ≡ b.now) }
{
    a == b
}

fn equal_rules(a: &[Arc<Rule>], b: &[Arc<Rule>]) -> bool
    ensures { IsTrue result ↔ (map arc_value a.now ≡ map arc_value b.now) }
{
    a == b
}

fn equal_labels(a: &[Text], b: &[Text]) -> bool
    ensures { IsTrue result ↔ (a.now ≡ b.now) }
{
    a == b
}

/// Whether two definitions are equal: their orders of sorts, declared cells, rules and labels.
pub fn equal_defs(a: &Defs, b: &Defs) -> bool
    ensures { IsTrue result ↔ (a.now ≡ b.now) }
{
    if !equal_sorts(&a.sorts, &b.sorts) {
        return false;
    }
    if !equal_cells(a.cells.as_slice(), b.cells.as_slice()) {
        return false;
    }
    if !equal_rules(a.rules.as_slice(), b.rules.as_slice()) {
        return false;
    }
    equal_labels(a.labels.as_slice(), b.labels.as_slice())
}
