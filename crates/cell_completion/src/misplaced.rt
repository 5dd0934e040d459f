//! Written cells that stand where no completion may have them.
ghost use Rattle.std.specs.Prelude.{◌≡◌, true, false, Some, IfSome, IfNone, Contains};
ghost use Rattle.cell_completion.specs.Completion.{is_both as both_of, IsBelow, IsOutside, ComesAlone, IsMisplaced, IsFirstMisplaced, NoneMisplaced};
ghost use Rattle.cell_completion.specs.Building.{earlier_of, IsFirstIn};
ghost use Rattle.cell_completion.specs.Listed.{AreDeclared, AreWritten};
ghost use Rattle.cell_completion.specs.declared.tree.Written.{Written as OneWritten};

use crate::building::{is_many, parent_of};
use crate::tree::Written;
use rule_terms::CellShape;

/// Is a cell declared in another, directly or in cells of that?
fn is_below(shapes: &[CellShape], outer: u32, inner: u32) -> bool
    requires tree { AreDeclared shapes.now }
    ensures below { result ≡ true → IsBelow shapes.now outer inner }
    ensures beside { result ≡ false → IsBelow shapes.now outer inner → ⊥ }
{
    let mut cell = inner;
    while let Some(parent) = parent_of(shapes, cell) {
        if parent == outer {
            return true;
        }
        cell = parent;
    }
    false
}

/// The written cell with a mark.
fn with_mark(written: &[Written], mark: u32) -> Option<Written>
    ensures some { IfSome result (λ w. Contains written.now w × (w.mark ≡ mark)) }
    ensures none { IfNone result ((w : OneWritten) → Contains written.now w → w.mark ≡ mark → ⊥) }
{
    for one in written {
        if one.mark == mark {
            return Some(*one);
        }
    }
    None
}

/// Does the written cell with a mark stand on both sides?
fn is_both(written: &[Written], mark: u32) -> bool
    ensures { result ≡ both_of written.now (Some mark) }
{
    for one in written {
        if one.mark == mark && one.both {
            return true;
        }
    }
    false
}

/// Is it not declared in the one that encloses it?
fn is_outside(shapes: &[CellShape], written: &[Written], one: &Written) -> bool
    requires tree { AreDeclared shapes.now }
    requires written { AreWritten shapes.now written.now }
    requires is { Contains written.now one.now }
    ensures outside { result ≡ true → IsOutside shapes.now written.now one.now }
    ensures inside { result ≡ false → IsOutside shapes.now written.now one.now → ⊥ }
{
    let Some(mark) = one.above else {
        return false;
    };
    match with_mark(written, mark) {
        Some(outer) => !is_below(shapes, outer.cell, one.cell),
        None => false,
    }
}

/// Does it come or go alone?
fn comes_alone(shapes: &[CellShape], written: &[Written], one: &Written) -> bool
    ensures alone { result ≡ true → ComesAlone shapes.now written.now one.now }
    ensures with_others { result ≡ false → ComesAlone shapes.now written.now one.now → ⊥ }
{
    if one.both || is_many(shapes, one.cell) {
        return false;
    }
    match one.above {
        Some(mark) => is_both(written, mark),
        None => true,
    }
}

fn is_misplaced(shapes: &[CellShape], written: &[Written], one: &Written) -> bool
    requires tree { AreDeclared shapes.now }
    requires written { AreWritten shapes.now written.now }
    requires is { Contains written.now one.now }
    ensures misplaced { result ≡ true → IsMisplaced shapes.now written.now one.now }
    ensures placed { result ≡ false → IsMisplaced shapes.now written.now one.now → ⊥ }
{
    is_outside(shapes, written, one) || comes_alone(shapes, written, one)
}

/// The earlier one of the one that was found and another.
fn earlier(found: Option<Written>, other: Written) -> Written
    ensures { result ≡ earlier_of found other }
{
    match found {
        Some(one) if one.mark <= other.mark => one,
        _ => other,
    }
}

/// The first written cell of the text that is misplaced.
fn first_of(shapes: &[CellShape], written: &[Written]) -> Option<Written>
    requires tree { AreDeclared shapes.now }
    requires written { AreWritten shapes.now written.now }
    ensures { IsFirstIn (IsMisplaced shapes.now written.now) written.now result }
{
    let mut found: Option<Written> = None;
    for one in written {
        if is_misplaced(shapes, written, one) {
            found = Some(earlier(found, *one));
        }
    }
    found
}

/// The declared cell of the first written cell of the text that is misplaced.
pub(crate) fn first_misplaced(shapes: &[CellShape], written: &[Written]) -> Option<u32>
    requires tree { AreDeclared shapes.now }
    requires written { AreWritten shapes.now written.now }
    ensures some { IfSome result (IsFirstMisplaced shapes.now written.now) }
    ensures none { IfNone result (NoneMisplaced shapes.now written.now) }
{
    match first_of(shapes, written) {
        Some(one) => Some(one.cell),
        None => None,
    }
}
