//! The two sides of a content by its shape: what is on a right one, and whether a left one has an operator.
ghost use Rattle.std.specs.Prelude.{◌≡◌, true, false, get_or, map};
ghost use Rattle.std.specs.List.{list_any};
ghost use Rattle.rule_contents.specs.Operators.{is_of_contents as of_contents, is_operator as operator_number, is_behind as behind, is_before as before, is_right_of as right_of, is_on_right as on_right, said_of_left, has_operator as operator_in};

use grammar_terms::{Grammar, Shape};

/// The number is one of a production of contents, behind those of a grammar for rules.
fn is_of_contents(rules: &Grammar, prod: u32) -> bool
    ensures { result ≡ of_contents rules.now prod }
{
    rules.prods().len() < prod as usize
}

fn is_operator(rules: &Grammar, prod: u32) -> bool
    ensures { result ≡ operator_number rules.now prod }
{
    rules.operator(prod).is_some()
}

/// A place is behind the token that a shape is.
fn is_behind(at: usize, shape: &Shape) -> bool
    ensures { result ≡ behind at shape.now }
{
    match shape {
        Shape::Leaf(token) => *token < at,
        Shape::Node(..) => false,
        Shape::Items(..) => false,
    }
}

/// A place is before the token that a shape is.
fn is_before(at: usize, shape: &Shape) -> bool
    ensures { result ≡ before at shape.now }
{
    match shape {
        Shape::Leaf(token) => at < *token,
        Shape::Node(..) => false,
        Shape::Items(..) => false,
    }
}

/// A place is on the right side of a change that has these parts.
fn is_right_of(at: usize, parts: &[Shape]) -> bool
    ensures { result ≡ right_of at parts.now }
{
    match parts {
        [_, arrow, _] => is_behind(at, arrow),
        [_, _, arrow, _, closing] => is_behind(at, arrow) && is_before(at, closing),
        _ => false,
    }
}

/// A place is on the right side of a change in a shape.
#[cycle(right_sides)]
pub(crate) fn is_on_right(rules: &Grammar, shape: &Shape, at: usize) -> bool
    ensures { result ≡ on_right rules.now at shape.now }
{
    match shape {
        Shape::Leaf(_) => false,
        Shape::Node(prod, parts) => {
            if is_of_contents(rules, *prod) && is_right_of(at, parts.as_slice()) {
                return true;
            }
            any_on_right(rules, parts.as_slice(), at)
        }
        Shape::Items(_, parts, _) => any_on_right(rules, parts.as_slice(), at),
    }
}

/// A place is on the right side of a change in one of some shapes.
#[cycle(right_sides)]
fn any_on_right(rules: &Grammar, shapes: &[Shape], at: usize) -> bool
    ensures { result ≡ list_any (on_right rules.now at) shapes.now }
{
    for shape in shapes {
        if is_on_right(rules, shape, at) {
            return true;
        }
    }
    false
}

/// An operator stands in a shape, in a change before its arrow.
#[cycle(left_sides)]
pub(crate) fn has_operator(rules: &Grammar, shape: &Shape) -> bool
    ensures { result ≡ operator_in rules.now shape.now }
{
    match shape {
        Shape::Leaf(_) => false,
        Shape::Node(prod, parts) => {
            if is_operator(rules, *prod) {
                return true;
            }
            if is_of_contents(rules, *prod) {
                return left_has_operator(rules, parts.as_slice());
            }
            any_has_operator(rules, parts.as_slice())
        }
        Shape::Items(_, parts, _) => any_has_operator(rules, parts.as_slice()),
    }
}

/// An operator stands in the parts of a content, and where they are a change, before its arrow.
#[cycle(left_sides)]
fn left_has_operator(rules: &Grammar, parts: &[Shape]) -> bool
    ensures { result ≡ said_of_left true (map (operator_in rules.now) parts.now) }
{
    let count = parts.len();
    if count == 3 {
        return part_has_operator(rules, parts, 0);
    }
    if count == 5 {
        return part_has_operator(rules, parts, 1);
    }
    any_has_operator(rules, parts)
}

/// An operator stands in the part of a number.
#[cycle(left_sides)]
fn part_has_operator(rules: &Grammar, parts: &[Shape], number: usize) -> bool
    ensures { result ≡ get_or (map (operator_in rules.now) parts.now) number false }
{
    match parts.get(number) {
        Some(part) => has_operator(rules, part),
        None => false,
    }
}

/// An operator stands in one of some shapes.
#[cycle(left_sides)]
fn any_has_operator(rules: &Grammar, shapes: &[Shape]) -> bool
    ensures { result ≡ list_any (operator_in rules.now) shapes.now }
{
    for shape in shapes {
        if has_operator(rules, shape) {
            return true;
        }
    }
    false
}
