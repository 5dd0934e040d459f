use grammar_terms::Shape;
use k_terms::{Many, Memory, sort};
use rule_contents::Form;
use rule_parts::{Part, Side, What, add_form};
use rule_terms::Kind;
use std::alloc::Global;
use std::test::Fail;

/// How many productions stand before those of contents, which are numbered from 101 here.
const COUNT: u32 = 45;

fn number(word: Option<&str>) -> usize {
    word.unwrap_or("").parse().unwrap_or(0)
}

fn production_number(word: &str) -> u32 {
    let prod: u32 = word.parse().unwrap_or(0);
    if prod > 100 {
        return (prod - 100).saturating_add(COUNT);
    }
    prod
}

/// The shape that a sign ends: a token, or a production with how many parts, and `items` for a list.
fn sign_of(stack: &mut Vec<Shape>, sign: &str) -> Result<Shape, Memory> {
    let mut fields = sign.split('.');
    let first = fields.next().unwrap_or("");
    let Some(count) = fields.next() else {
        return Ok(Shape::Leaf(number(Some(first))));
    };
    let place = stack.len().saturating_sub(number(Some(count)));
    let shapes = Many::from_vec(stack.split_off(place)?);
    let prod = production_number(first);
    if fields.next().is_some() {
        return Ok(Shape::Items(prod, shapes, None));
    }
    Ok(Shape::Node(prod, shapes))
}

/// A shape in postfix notation.
fn shape_of(alloc: Global, written: &str) -> Result<Shape, Memory> {
    let mut stack = Vec::new(alloc);
    for sign in written.split(' ') {
        let shape = sign_of(&mut stack, sign)?;
        stack.push(shape)?;
    }
    stack.pop().ok_or(Memory)
}

fn place_of(shape: &Shape) -> usize {
    match shape {
        Shape::Leaf(at) => *at,
        Shape::Node(_, _) | Shape::Items(_, _, _) => 99,
    }
}

fn show_part(alloc: Global, line: &mut String, part: &Part<&Shape>) -> Result<(), Memory> {
    let side = match part.side {
        Side::Both => "both",
        Side::Left => "left",
        Side::Right => "right",
    };
    let (name, at, other) = match &part.what {
        What::Item(shape) => ("item", place_of(*shape), 0),
        What::Tail(at) => ("tail", *at, 0),
        What::Entry(key, value) => ("entry", place_of(*key), place_of(*value)),
        What::Rest(at) => ("rest", *at, 0),
        What::Made(shape) => ("made", place_of(*shape), 0),
        What::Inner(at) => ("inner", *at, 0),
        What::Whole => ("whole", 0, 0),
    };
    Ok(line.push_str(&format!(in alloc; " {side} {name} {at} {other},")?)?)
}

/// A kind, a side and a form, a shape, and its parts.
type Case = (Kind, Side, Form, &'static str, &'static str);

fn parts_shown(
    alloc: Global,
    kind: Kind,
    side: Side,
    form: Form,
    written: &str,
) -> Result<String, Memory> {
    let shape = shape_of(alloc, written)?;
    let mut parts = Vec::new(alloc);
    add_form(kind, COUNT as usize, side, form, &shape, &mut parts)?;
    let mut line = String::new(alloc);
    for part in &parts {
        show_part(alloc, &mut line, part)?;
    }
    Ok(line)
}

/// What is said otherwise than it should be, and nothing where all is right.
fn otherwise(alloc: Global, cases: &[Case]) -> Result<String, Memory> {
    let mut line = String::new(alloc);
    for (kind, side, form, written, wanted) in cases {
        let parts = parts_shown(alloc, *kind, *side, *form, written)?;
        if parts.as_str() != *wanted {
            line.push_str(&format!(in alloc; "{parts} for {wanted}; ")?)?;
        }
    }
    Ok(line)
}

const CASES: [Case; 6] = [
    // an item, one that becomes another in parentheses, and a variable of sort K, in a cell that is new
    (
        Kind::Seq,
        Side::Right,
        Form::Sides,
        "0 101.1 106.1 2 3 101.1 106.1 4 5 101.1 106.1 6 105.5 107.2 8 102.1 107.2 108.1",
        " right item 0 0, right inner 2 0, right item 3 0, right item 5 0, right tail 8 0,",
    ),
    // an entry whose value changes, and nothing
    (
        Kind::Map,
        Side::Both,
        Form::Sides,
        "0 2 3 4 5 6 108.5 101.2 7 104.1 109.2.items 110.1",
        " left entry 0 3, right entry 0 5,",
    ),
    // a rest that becomes what an expression says, in a cell that is removed
    (
        Kind::Map,
        Side::Left,
        Form::Made,
        "0 102.1 109.1.items 1 2 112.3",
        " left whole 0 0, left rest 0 0, left made 2 0,",
    ),
    // a `_` alone in a list
    (
        Kind::List,
        Side::Both,
        Form::Sides,
        "0 103.1 108.1",
        " both rest 0 0,",
    ),
    // a value that becomes another
    (
        Kind::One(sort::INT),
        Side::Both,
        Form::Sides,
        "0 1 2 102.3",
        " left item 0 0, right item 2 0,",
    ),
    // an expression alone
    (
        Kind::List,
        Side::Right,
        Form::Expression,
        "0",
        " right made 0 0,",
    ),
];

/// What contents say, side by side.
#[test]
fn says_parts(rt: HostRuntime) -> Result<(), Fail> {
    assert_eq!(rt; otherwise(rt.alloc(), &CASES)?.as_str(), "");
    Ok(())
}
