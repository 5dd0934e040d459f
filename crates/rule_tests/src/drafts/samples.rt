//! Rules that were read, written as text, for tests.
use grammar_terms::{Shape, Word, WordKind};
use k_terms::{Many, Memory, Symbol, Text, Value, sort};
use rule_cells::{Cell, Inside, Item, Side};
use rule_contents::Form;
use rule_drafts::{Condition, Reading, RuleReading};
use rule_parts::Productions;
use rule_terms::{CellShape, Kind};
use rule_tokens::{RuleKind, RuleToken};
use std::alloc::Global;

/// How many productions stand before those of contents, which are written from 101 on.
const COUNT: u32 = 45;

/// The sorts of the arguments of an imperative language's productions: the ones with a sort, a unary and a binary
/// operation, blocks, statements, a list, and one whose argument is of sort K.
const DECLARED: [&str; 21] = [
    "3", "6", "3", "10 10", "10 10", "10", "4", "10 10", "11", "11 11", "11", "", "13", "12",
    "6 10", "11 12 12", "11 12", "13 13", "15 13", "6", "0",
];

/// A rule, and what it stands for.
pub(super) struct Case {
    /// A letter for each token.
    pub(super) text: &'static str,
    /// The sorts of its variables, as `X.6`.
    pub(super) sorts: &'static str,
    /// Its cells in postfix notation: their numbers, their tags, the sides of `...`, and the first token of a content or how
    /// many items stand inside; or the token behind its one content.
    pub(super) cells: &'static str,
    /// Its contents: the first token, as what it is read, the first token of an operator, and its shape in postfix notation: a
    /// token, or a production with how many parts, and a list's rest.
    pub(super) contents: &'static str,
    /// The first token of its condition, and the shape of that.
    pub(super) condition: &'static str,
    pub(super) wanted: &'static str,
}

fn number(word: Option<&str>) -> usize {
    word.unwrap_or("").parse().unwrap_or(0)
}

fn number32(word: Option<&str>) -> u32 {
    word.unwrap_or("").parse().unwrap_or(0)
}

fn production(word: &str) -> u32 {
    let prod = number32(Some(word));
    if prod > 100 {
        return (prod - 100).saturating_add(COUNT);
    }
    prod
}

/// The last of these, so many.
fn last_of<T>(stack: &mut Vec<T>, count: usize) -> Result<Many<T>, Memory> {
    let place = stack.len().saturating_sub(count);
    Ok(Many::from_vec(stack.split_off(place)?))
}

/// The shape that a sign ends.
fn sign_of(stack: &mut Vec<Shape>, sign: &str) -> Result<Shape, Memory> {
    let mut fields = sign.split('.');
    let first = fields.next().unwrap_or("");
    let Some(count) = fields.next() else {
        return Ok(Shape::Leaf(number(Some(first))));
    };
    let shapes = last_of(stack, number(Some(count)))?;
    let Some(rest) = fields.next() else {
        return Ok(Shape::Node(production(first), shapes));
    };
    Ok(Shape::Items(production(first), shapes, rest.parse().ok()))
}

fn shape_of(alloc: Global, written: &str) -> Result<Shape, Memory> {
    let mut stack = Vec::new(alloc);
    for sign in written.split(' ') {
        let shape = sign_of(&mut stack, sign)?;
        stack.push(shape)?;
    }
    stack.pop().ok_or(Memory)
}

/// The last items, so many before a change and so many behind it.
fn change_of(
    stack: &mut Vec<Item>,
    before: usize,
    after: usize,
) -> Result<(Many<Item>, Many<Item>), Memory> {
    let after = last_of(stack, after)?;
    let before = last_of(stack, before)?;
    Ok((before, after))
}

fn inside_of(
    stack: &mut Vec<Item>,
    name: &str,
    first: usize,
    second: usize,
) -> Result<Inside, Memory> {
    if name == "content" {
        return Ok(Inside::Content { first, past: first });
    }
    if name == "cells" {
        return Ok(Inside::Cells(Side::Same(last_of(stack, first)?)));
    }
    let (before, after) = change_of(stack, first, second)?;
    Ok(Inside::Cells(Side::Change(before, after)))
}

/// The item that is written so; where a content ends says nothing to drafts.
fn item_of(stack: &mut Vec<Item>, written: &str) -> Result<Item, Memory> {
    let mut fields = written.split('.');
    let name = fields.next().unwrap_or("");
    if name == "nothing" {
        return Ok(Item::Nothing { at: 0 });
    }
    let first = fields.next();
    let start = number(fields.next());
    let third = fields.next();
    if name == "change" {
        let (left, right) = change_of(stack, start, number(third))?;
        return Ok(Item::Change {
            start: number(first),
            left,
            right,
        });
    }
    let dots = third.unwrap_or("");
    let count = number(fields.next());
    Ok(Item::Cell(Cell {
        cell: number32(first),
        start,
        left_dots: dots == "l" || dots == "lr",
        right_dots: dots == "r" || dots == "lr",
        inside: inside_of(stack, name, count, number(fields.next()))?,
    }))
}

/// The content of the one cell, or the change of all cells, that a last word says.
fn whole_of(stack: &mut Vec<Item>, written: &str) -> Result<Option<Inside>, Memory> {
    let mut fields = written.split('.');
    let name = fields.next().unwrap_or("");
    let count = number(fields.next());
    if name == "to" {
        return Ok(Some(Inside::Content {
            first: 0,
            past: count,
        }));
    }
    if name == "becomes" {
        let after = stack.len().saturating_sub(count);
        let (left, right) = change_of(stack, count, after)?;
        return Ok(Some(Inside::Cells(Side::Change(left, right))));
    }
    Ok(None)
}

fn body_of(alloc: Global, written: &str) -> Result<Inside, Memory> {
    let mut stack = Vec::new(alloc);
    for word in written.split(' ') {
        if let Some(whole) = whole_of(&mut stack, word)? {
            return Ok(whole);
        }
        let item = item_of(&mut stack, word)?;
        stack.push(item)?;
    }
    Ok(Inside::Cells(Side::Same(Many::from_vec(stack))))
}

fn form_of(name: &str) -> Form {
    if name == "made" {
        return Form::Made;
    }
    Form::Sides
}

fn content_of(alloc: Global, written: &str) -> Result<Reading, Memory> {
    let mut words = written.splitn(3, ' ');
    let first = number(words.next());
    let mut form = words.next().unwrap_or("").split('.');
    let shape = shape_of(alloc, words.next().unwrap_or(""))?;
    Ok(Reading {
        first,
        form: form_of(form.next().unwrap_or("")),
        shape,
        operator: form.next().unwrap_or("").parse().ok(),
    })
}

fn condition_of(alloc: Global, written: &str) -> Result<Option<Condition>, Memory> {
    if written.is_empty() {
        return Ok(None);
    }
    let mut words = written.splitn(2, ' ');
    let first = number(words.next());
    let shape = shape_of(alloc, words.next().unwrap_or(""))?;
    Ok(Some(Condition { first, shape }))
}

pub(super) fn rule_of(alloc: Global, case: &Case) -> Result<RuleReading, Memory> {
    let mut contents = Many::new(alloc);
    for written in case.contents.split("; ") {
        contents.push(content_of(alloc, written)?)?;
    }
    Ok(RuleReading {
        at: 0,
        body: body_of(alloc, case.cells)?,
        contents,
        condition: condition_of(alloc, case.condition)?,
    })
}

fn is_name(byte: u8) -> bool {
    byte >= b'A' && byte <= b'Z'
}

fn is_digit(byte: u8) -> bool {
    byte >= b'0' && byte <= b'9'
}

fn sort_of(sorts: &str, byte: u8) -> u32 {
    for written in sorts.split(' ') {
        let mut fields = written.split('.');
        let name = fields.next().unwrap_or("");
        if name.as_bytes().first() == Some(&byte) {
            return number32(fields.next());
        }
    }
    0
}

fn token_kind(byte: u8) -> RuleKind {
    if is_name(byte) {
        return RuleKind::Variable {
            name: Some(Symbol(byte as u32)),
            sort: None,
        };
    }
    match byte {
        b'<' => RuleKind::Open(0),
        b'_' => RuleKind::Variable {
            name: None,
            sort: None,
        },
        _ => RuleKind::Rewrite,
    }
}

pub(super) fn tokens_of(alloc: Global, text: &str) -> Result<Vec<RuleToken>, Memory> {
    let mut tokens = Vec::new(alloc);
    for byte in text.as_bytes() {
        tokens.push(RuleToken {
            kind: token_kind(*byte),
            start: 0,
            end: 0,
        })?;
    }
    Ok(tokens)
}

fn word_kind(byte: u8) -> WordKind {
    if is_name(byte) {
        return WordKind::Variable;
    }
    if is_digit(byte) {
        return WordKind::Literal(Value::Int(byte as i128 - b'0' as i128));
    }
    match byte {
        b'_' => WordKind::Wild,
        _ => WordKind::EmptyList,
    }
}

pub(super) fn words_of(alloc: Global, text: &str, sorts: &str) -> Result<Vec<Word>, Memory> {
    let mut words = Vec::new(alloc);
    for byte in text.as_bytes() {
        words.push(Word {
            kind: word_kind(*byte),
            sort: sort_of(sorts, *byte),
            start: 0,
            end: 0,
        })?;
    }
    Ok(words)
}

fn sorts_row(alloc: Global, written: &str) -> Result<Many<u32>, Memory> {
    let mut sorts = Many::new(alloc);
    for sort in written.split(' ') {
        if let Ok(number) = sort.parse() {
            sorts.push(number)?;
        }
    }
    Ok(sorts)
}

/// The sorts of an operator's arguments, by its place.
fn operator_sorts(place: u32) -> &'static str {
    match place {
        12 | 13 => "1 1",
        14 => "1 7",
        15 => "4",
        18 => "7 1 1",
        _ => "3 3",
    }
}

/// The declared productions, and the operators.
pub(super) fn productions(alloc: Global) -> Result<Productions, Memory> {
    let mut arguments = Many::new(alloc);
    for written in &DECLARED {
        arguments.push(sorts_row(alloc, written)?)?;
    }
    for place in 0..24 {
        arguments.push(sorts_row(alloc, operator_sorts(place))?)?;
    }
    Ok(Productions {
        declared: DECLARED.len(),
        arguments,
    })
}

/// The cells T, k, state, env, thread, in and num.
const KINDS: [Kind; 7] = [
    Kind::Cells,
    Kind::Seq,
    Kind::Map,
    Kind::Map,
    Kind::Cells,
    Kind::List,
    Kind::One(sort::INT),
];

pub(super) fn cells(alloc: Global) -> Result<Vec<CellShape>, Memory> {
    let mut cells = Vec::new(alloc);
    for kind in KINDS {
        cells.push(CellShape {
            name: Text::new(alloc),
            parent: None,
            many: false,
            kind,
        })?;
    }
    Ok(cells)
}
