//! What a cell contains on a side.
ghost use Rattle.std.specs.Prelude.{◌≡◌, take, drop, IfOk};
ghost use Rattle.rule_parts.specs.Parts.{seen_parts};
ghost use Rattle.std.specs.Prelude.{Some};
ghost use Rattle.rule_terms.specs.declared.pattern.Body.{List as ListBody};
ghost use Rattle.rule_drafts.specs.Bodies.{dots_number as number_of_dots, seq_by as seq_in, first_of as first_in, rest_by as rest_in, variable_in as variable_of, made_map as map_made, made_list as list_made, map_by as map_in, list_by as list_in, rest_place as place_of_rest, one_by as one_in, body_of as body_by, seq_body as body_seq, map_body as body_map, list_body as body_list};

use crate::reading::Tag;
use grammar_terms::Shape;
use k_terms::{Many, Memory, sort};
use rule_parts::{
    Leaf, Occurrence, Part, Productions, entries_of, expressions_of, front_parts, items_before,
    items_of, last_tail, number_of, rests_of, steps_of,
};
use rule_terms::{Body, Kind, Pattern};
use std::alloc::Global;

/// The number of the variable of a `...`.
pub(crate) fn dots_number(vars: &[Occurrence], tag: Tag) -> Result<Option<u32>, Memory>
    ensures { IfOk result (λ number. number ≡ number_of_dots vars.now tag) }
{
    if tag.left_dots || tag.right_dots {
        return Ok(Some(number_of(vars, tag.start)?));
    }
    Ok(None)
}

/// A sequence with the rest of a `...`, or with its last part as the rest.
fn seq_by(vars: &[Occurrence], dots: Option<u32>, parts: Vec<Pattern>) -> Body
    ensures { result ≡ seq_in vars.now dots parts.items }
{
    match dots {
        Some(dots) => Body::Seq(Many::from_vec(parts), Some(dots)),
        None => {
            let rest = last_tail(vars, &parts);
            Body::Seq(Many::from_vec(front_parts(vars, parts)), rest)
        }
    }
}

/// The rest of a `...`, or else the first that is written.
fn rest_by(dots: Option<u32>, rests: &[u32]) -> Option<u32>
    ensures { result ≡ rest_in dots rests.now }
{
    if dots.is_some() {
        return dots;
    }
    match rests {
        [] => None,
        [rest, ..] => Some(*rest),
    }
}

/// The number of a variable.
fn variable_in(pattern: &Pattern) -> Option<u32>
    ensures { result ≡ variable_of pattern.now }
{
    match pattern {
        Pattern::Var(number) => Some(*number),
        _ => None,
    }
}

/// A whole map by an expression.
fn made_map(alloc: Global, pattern: Pattern) -> Body
    ensures { result ≡ map_made pattern }
{
    match variable_in(&pattern) {
        Some(number) => Body::Map(Many::new(alloc), Some(number)),
        None => Body::Made(pattern),
    }
}

/// A whole list by an expression.
fn made_list(alloc: Global, pattern: Pattern) -> Body
    ensures { result ≡ list_made pattern }
{
    match variable_in(&pattern) {
        Some(number) => Body::List(Many::new(alloc), Some(number), Many::new(alloc)),
        None => Body::Made(pattern),
    }
}

/// The first of these patterns.
fn first_of(patterns: Vec<Pattern>) -> Option<Pattern>
    ensures { result ≡ first_in patterns.items }
{
    let mut patterns = patterns.into_iter();
    patterns.next()
}

/// A map of entries and a rest, or by an expression.
fn map_by(
    alloc: Global,
    made: Vec<Pattern>,
    entries: Vec<(Pattern, Pattern)>,
    rest: Option<u32>,
) -> Body
    ensures { result ≡ map_in made.items entries.items rest }
{
    match first_of(made) {
        Some(pattern) => made_map(alloc, pattern),
        None => Body::Map(Many::from_vec(entries), rest),
    }
}

/// A list of items, of which so many stand before the rest.
fn split_list(items: Vec<Pattern>, rest: u32, place: usize) -> Result<Body, Memory>
    ensures { IfOk result (λ body. body ≡ ListBody (take place items.items) (Some rest) (drop place items.items)) }
{
    let mut items = items;
    if place > items.len() {
        return Err(Memory);
    }
    let after = items.split_off(place)?;
    Ok(Body::List(Many::from_vec(items), Some(rest), Many::from_vec(after)))
}

/// A list of items and a rest, or by an expression.
fn list_by(
    alloc: Global,
    made: Vec<Pattern>,
    items: Vec<Pattern>,
    rest: Option<u32>,
    place: usize,
) -> Result<Body, Memory>
    ensures { IfOk result (λ body. body ≡ list_in made.items items.items rest place) }
{
    if let Some(pattern) = first_of(made) {
        return Ok(made_list(alloc, pattern));
    }
    match rest {
        Some(rest) => split_list(items, rest, place),
        None => Ok(Body::List(Many::from_vec(items), None, Many::new(alloc))),
    }
}

/// How many items stand before the rest.
fn rest_place(tag: Tag, place: usize, all: usize) -> usize
    ensures { result ≡ place_of_rest tag place all }
{
    if tag.left_dots {
        0
    } else if tag.right_dots {
        all
    } else {
        place
    }
}

/// One value.
fn one_by(alloc: Global, items: Vec<Pattern>) -> Body
    ensures { result ≡ one_in items.items }
{
    match first_of(items) {
        Some(pattern) => Body::One(pattern),
        None => Body::One(Pattern::Seq(Many::new(alloc), None)),
    }
}

/// A sequence.
fn seq_body(
    alloc: Global,
    grammar: &Productions,
    leaves: &[Leaf],
    vars: &[Occurrence],
    tag: Tag,
    on_left: bool,
    parts: &[Part<&Shape>],
) -> Result<Body, Memory>
    ensures { IfOk result (λ body. body ≡ body_seq grammar.now leaves.now vars.now tag on_left (seen_parts parts.now)) }
{
    let steps = steps_of(alloc, grammar, leaves, vars, on_left, parts)?;
    Ok(seq_by(vars, dots_number(vars, tag)?, steps))
}

/// A map.
fn map_body(
    alloc: Global,
    grammar: &Productions,
    leaves: &[Leaf],
    vars: &[Occurrence],
    tag: Tag,
    on_left: bool,
    parts: &[Part<&Shape>],
) -> Result<Body, Memory>
    ensures { IfOk result (λ body. body ≡ body_map grammar.now leaves.now vars.now tag on_left (seen_parts parts.now)) }
{
    let made = expressions_of(alloc, grammar, leaves, vars, sort::MAP, on_left, parts)?;
    let entries = entries_of(alloc, grammar, leaves, vars, on_left, parts)?;
    let rests = rests_of(alloc, leaves, vars, on_left, parts)?;
    let rest = rest_by(dots_number(vars, tag)?, &rests);
    Ok(map_by(alloc, made, entries, rest))
}

/// A list.
fn list_body(
    alloc: Global,
    grammar: &Productions,
    leaves: &[Leaf],
    vars: &[Occurrence],
    tag: Tag,
    on_left: bool,
    parts: &[Part<&Shape>],
) -> Result<Body, Memory>
    ensures { IfOk result (λ body. body ≡ body_list grammar.now leaves.now vars.now tag on_left (seen_parts parts.now)) }
{
    let made = expressions_of(alloc, grammar, leaves, vars, sort::LIST, on_left, parts)?;
    let items = items_of(alloc, grammar, leaves, vars, sort::KITEM, on_left, parts)?;
    let rests = rests_of(alloc, leaves, vars, on_left, parts)?;
    let rest = rest_by(dots_number(vars, tag)?, &rests);
    let place = rest_place(tag, items_before(on_left, parts), items.len());
    list_by(alloc, made, items, rest, place)
}

/// The body of a cell of a kind, by the parts of its content, on a side.
pub(crate) fn body_of(
    alloc: Global,
    grammar: &Productions,
    leaves: &[Leaf],
    vars: &[Occurrence],
    tag: Tag,
    on_left: bool,
    parts: &[Part<&Shape>],
    kind: Kind,
) -> Result<Body, Memory>
    ensures { IfOk result (λ body. body ≡ body_by grammar.now leaves.now vars.now tag on_left (seen_parts parts.now) kind) }
{
    match kind {
        Kind::Cells => Ok(Body::Cells(Many::new(alloc), None)),
        Kind::Seq => seq_body(alloc, grammar, leaves, vars, tag, on_left, parts),
        Kind::Map => map_body(alloc, grammar, leaves, vars, tag, on_left, parts),
        Kind::List => list_body(alloc, grammar, leaves, vars, tag, on_left, parts),
        Kind::One(sort) => {
            let items = items_of(alloc, grammar, leaves, vars, sort, on_left, parts)?;
            Ok(one_by(alloc, items))
        }
    }
}
