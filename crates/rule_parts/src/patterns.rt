//! The patterns that terms stand for.
ghost use Rattle.std.specs.Prelude.{◌≡◌, ◌++◌, ◌-◌, take, length, IfOk, slice_get};
ghost use Rattle.rule_parts.specs.Terms.{number_of as number_in, operator_of as operator_by, built as built_of, leaf_pattern as pattern_of_leaf, leaf_number as number_of_leaf, variable_at as variable_in, rest_number as number_of_rest, is_of_sort_k as of_sort_k, tail_of as tail_in, front_parts as parts_before, last_rest, sequence_of as sequence_by, as_sequence as whole_sequence, at_place as placed, items_of as items_by, pattern_by, pattern_of as pattern_in, all_patterns, operators, is_whole as whole_by};
ghost use Rattle.std.specs.Prelude.{[], ◌∷◌, None};
ghost use Rattle.rule_terms.specs.declared.pattern.Pattern.{Seq as SeqPattern};

use crate::argument_sorts::Productions;
use crate::leaves::{Leaf, LeafKind};
use crate::terms::{Occurrence, place_sort, sorts_of};
use grammar_terms::Shape;
use k_terms::{Many, Memory, Op, copy, sort};
use rule_terms::Pattern;
use std::alloc::Global;

/// The place of the variable that begins at a token, and 0 where there is none.
fn place_of(vars: &[Occurrence], home: usize) -> usize
    ensures { result ≡ number_in vars.now home }
{
    for (place, var) in vars.iter().enumerate() {
        if var.home == home {
            return place;
        }
    }
    0
}

/// The number of the variable that begins at a token; more variables than a number counts are more than memory holds.
pub fn number_of(vars: &[Occurrence], home: usize) -> Result<u32, Memory>
    ensures { IfOk result (λ number. number ≡ number_in vars.now home) }
{
    match u32::try_from(place_of(vars, home)) {
        Ok(number) => Ok(number),
        Err(_) => Err(Memory),
    }
}

/// Whether a variable is of sort K.
fn is_of_sort_k(vars: &[Occurrence], number: u32) -> bool
    ensures { result ≡ of_sort_k vars.now number }
{
    match vars.get(number as usize) {
        Some(var) => var.sort == sort::K,
        None => false,
    }
}

/// The builtin operator of a place among these.
fn operator_among(all: &[Op], place: usize) -> Option<Op>
    ensures { result ≡ slice_get all.now place }
{
    match all.get(place) {
        Some(op) => Some(*op),
        None => None,
    }
}

/// The builtin operator of a place in their order.
fn operator_at(place: usize) -> Option<Op>
    ensures { result ≡ slice_get operators place }
{
    let all: &[Op] = &[
        Op::MulInt,
        Op::DivInt,
        Op::ModInt,
        Op::AddInt,
        Op::SubInt,
        Op::JoinString,
        Op::LtInt,
        Op::LeInt,
        Op::GtInt,
        Op::GeInt,
        Op::EqInt,
        Op::NeInt,
        Op::EqK,
        Op::NeK,
        Op::InKeys,
        Op::Not,
        Op::And,
        Op::Or,
        Op::SetKey,
        Op::GetKey,
        Op::SizeMap,
        Op::SizeList,
        Op::LengthString,
        Op::IntToString,
    ];
    operator_among(all, place)
}

/// The operator of a production.
fn operator_of(declared: usize, prod: u32) -> Option<Op>
    ensures { result ≡ operator_by declared prod }
{
    let prod = prod as usize;
    if declared < prod {
        operator_at(prod - declared - 1)
    } else {
        None
    }
}

/// A production, or an operator, of its arguments.
fn built(grammar: &Productions, prod: u32, parts: Many<Pattern>) -> Pattern
    ensures { result ≡ built_of grammar.now prod parts }
{
    match operator_of(grammar.declared, prod) {
        Some(op) => Pattern::Apply(op, parts),
        None => Pattern::Node(prod, parts),
    }
}

/// The pattern of a leaf.
fn pattern_of_kind(alloc: Global, vars: &[Occurrence], kind: &LeafKind) -> Result<Pattern, Memory>
    ensures { IfOk result (λ pattern. pattern ≡ pattern_by vars.now kind.now) }
{
    Ok(match kind {
        LeafKind::Variable { home, .. } => Pattern::Var(number_of(vars, *home)?),
        LeafKind::Literal(value) => Pattern::Lit(copy(alloc, value)?),
        LeafKind::Other => Pattern::Seq(Many::new(alloc), None),
    })
}

/// The pattern of the leaf at a place.
fn leaf_pattern(
    alloc: Global,
    vars: &[Occurrence],
    leaves: &[Leaf],
    at: usize,
) -> Result<Pattern, Memory>
    ensures { IfOk result (λ pattern. pattern ≡ pattern_of_leaf vars.now leaves.now at) }
{
    match leaves.get(at) {
        Some(leaf) => pattern_of_kind(alloc, vars, &leaf.kind),
        None => Ok(Pattern::Seq(Many::new(alloc), None)),
    }
}

/// The number of the variable that a leaf is.
fn leaf_number(vars: &[Occurrence], kind: &LeafKind) -> Result<Option<u32>, Memory>
    ensures { IfOk result (λ number. number ≡ number_of_leaf vars.now kind.now) }
{
    Ok(match kind {
        LeafKind::Variable { home, .. } => Some(number_of(vars, *home)?),
        LeafKind::Literal(_) | LeafKind::Other => None,
    })
}

/// The number of the variable at a place.
pub(crate) fn variable_at(
    vars: &[Occurrence],
    leaves: &[Leaf],
    at: usize,
) -> Result<Option<u32>, Memory>
    ensures { IfOk result (λ number. number ≡ variable_in vars.now leaves.now at) }
{
    match leaves.get(at) {
        Some(leaf) => leaf_number(vars, &leaf.kind),
        None => Ok(None),
    }
}

/// The number of the variable of a rest.
fn rest_number(
    vars: &[Occurrence],
    leaves: &[Leaf],
    rest: Option<usize>,
) -> Result<Option<u32>, Memory>
    ensures { IfOk result (λ number. number ≡ number_of_rest vars.now leaves.now rest) }
{
    match rest {
        Some(at) => variable_at(vars, leaves, at),
        None => Ok(None),
    }
}

/// The number of a variable of sort K.
fn tail_of(vars: &[Occurrence], part: &Pattern) -> Option<u32>
    ensures { result ≡ tail_in vars.now part.now }
{
    match part {
        Pattern::Var(number) => {
            if is_of_sort_k(vars, *number) {
                Some(*number)
            } else {
                None
            }
        }
        _ => None,
    }
}

/// The number of the last of these parts, where it is a variable of sort K.
pub fn last_tail(vars: &[Occurrence], parts: &[Pattern]) -> Option<u32>
    ensures { result ≡ last_rest vars.now parts.now }
{
    match parts.get(parts.len().saturating_sub(1)) {
        Some(part) => tail_of(vars, part),
        None => None,
    }
}

/// All parts but the last.
fn without_last(parts: Vec<Pattern>) -> Vec<Pattern>
    ensures { result.items ≡ take (length parts.items - 1) parts.items }
{
    let mut parts = parts;
    parts.truncate(parts.len().saturating_sub(1));
    parts
}

/// The parts of a sequence but the last, where that is the rest.
pub fn front_parts(vars: &[Occurrence], parts: Vec<Pattern>) -> Vec<Pattern>
    ensures { result.items ≡ parts_before vars.now parts.items }
{
    if last_tail(vars, &parts).is_some() {
        return without_last(parts);
    }
    parts
}

/// A sequence of parts, whose last may be the rest.
fn sequence_of(vars: &[Occurrence], parts: Vec<Pattern>) -> Pattern
    ensures { result ≡ sequence_by vars.now parts.items }
{
    let rest = last_tail(vars, &parts);
    Pattern::Seq(Many::from_vec(front_parts(vars, parts)), rest)
}

/// The sequence of one part.
fn one_part(alloc: Global, part: Pattern) -> Result<Pattern, Memory>
    ensures { IfOk result (λ it. it ≡ SeqPattern (part ∷ []) None) }
{
    let mut parts = Vec::new(alloc);
    parts.push(part)?;
    Ok(Pattern::Seq(Many::from_vec(parts), None))
}

/// Whether a term is a whole sequence: a sequence, or a variable of sort K.
fn is_whole(vars: &[Occurrence], part: &Pattern) -> bool
    ensures { result ≡ whole_by vars.now part.now }
{
    match part {
        Pattern::Var(number) => is_of_sort_k(vars, *number),
        Pattern::Seq(_, _) => true,
        _ => false,
    }
}

/// A term at a place of a sort.
fn at_place(alloc: Global, vars: &[Occurrence], sort: u32, part: Pattern) -> Result<Pattern, Memory>
    ensures { IfOk result (λ it. it ≡ placed vars.now sort part) }
{
    if sort != sort::K {
        return Ok(part);
    }
    if is_whole(vars, &part) {
        return Ok(part);
    }
    one_part(alloc, part)
}

/// A list of its elements, or a sequence.
fn items_of(vars: &[Occurrence], prod: u32, parts: Vec<Pattern>, rest: Option<u32>) -> Pattern
    ensures { result ≡ items_by vars.now prod parts.items rest }
{
    if prod != 0 {
        return Pattern::Items(prod, Many::from_vec(parts), rest);
    }
    sequence_of(vars, parts)
}

/// The pattern of a term at a place of a sort.
#[cycle(patterning)]
pub fn pattern_of(
    alloc: Global,
    shape: &Shape,
    grammar: &Productions,
    leaves: &[Leaf],
    vars: &[Occurrence],
    sort: u32,
) -> Result<Pattern, Memory>
    ensures { IfOk result (λ pattern. pattern ≡ pattern_in grammar.now leaves.now vars.now sort shape.now) }
{
    match shape {
        Shape::Leaf(at) => {
            let part = leaf_pattern(alloc, vars, leaves, *at)?;
            at_place(alloc, vars, sort, part)
        }
        Shape::Node(prod, shapes) => {
            let sorts = sorts_of(grammar, *prod);
            let parts = patterns_of(
                alloc,
                shapes.as_slice(),
                grammar,
                leaves,
                vars,
                false,
                sorts,
            )?;
            at_place(
                alloc,
                vars,
                sort,
                built(grammar, *prod, Many::from_vec(parts)),
            )
        }
        Shape::Items(prod, shapes, rest) => {
            let sorts = sorts_of(grammar, *prod);
            let parts = patterns_of(alloc, shapes.as_slice(), grammar, leaves, vars, true, sorts)?;
            let rest = rest_number(vars, leaves, *rest)?;
            at_place(alloc, vars, sort, items_of(vars, *prod, parts, rest))
        }
    }
}

/// The patterns of children.
#[cycle(patterning)]
pub fn patterns_of(
    alloc: Global,
    shapes: &[Shape],
    grammar: &Productions,
    leaves: &[Leaf],
    vars: &[Occurrence],
    is_list: bool,
    sorts: &[u32],
) -> Result<Vec<Pattern>, Memory>
    ensures { IfOk result (λ parts. parts.items ≡ all_patterns grammar.now leaves.now vars.now is_list sorts.now 0 shapes.now) }
{
    let mut parts = Vec::new(alloc);
    for (index, shape) in shapes.iter().enumerate() {
        let sort = place_sort(is_list, sorts, index);
        parts.push(pattern_of(alloc, shape, grammar, leaves, vars, sort)?)?;
    }
    Ok(parts)
}
