//! Where the form of a content is none that a rule has.
ghost use Rattle.std.specs.Prelude.{◌≡◌, ◌++◌, ◌+◌, [], ◌∷◌, cond, nat_lt, IfOk};
ghost use Rattle.std.specs.List.{flat_map};
ghost use Rattle.rule_parts.specs.Parts.{seen_what, seen_parts};
ghost use Rattle.rule_parts.specs.Sides.{as_list, what_wholes, of_side};
ghost use Rattle.rule_drafts.specs.Bodies.{but_last, stray_tails as tails_in, written_rests as rests_in, one_if as one_where, ends_by_tail as by_tail, is_between as between, is_bad_form as bad_form, form_faults, side_faults, what_nested, nested_faults};

use crate::bodies::body_of;
use crate::reading::Tag;
use grammar_terms::Shape;
use k_terms::Memory;
use rule_parts::{Leaf, Occurrence, Part, Productions, What, last_tail, token_at, tokens_of};
use rule_terms::{Body, Kind};
use std::alloc::Global;

/// All tokens but the last.
fn but_last_of(tokens: &[Option<usize>]) -> &[Option<usize>]
    ensures { result.now ≡ but_last tokens.now }
{
    tokens.split_at(tokens.len().saturating_sub(1)).0
}

/// Adds those tokens that are there.
fn add_tokens(tokens: &[Option<usize>], faults: &mut Vec<usize>) -> Result<(), Memory>
    ensures { IfOk result (λ _. faults.new.items ≡ faults.old.items ++ flat_map as_list tokens.now) }
{
    for token in tokens {
        if let Some(token) = token {
            faults.push(*token)?;
        }
    }
    Ok(())
}

/// Adds the variables of sort K before the last part of a sequence.
fn add_stray_tails(
    alloc: Global,
    leaves: &[Leaf],
    on_left: bool,
    parts: &[Part<&Shape>],
    faults: &mut Vec<usize>,
) -> Result<(), Memory>
    ensures { IfOk result (λ _. faults.new.items ≡ faults.old.items ++ tails_in leaves.now on_left (seen_parts parts.now)) }
{
    let tokens = tokens_of(alloc, leaves, on_left, parts)?;
    add_tokens(but_last_of(&tokens), faults)
}

/// Adds a mark where a part stands for a rest or for the whole.
fn add_whole(what: &What<&Shape>, found: &mut Vec<bool>) -> Result<(), Memory>
    ensures { IfOk result (λ _. found.new.items ≡ found.old.items ++ what_wholes (seen_what what.now)) }
{
    match what {
        What::Rest(_) | What::Made(_) => found.push(true)?,
        What::Item(_) | What::Tail(_) | What::Entry(_, _) | What::Inner(_) | What::Whole => (),
    }
    Ok(())
}

/// A mark for each rest that is written.
fn wholes_of(alloc: Global, on_left: bool, parts: &[Part<&Shape>]) -> Result<Vec<bool>, Memory>
    ensures { IfOk result (λ found. found.items ≡ of_side on_left what_wholes (seen_parts parts.now)) }
{
    let mut found = Vec::new(alloc);
    for part in parts {
        if part.side.stands(on_left) {
            add_whole(&part.what, &mut found)?;
        }
    }
    Ok(found)
}

/// How many rests are written.
fn written_rests(alloc: Global, on_left: bool, parts: &[Part<&Shape>]) -> Result<usize, Memory>
    ensures { IfOk result (λ count. count ≡ rests_in on_left (seen_parts parts.now)) }
{
    let found = wholes_of(alloc, on_left, parts)?;
    Ok(found.len())
}

fn one_if(holds: bool) -> usize
    ensures { result ≡ one_where holds }
{
    if holds { 1 } else { 0 }
}

/// Whether there are two or more in all.
fn are_two(one: usize, other: usize) -> bool
    ensures { result ≡ nat_lt 1 (one + other) }
{
    one > 1 || other > 1 || (one == 1 && other == 1)
}

/// Whether a sequence ends by a variable of sort K.
fn ends_by_tail(vars: &[Occurrence], body: &Body) -> bool
    ensures { result ≡ by_tail vars.now body.now }
{
    match body {
        Body::Seq(parts, _) => last_tail(vars, parts.as_slice()).is_some(),
        Body::Cells(_, _) | Body::Map(_, _) | Body::List(_, _, _) | Body::One(_) | Body::Made(_) =>
            { false }
    }
}

/// Whether a list has items on both sides of its rest.
fn is_between(body: &Body) -> bool
    ensures { result ≡ between body.now }
{
    match body {
        Body::List(before, rest, after) => rest.is_some()
            && !before.is_empty()
            && !after.is_empty(),
        Body::Cells(_, _) | Body::Map(_, _) | Body::Seq(_, _) | Body::One(_) | Body::Made(_) => {
            false
        }
    }
}

/// Whether a cell of a kind with so many written rests has no form of a rule.
fn is_bad_form(vars: &[Occurrence], tag: Tag, rests: usize, kind: Kind, body: &Body) -> bool
    ensures { result ≡ bad_form vars.now tag rests kind body.now }
{
    match kind {
        Kind::Cells => false,
        Kind::Seq => tag.left_dots || (tag.right_dots && ends_by_tail(vars, body)),
        Kind::Map => are_two(one_if(tag.left_dots || tag.right_dots), rests),
        Kind::List => {
            are_two(one_if(tag.left_dots) + one_if(tag.right_dots), rests) || is_between(body)
        }
        Kind::One(_) => tag.left_dots || tag.right_dots,
    }
}

/// Adds a token, where there is one.
fn add_token(token: Option<usize>, faults: &mut Vec<usize>) -> Result<(), Memory>
    ensures { IfOk result (λ _. faults.new.items ≡ faults.old.items ++ as_list token) }
{
    if let Some(token) = token {
        faults.push(token)?;
    }
    Ok(())
}

/// The token, where a test holds.
fn token_if(holds: bool, token: usize) -> Option<usize>
    ensures { as_list result ≡ cond holds (token ∷ []) [] }
{
    if holds { Some(token) } else { None }
}

/// Adds the tokens of a bad form, and of an operator on the left side.
fn add_form(
    on_left: bool,
    first: usize,
    operator: Option<usize>,
    is_bad: bool,
    faults: &mut Vec<usize>,
) -> Result<(), Memory>
    ensures { IfOk result (λ _. faults.new.items ≡ faults.old.items ++ form_faults on_left first operator is_bad) }
{
    add_token(token_if(is_bad, first), faults)?;
    if on_left {
        return add_token(operator, faults);
    }
    Ok(())
}

/// Adds what has no form of a rule on a side.
pub(crate) fn add_side(
    alloc: Global,
    grammar: &Productions,
    leaves: &[Leaf],
    vars: &[Occurrence],
    tag: Tag,
    on_left: bool,
    parts: &[Part<&Shape>],
    kind: Kind,
    first: usize,
    operator: Option<usize>,
    faults: &mut Vec<usize>,
) -> Result<(), Memory>
    ensures { IfOk result (λ _. faults.new.items
        ≡ faults.old.items ++ side_faults grammar.now leaves.now vars.now tag on_left (seen_parts parts.now) kind first operator) }
{
    let body = body_of(alloc, grammar, leaves, vars, tag, on_left, parts, kind)?;
    let is_bad = is_bad_form(
        vars,
        tag,
        written_rests(alloc, on_left, parts)?,
        kind,
        &body,
    );
    add_stray_tails(alloc, leaves, on_left, parts, faults)?;
    add_form(on_left, first, operator, is_bad, faults)
}

/// Adds a change that stands within another.
fn add_change(
    leaves: &[Leaf],
    first: usize,
    what: &What<&Shape>,
    faults: &mut Vec<usize>,
) -> Result<(), Memory>
    ensures { IfOk result (λ _. faults.new.items ≡ faults.old.items ++ what_nested leaves.now first (seen_what what.now)) }
{
    match what {
        What::Inner(at) => faults.push(token_at(leaves, *at))?,
        What::Whole => faults.push(first)?,
        What::Item(_) | What::Tail(_) | What::Entry(_, _) | What::Rest(_) | What::Made(_) => (),
    }
    Ok(())
}

/// Adds the changes that stand within others.
pub(crate) fn add_nested(
    leaves: &[Leaf],
    first: usize,
    parts: &[Part<&Shape>],
    faults: &mut Vec<usize>,
) -> Result<(), Memory>
    ensures { IfOk result (λ _. faults.new.items ≡ faults.old.items ++ nested_faults leaves.now first (seen_parts parts.now)) }
{
    for part in parts {
        add_change(leaves, first, &part.what, faults)?;
    }
    Ok(())
}
