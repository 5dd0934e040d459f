//! What the parts of a content that stand on a side are.
ghost use Rattle.std.specs.Prelude.{◌≡◌, ◌++◌, cond, IfOk};
ghost use Rattle.rule_parts.specs.Parts.{seen_what, seen_parts};
ghost use Rattle.rule_parts.specs.Sides.{what_sequence, what_tokens, what_items, what_entries, what_rests, what_made, of_side, is_rest as rest_part, is_item as item_part, items_before as before_rest};

use crate::argument_sorts::Productions;
use crate::leaves::Leaf;
use crate::parts::{Part, What};
use crate::patterns::{pattern_of, variable_at};
use crate::sides::{add_variable, sequence_parts, token_at};
use crate::terms::Occurrence;
use grammar_terms::Shape;
use k_terms::{Memory, sort};
use rule_terms::Pattern;
use std::alloc::Global;

/// Adds the parts of a sequence that a part is.
fn add_step(
    alloc: Global,
    grammar: &Productions,
    leaves: &[Leaf],
    vars: &[Occurrence],
    what: &What<&Shape>,
    found: &mut Vec<Pattern>,
) -> Result<(), Memory>
    ensures { IfOk result (λ _. found.new.items ≡ found.old.items ++ what_sequence grammar.now leaves.now vars.now (seen_what what.now)) }
{
    match what {
        What::Item(shape) => {
            found.push(pattern_of(alloc, *shape, grammar, leaves, vars, sort::KITEM)?)?;
        }
        What::Tail(at) => add_variable(variable_at(vars, leaves, *at)?, found)?,
        What::Made(shape) => {
            let pattern = pattern_of(alloc, *shape, grammar, leaves, vars, sort::K)?;
            found.append(&mut sequence_parts(alloc, pattern)?)?;
        }
        What::Entry(_, _) | What::Rest(_) | What::Inner(_) | What::Whole => (),
    }
    Ok(())
}

/// The parts of a sequence, a variable of sort K among them.
pub fn steps_of(
    alloc: Global,
    grammar: &Productions,
    leaves: &[Leaf],
    vars: &[Occurrence],
    on_left: bool,
    parts: &[Part<&Shape>],
) -> Result<Vec<Pattern>, Memory>
    ensures { IfOk result (λ found. found.items ≡ of_side on_left (what_sequence grammar.now leaves.now vars.now) (seen_parts parts.now)) }
{
    let mut found = Vec::new(alloc);
    for part in parts {
        if part.side.stands(on_left) {
            add_step(alloc, grammar, leaves, vars, &part.what, &mut found)?;
        }
    }
    Ok(found)
}

/// Adds the item that a part is.
fn add_item(
    alloc: Global,
    grammar: &Productions,
    leaves: &[Leaf],
    vars: &[Occurrence],
    sort: u32,
    what: &What<&Shape>,
    found: &mut Vec<Pattern>,
) -> Result<(), Memory>
    ensures { IfOk result (λ _. found.new.items ≡ found.old.items ++ what_items grammar.now leaves.now vars.now sort (seen_what what.now)) }
{
    if let What::Item(shape) = what {
        found.push(pattern_of(alloc, *shape, grammar, leaves, vars, sort)?)?;
    }
    Ok(())
}

/// The items.
pub fn items_of(
    alloc: Global,
    grammar: &Productions,
    leaves: &[Leaf],
    vars: &[Occurrence],
    sort: u32,
    on_left: bool,
    parts: &[Part<&Shape>],
) -> Result<Vec<Pattern>, Memory>
    ensures { IfOk result (λ found. found.items ≡ of_side on_left (what_items grammar.now leaves.now vars.now sort) (seen_parts parts.now)) }
{
    let mut found = Vec::new(alloc);
    for part in parts {
        if part.side.stands(on_left) {
            add_item(alloc, grammar, leaves, vars, sort, &part.what, &mut found)?;
        }
    }
    Ok(found)
}

/// Adds the entry that a part is.
fn add_entry(
    alloc: Global,
    grammar: &Productions,
    leaves: &[Leaf],
    vars: &[Occurrence],
    what: &What<&Shape>,
    found: &mut Vec<(Pattern, Pattern)>,
) -> Result<(), Memory>
    ensures { IfOk result (λ _. found.new.items ≡ found.old.items ++ what_entries grammar.now leaves.now vars.now (seen_what what.now)) }
{
    if let What::Entry(key, value) = what {
        let key = pattern_of(alloc, *key, grammar, leaves, vars, sort::KITEM)?;
        let value = pattern_of(alloc, *value, grammar, leaves, vars, sort::KITEM)?;
        found.push((key, value))?;
    }
    Ok(())
}

/// The entries.
pub fn entries_of(
    alloc: Global,
    grammar: &Productions,
    leaves: &[Leaf],
    vars: &[Occurrence],
    on_left: bool,
    parts: &[Part<&Shape>],
) -> Result<Vec<(Pattern, Pattern)>, Memory>
    ensures { IfOk result (λ found. found.items ≡ of_side on_left (what_entries grammar.now leaves.now vars.now) (seen_parts parts.now)) }
{
    let mut found = Vec::new(alloc);
    for part in parts {
        if part.side.stands(on_left) {
            add_entry(alloc, grammar, leaves, vars, &part.what, &mut found)?;
        }
    }
    Ok(found)
}

/// Adds the expression that a part is.
fn add_expression(
    alloc: Global,
    grammar: &Productions,
    leaves: &[Leaf],
    vars: &[Occurrence],
    sort: u32,
    what: &What<&Shape>,
    found: &mut Vec<Pattern>,
) -> Result<(), Memory>
    ensures { IfOk result (λ _. found.new.items ≡ found.old.items ++ what_made grammar.now leaves.now vars.now sort (seen_what what.now)) }
{
    if let What::Made(shape) = what {
        found.push(pattern_of(alloc, *shape, grammar, leaves, vars, sort)?)?;
    }
    Ok(())
}

/// The expressions of a whole content.
pub fn expressions_of(
    alloc: Global,
    grammar: &Productions,
    leaves: &[Leaf],
    vars: &[Occurrence],
    sort: u32,
    on_left: bool,
    parts: &[Part<&Shape>],
) -> Result<Vec<Pattern>, Memory>
    ensures { IfOk result (λ found. found.items ≡ of_side on_left (what_made grammar.now leaves.now vars.now sort) (seen_parts parts.now)) }
{
    let mut found = Vec::new(alloc);
    for part in parts {
        if part.side.stands(on_left) {
            add_expression(alloc, grammar, leaves, vars, sort, &part.what, &mut found)?;
        }
    }
    Ok(found)
}

/// Adds the rest that a part is.
fn add_rest(
    leaves: &[Leaf],
    vars: &[Occurrence],
    what: &What<&Shape>,
    found: &mut Vec<u32>,
) -> Result<(), Memory>
    ensures { IfOk result (λ _. found.new.items ≡ found.old.items ++ what_rests leaves.now vars.now (seen_what what.now)) }
{
    if let What::Rest(at) = what {
        if let Some(number) = variable_at(vars, leaves, *at)? {
            found.push(number)?;
        }
    }
    Ok(())
}

/// The rests that are written.
pub fn rests_of(
    alloc: Global,
    leaves: &[Leaf],
    vars: &[Occurrence],
    on_left: bool,
    parts: &[Part<&Shape>],
) -> Result<Vec<u32>, Memory>
    ensures { IfOk result (λ found. found.items ≡ of_side on_left (what_rests leaves.now vars.now) (seen_parts parts.now)) }
{
    let mut found = Vec::new(alloc);
    for part in parts {
        if part.side.stands(on_left) {
            add_rest(leaves, vars, &part.what, &mut found)?;
        }
    }
    Ok(found)
}

/// Adds the token that a part of a sequence is, where it is a variable of sort K.
fn add_token(
    leaves: &[Leaf],
    what: &What<&Shape>,
    found: &mut Vec<Option<usize>>,
) -> Result<(), Memory>
    ensures { IfOk result (λ _. found.new.items ≡ found.old.items ++ what_tokens leaves.now (seen_what what.now)) }
{
    match what {
        What::Item(_) | What::Made(_) => found.push(None)?,
        What::Tail(at) => found.push(Some(token_at(leaves, *at)))?,
        What::Entry(_, _) | What::Rest(_) | What::Inner(_) | What::Whole => (),
    }
    Ok(())
}

/// For each part of a sequence its token, where it is a variable of sort K.
pub fn tokens_of(
    alloc: Global,
    leaves: &[Leaf],
    on_left: bool,
    parts: &[Part<&Shape>],
) -> Result<Vec<Option<usize>>, Memory>
    ensures { IfOk result (λ found. found.items ≡ of_side on_left (what_tokens leaves.now) (seen_parts parts.now)) }
{
    let mut found = Vec::new(alloc);
    for part in parts {
        if part.side.stands(on_left) {
            add_token(leaves, &part.what, &mut found)?;
        }
    }
    Ok(found)
}

/// Whether a part is a rest.
fn is_rest(what: &What<&Shape>) -> bool
    ensures { result ≡ rest_part (seen_what what.now) }
{
    matches!(what, What::Rest(_))
}

/// 1 where a part is an item, and else 0.
fn one_item(what: &What<&Shape>) -> usize
    ensures { result ≡ cond (item_part (seen_what what.now)) 1 0 }
{
    match what {
        What::Item(_) => 1,
        _ => 0,
    }
}

/// How many items stand before the first rest.
pub fn items_before(on_left: bool, parts: &[Part<&Shape>]) -> usize
    ensures { result ≡ before_rest on_left (seen_parts parts.now) }
{
    let mut count: usize = 0;
    for part in parts {
        if part.side.stands(on_left) {
            if is_rest(&part.what) {
                return count;
            }
            count += one_item(&part.what);
        }
    }
    count
}
