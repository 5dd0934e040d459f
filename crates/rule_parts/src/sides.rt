//! What the parts of a content are on a side.
ghost use Rattle.std.specs.Prelude.{◌≡◌, ◌++◌, IfOk};
ghost use Rattle.rule_parts.specs.Parts.{seen_part, seen_parts};
ghost use Rattle.rule_parts.specs.Sides.{is_left, stands as stands_on, item_sort as sort_of_item, whole_sort as sort_of_whole, part_occurrences, token_at as token_of, variables_of, sequence_parts as parts_of_sequence};
ghost use Rattle.std.specs.List.{flat_map};

use crate::argument_sorts::Productions;
use crate::leaves::Leaf;
use crate::parts::{Part, Side, What};
use crate::terms::{Occurrence, add_leaf, add_term};
use grammar_terms::Shape;
use k_terms::{Memory, sort};
use rule_terms::{Kind, Pattern};
use std::alloc::Global;

impl Side {
    /// Whether what is on this side stands on the left side.
    pub fn is_left(self) -> bool
        ensures { result ≡ is_left self }
    {
        match self {
            Side::Both | Side::Left => true,
            Side::Right => false,
        }
    }

    /// Whether it stands on the left side, or on the right.
    pub fn stands(self, on_left: bool) -> bool
        ensures { result ≡ stands_on on_left self }
    {
        match self {
            Side::Both => true,
            Side::Left => on_left,
            Side::Right => !on_left,
        }
    }
}

/// The sort of an item of a content.
pub(crate) fn item_sort(kind: Kind) -> u32
    ensures { result ≡ sort_of_item kind }
{
    match kind {
        Kind::One(sort) => sort,
        Kind::Cells | Kind::Seq | Kind::Map | Kind::List => sort::KITEM,
    }
}

/// The sort of a whole content.
pub fn whole_sort(kind: Kind) -> u32
    ensures { result ≡ sort_of_whole kind }
{
    match kind {
        Kind::Cells => sort::BAG,
        Kind::Seq => sort::K,
        Kind::Map => sort::MAP,
        Kind::List => sort::LIST,
        Kind::One(sort) => sort,
    }
}

/// Adds the variables of a part.
fn add_part(
    grammar: &Productions,
    leaves: &[Leaf],
    kind: Kind,
    part: &Part<&Shape>,
    found: &mut Vec<Occurrence>,
) -> Result<(), Memory>
    ensures { IfOk result (λ _. found.new.items ≡ found.old.items ++ part_occurrences grammar.now leaves.now kind (seen_part part.now)) }
{
    let is_left = part.side.is_left();
    match &part.what {
        What::Item(shape) => {
            let sort = item_sort(kind);
            add_term(
                *shape,
                grammar,
                leaves,
                is_left,
                sort,
                sort == sort::K,
                found,
            )
        }
        What::Tail(at) => add_leaf(leaves, is_left, sort::K, true, *at, found),
        What::Entry(key, value) => {
            add_term(*key, grammar, leaves, is_left, sort::KITEM, false, found)?;
            add_term(*value, grammar, leaves, is_left, sort::KITEM, false, found)
        }
        What::Rest(at) => add_leaf(leaves, is_left, whole_sort(kind), true, *at, found),
        What::Made(shape) => {
            add_term(
                *shape,
                grammar,
                leaves,
                is_left,
                whole_sort(kind),
                true,
                found,
            )
        }
        What::Inner(_) | What::Whole => Ok(()),
    }
}

/// Adds the variables of parts.
pub fn add_variables(
    grammar: &Productions,
    leaves: &[Leaf],
    kind: Kind,
    parts: &[Part<&Shape>],
    found: &mut Vec<Occurrence>,
) -> Result<(), Memory>
    ensures { IfOk result (λ _. found.new.items ≡ found.old.items ++ flat_map (part_occurrences grammar.now leaves.now kind) (seen_parts parts.now)) }
{
    for part in parts {
        add_part(grammar, leaves, kind, part, found)?;
    }
    Ok(())
}

/// The number of the token of a leaf.
pub fn token_at(leaves: &[Leaf], at: usize) -> usize
    ensures { result ≡ token_of leaves.now at }
{
    match leaves.get(at) {
        Some(leaf) => leaf.at,
        None => at,
    }
}

/// Adds a variable, where there is one.
pub(crate) fn add_variable(number: Option<u32>, patterns: &mut Vec<Pattern>) -> Result<(), Memory>
    ensures { IfOk result (λ _. patterns.new.items ≡ patterns.old.items ++ variables_of number) }
{
    if let Some(number) = number {
        patterns.push(Pattern::Var(number))?;
    }
    Ok(())
}

/// The parts of a whole sequence, with its rest as the last.
pub(crate) fn sequence_parts(alloc: Global, pattern: Pattern) -> Result<Vec<Pattern>, Memory>
    ensures { IfOk result (λ parts. parts.items ≡ parts_of_sequence pattern) }
{
    if let Pattern::Seq(parts, rest) = pattern {
        let mut parts = parts.into_vec();
        add_variable(rest, &mut parts)?;
        return Ok(parts);
    }
    let mut parts = Vec::new(alloc);
    parts.push(pattern)?;
    Ok(parts)
}
