//! The variables of terms.
ghost use Rattle.std.specs.Prelude.{◌≡◌, ◌++◌, map, IfOk, unwrap_or, get_or};
ghost use Rattle.rule_parts.specs.Terms.{sorts_of as sorts_by, place_sort as sort_of_place, takes_sequence as takes, leaf_occurrence, rest_occurrence, occurrences, all_occurrences, occurrence_by};

use crate::argument_sorts::Productions;
use crate::leaves::{Leaf, LeafKind};
use grammar_terms::Shape;
use k_terms::{Memory, sort};

/// An occurrence of a variable.
#[derive(Clone, Copy, Debug)]
pub struct Occurrence {
    /// The token that stands there.
    pub at: usize,
    /// The first token of the variable.
    pub home: usize,
    pub sort: u32,
    /// It stands on the left side.
    pub is_left: bool,
    /// It is of sort K, where only a part of a sequence may stand.
    pub is_stray: bool,
}

/// The sorts of a production's arguments.
pub(crate) fn sorts_of(grammar: &Productions, prod: u32) -> &[u32]
    ensures { result.now ≡ sorts_by grammar.now prod }
{
    let Some(index) = prod.checked_sub(1) else {
        return &[];
    };
    match grammar.arguments.get(index as usize) {
        Some(sorts) => sorts.as_slice(),
        None => &[],
    }
}

/// The sort of the place of a child.
pub(crate) fn place_sort(is_list: bool, sorts: &[u32], index: usize) -> u32
    ensures { result ≡ sort_of_place is_list sorts.now index }
{
    let place = if is_list { 0 } else { index };
    match sorts.get(place) {
        Some(sort) => *sort,
        None => sort::KITEM,
    }
}

/// Adds the variable that a leaf is.
fn add_occurrence(
    leaf: &Leaf,
    is_left: bool,
    sort: u32,
    whole: bool,
    found: &mut Vec<Occurrence>,
) -> Result<(), Memory>
    ensures { IfOk result (λ _. found.new.items ≡ found.old.items ++ occurrence_by leaf.now.at leaf.now.kind is_left sort whole) }
{
    match &leaf.kind {
        LeafKind::Variable { home, sort: own } => {
            let sort = own.unwrap_or(sort);
            found.push(Occurrence {
                at: leaf.at,
                home: *home,
                sort,
                is_left,
                is_stray: sort == sort::K && !whole,
            })?;
        }
        LeafKind::Literal(_) | LeafKind::Other => (),
    }
    Ok(())
}

/// Adds the variable at a place.
pub(crate) fn add_leaf(
    leaves: &[Leaf],
    is_left: bool,
    sort: u32,
    whole: bool,
    at: usize,
    found: &mut Vec<Occurrence>,
) -> Result<(), Memory>
    ensures { IfOk result (λ _. found.new.items ≡ found.old.items ++ leaf_occurrence leaves.now is_left sort whole at) }
{
    match leaves.get(at) {
        Some(leaf) => add_occurrence(leaf, is_left, sort, whole, found),
        None => Ok(()),
    }
}

/// Adds the rest of a list.
fn add_rest(
    leaves: &[Leaf],
    is_left: bool,
    sort: u32,
    rest: Option<usize>,
    found: &mut Vec<Occurrence>,
) -> Result<(), Memory>
    ensures { IfOk result (λ _. found.new.items ≡ found.old.items ++ rest_occurrence leaves.now is_left sort rest) }
{
    match rest {
        Some(at) => add_leaf(leaves, is_left, sort, true, at, found),
        None => Ok(()),
    }
}

/// Whether a variable of sort K may stand at a place.
fn takes_sequence(is_sequence: bool, sort: u32, is_last: bool) -> bool
    ensures { result ≡ takes is_sequence sort is_last }
{
    sort == sort::K || (is_sequence && is_last)
}

/// Adds the variables of a term at a place of a sort.
#[cycle(occurring)]
pub fn add_term(
    shape: &Shape,
    grammar: &Productions,
    leaves: &[Leaf],
    is_left: bool,
    sort: u32,
    whole: bool,
    found: &mut Vec<Occurrence>,
) -> Result<(), Memory>
    ensures { IfOk result (λ _. found.new.items ≡ found.old.items ++ occurrences grammar.now leaves.now is_left sort whole shape.now) }
{
    match shape {
        Shape::Leaf(at) => add_leaf(leaves, is_left, sort, whole, *at, found),
        Shape::Node(prod, shapes) => {
            let sorts = sorts_of(grammar, *prod);
            add_terms(
                shapes.as_slice(),
                grammar,
                leaves,
                is_left,
                false,
                false,
                sorts,
                found,
            )
        }
        Shape::Items(prod, shapes, rest) => {
            let sorts = sorts_of(grammar, *prod);
            let is_sequence = *prod == 0;
            add_terms(
                shapes.as_slice(),
                grammar,
                leaves,
                is_left,
                true,
                is_sequence,
                sorts,
                found,
            )?;
            add_rest(leaves, is_left, place_sort(true, sorts, 0), *rest, found)
        }
    }
}

/// Adds the variables of children.
#[cycle(occurring)]
pub fn add_terms(
    shapes: &[Shape],
    grammar: &Productions,
    leaves: &[Leaf],
    is_left: bool,
    is_list: bool,
    is_sequence: bool,
    sorts: &[u32],
    found: &mut Vec<Occurrence>,
) -> Result<(), Memory>
    ensures { IfOk result (λ _. found.new.items ≡ found.old.items ++ all_occurrences grammar.now leaves.now is_left is_list is_sequence sorts.now 0 shapes.now) }
{
    for (index, shape) in shapes.iter().enumerate() {
        let sort = place_sort(is_list, sorts, index);
        let whole = takes_sequence(is_sequence, sort, index + 1 == shapes.len());
        add_term(shape, grammar, leaves, is_left, sort, whole, found)?;
    }
    Ok(())
}
