//! The productions of a grammar by the sorts of their arguments.
ghost use Rattle.std.specs.Prelude.{◌≡◌, ◌++◌, map, length, IfOk};
ghost use Rattle.std.specs.List.{flat_map};
ghost use Rattle.grammar_terms.specs.Builtins.{declared_prods};
ghost use Rattle.rule_parts.specs.Productions.{sort_in, sorts_in, arguments_of, productions_of};

use crate::argument_sorts::Productions;
use grammar_terms::{Grammar, Part, Production};
use k_terms::{Many, Memory};
use std::alloc::Global;

/// Adds the sort that an item is.
fn add_sort(item: &Part, sorts: &mut Vec<u32>) -> Result<(), Memory>
    ensures { IfOk result (λ _. sorts.new.items ≡ sorts.old.items ++ sort_in item.now) }
{
    match item {
        Part::Terminal(_) => (),
        Part::Sort(sort) => sorts.push(*sort)?,
    }
    Ok(())
}

/// The sorts of items that are sorts.
fn sorts_of_items(alloc: Global, items: &[Part]) -> Result<Many<u32>, Memory>
    ensures { IfOk result (λ sorts. sorts ≡ sorts_in items.now) }
{
    let mut sorts = Vec::new(alloc);
    for item in items {
        add_sort(item, &mut sorts)?;
    }
    Ok(Many::from_vec(sorts))
}

/// The sorts of the arguments of each production.
fn arguments(alloc: Global, prods: &[Production]) -> Result<Many<Many<u32>>, Memory>
    ensures { IfOk result (λ rows. rows ≡ map arguments_of prods.now) }
{
    let mut rows = Vec::new(alloc);
    for production in prods {
        rows.push(sorts_of_items(alloc, production.items.as_slice())?)?;
    }
    Ok(Many::from_vec(rows))
}

/// How many productions are declared.
fn count_declared(grammar: &Grammar) -> usize
    ensures { result ≡ length (declared_prods grammar.now) }
{
    grammar.sorts().productions().len()
}

/// The productions of a grammar by the sorts of their arguments.
pub fn productions(alloc: Global, grammar: &Grammar) -> Result<Productions, Memory>
    ensures { IfOk result (λ made. made ≡ productions_of grammar.now) }
{
    Ok(Productions {
        declared: count_declared(grammar),
        arguments: arguments(alloc, grammar.prods())?,
    })
}
