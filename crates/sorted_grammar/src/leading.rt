//! Which sort leads to which others.
ghost use Rattle.std.specs.Prelude.{◌≡◌, ◌↔◌, ◌==◌, ◌++◌, length, IfOk, IsTrue};
ghost use Rattle.std.specs.List.{flat_map, list_any};
ghost use Rattle.grammar_terms.specs.Values.{sorts_in};
ghost use Rattle.sorted_grammar.specs.Leading.{has_list as list_of};
ghost use Rattle.sorted_grammar.specs.Marks.{blocks as blocks_by, item_target, item_targets as items_lead, list_targets as list_leads, targets_by, targets_from, AreTargets, IsNullableRow, IsLeading, IsBelowKItem, IsWithIf, IsWithBelow};

use crate::nullable::{blocking, blocks, is_list};
use grammar_terms::{Grammar, Part, Production};
use k_terms::{Many, Memory, sort};
use production_reader::Form;
use std::alloc::Global;

/// Adds the sort of an item, where `count` items that are no marked sorts are this one alone, or none.
fn add_target(
    targets: &mut Vec<usize>,
    row: &[bool],
    count: usize,
    item: &Part,
) -> Result<(), Memory>
    ensures { IfOk result (λ _. targets.new.items ≡ targets.old.items ++ item_target row.now count item.now) }
{
    let Part::Sort(sort) = item else {
        return Ok(());
    };
    if blocks(item, row) == count {
        targets.push(*sort as usize)?;
    }
    Ok(())
}

/// The sorts of the items whose other items are marked.
fn item_targets(alloc: Global, row: &[bool], items: &[Part]) -> Result<Vec<usize>, Memory>
    ensures { IfOk result (λ targets. targets.items ≡ items_lead row.now items.now) }
{
    let count = blocking(items, row);
    let mut targets = Vec::new(alloc);
    for item in items {
        add_target(&mut targets, row, count, item)?;
    }
    Ok(targets)
}

/// The sorts among items.
fn sorts_among(alloc: Global, items: &[Part]) -> Result<Vec<usize>, Memory>
    ensures { IfOk result (λ sorts. sorts.items ≡ sorts_in items.now) }
{
    let mut sorts = Vec::new(alloc);
    for item in items {
        if let Part::Sort(sort) = item {
            sorts.push(*sort as usize)?;
        }
    }
    Ok(sorts)
}

/// Whether a marked sort is among items.
fn has_marked(row: &[bool], items: &[Part]) -> bool
    ensures { result ≡ list_any (λ item. blocks_by row.now item == 0) items.now }
{
    for item in items {
        if blocks(item, row) == 0 {
            return true;
        }
    }
    false
}

/// What a list production leads to.
fn list_targets(
    alloc: Global,
    row: &[bool],
    sort: u32,
    separator: &[u8],
    items: &[Part],
) -> Result<Vec<usize>, Memory>
    ensures { IfOk result (λ targets. targets.items ≡ list_leads row.now sort separator.now items.now) }
{
    let mut targets = sorts_among(alloc, items)?;
    if separator.is_empty() && has_marked(row, items) {
        targets.push(sort as usize)?;
    }
    Ok(targets)
}

/// What a production leads to.
pub fn targets(alloc: Global, row: &[bool], production: &Production) -> Result<Vec<usize>, Memory>
    ensures { IfOk result (λ targets. targets.items ≡ targets_by row.now production.now) }
{
    let items = production.items.as_slice();
    match &production.form {
        Form::Plain => item_targets(alloc, row, items),
        Form::Prefix(_) => item_targets(alloc, row, items),
        Form::UserList { separator } => {
            list_targets(alloc, row, production.sort, separator.as_slice(), items)
        }
    }
}

/// What a production leads to, where it is one of this sort.
fn targets_of(
    alloc: Global,
    row: &[bool],
    sort: u32,
    production: &Production,
) -> Result<Vec<usize>, Memory>
    ensures { IfOk result (λ targets. targets.items ≡ targets_from row.now sort production.now) }
{
    if production.sort == sort {
        targets(alloc, row, production)
    } else {
        Ok(Vec::new(alloc))
    }
}

/// What the productions of a sort lead to.
fn production_targets(
    alloc: Global,
    row: &[bool],
    prods: &[Production],
    sort: u32,
) -> Result<Vec<usize>, Memory>
    ensures { IfOk result (λ targets. targets.items ≡ flat_map (targets_from row.now sort) prods.now) }
{
    let mut all = Vec::new(alloc);
    for production in prods {
        let targets = targets_of(alloc, row, sort, production)?;
        all.extend_from_slice(&targets)?;
    }
    Ok(all)
}

/// Whether a sort has a list production.
fn has_list(prods: &[Production], sort: u32) -> bool
    ensures { result ≡ list_of prods.now sort }
{
    for production in prods {
        if production.sort == sort && is_list(&production.form) {
            return true;
        }
    }
    false
}

/// Whether KItem leads to a sort.
fn is_below_kitem(grammar: &Grammar, to: u32) -> bool
    ensures { IsTrue result ↔ IsBelowKItem grammar.now to }
{
    to != sort::KITEM && grammar.sorts().below(to, sort::KITEM) && !has_list(grammar.prods(), to)
}

/// Adds a sort, where KItem leads to it.
fn add_if_below(targets: &mut Vec<usize>, grammar: &Grammar, to: u32) -> Result<(), Memory>
    ensures { IfOk result (λ _. IsWithIf targets.old.items targets.new.items to (IsBelowKItem grammar.now to)) }
{
    if !is_below_kitem(grammar, to) {
        return Ok(());
    }
    targets.push(to as usize)?;
    Ok(())
}

/// Adds what KItem leads to.
fn add_below_kitem(targets: &mut Vec<usize>, grammar: &Grammar, count: u32) -> Result<(), Memory>
    ensures { IfOk result (λ _. IsWithBelow grammar.now count targets.old.items targets.new.items) }
{
    for to in 0..count {
        add_if_below(targets, grammar, to)?;
    }
    Ok(())
}

/// What a sort leads to.
fn successors(
    alloc: Global,
    grammar: &Grammar,
    row: &[bool],
    count: u32,
    sort: u32,
) -> Result<Many<usize>, Memory>
    requires row { IsNullableRow grammar.now row.now }
    requires count { count ≡ length grammar.now.names }
    ensures { IfOk result (AreTargets grammar.now sort) }
{
    let mut targets = production_targets(alloc, row, grammar.prods(), sort)?;
    if sort == sort::KITEM {
        add_below_kitem(&mut targets, grammar, count)?;
        return Ok(Many::from_vec(targets));
    }
    if sort == sort::K {
        targets.push(sort::KITEM as usize)?;
        return Ok(Many::from_vec(targets));
    }
    Ok(Many::from_vec(targets))
}

/// What each sort leads to.
pub fn leading(
    alloc: Global,
    grammar: &Grammar,
    row: &[bool],
    count: u32,
) -> Result<Vec<Many<usize>>, Memory>
    requires row { IsNullableRow grammar.now row.now }
    requires count { count ≡ length grammar.now.names }
    ensures { IfOk result (λ graph. IsLeading grammar.now graph.items) }
{
    let mut graph = Vec::with_capacity(alloc, count as usize)?;
    for sort in 0..count {
        graph.push(successors(alloc, grammar, row, count, sort)?)?;
    }
    Ok(graph)
}
