//! Cycles of subsorts.
ghost use Rattle.std.specs.Prelude.{◌≡◌, ◌≢◌, ◌↔◌, ℕ, ◌<◌, ◌≤◌, length, true, option_copied, IfOk, IsTrue, MatchResult};
ghost use Rattle.std.specs.List.{flat_map};
ghost use Rattle.k_terms.specs.Sorts.{Below};
ghost use Rattle.grammar_terms.specs.Cuts.{Has};
ghost use Rattle.sorted_grammar.specs.Naming.{names_of, first_that, sort_in, sorts_in_prod, sorts_in_group, sorts_in_sentence, mentioned_in};
ghost use Rattle.sorted_grammar.specs.Subsorts.{IsBetween, IsAround};
ghost use Rattle.sorted_grammar.specs.Marks.{marked, is_around};
ghost use Rattle.sorted_grammar.specs.Placing.{grammar_of};
ghost use Rattle.sorted_grammar.specs.Sorting.{AreFewSorts, AreFewProductions, AreKnown, HasNoSubsortCycle, IsRefusal};

use crate::declared::SortNames;
use crate::fault::SortFault;
use crate::nullable::has_mark;
use crate::productions::sort_number;
use file_reader::Sentence;
use grammar_terms::Grammar;
use k_terms::{Many, Memory, Sorts, Text, copy_text};
use production_reader::{Item, Prod};
use std::alloc::Global;

/// Whether a step leads from a sort to itself.
fn steps_to_itself(steps: &[(u32, u32)], sort: u32) -> bool
    ensures { IsTrue result ↔ Has steps.now (sort, sort) }
{
    for step in steps {
        if *step == (sort, sort) {
            return true;
        }
    }
    false
}

/// Whether the sorts are two, each below the other.
fn are_around(sorts: &Sorts, sort: u32, other: u32) -> bool
    ensures { IsTrue result ↔ ((other ≢ sort) × Below sorts.now sort other × Below sorts.now other sort) }
{
    other != sort && sorts.below(sort, other) && sorts.below(other, sort)
}

/// Whether one of `count` sorts is another one, above a sort and below it.
fn has_between(sorts: &Sorts, count: u32, sort: u32) -> bool
    ensures { IsTrue result ↔ IsBetween sorts.now count sort }
{
    for other in 0..count {
        if are_around(sorts, sort, other) {
            return true;
        }
    }
    false
}

/// Whether a sort lies on a cycle of subsorts.
fn lies_on_cycle(sorts: &Sorts, count: u32, sort: u32) -> bool
    ensures { IsTrue result ↔ IsAround sorts.now count sort }
{
    if steps_to_itself(sorts.steps(), sort) {
        return true;
    }
    has_between(sorts, count, sort)
}

/// The row that marks the sorts on cycles.
fn cycle_row(alloc: Global, sorts: &Sorts, count: u32) -> Result<Vec<bool>, Memory>
    ensures long { IfOk result (λ row. length row.items ≡ count) }
    ensures each { IfOk result (λ row. (sort : ℕ) → sort < count → (marked row.items sort ≡ true) ↔ IsAround sorts.now count sort) }
{
    let mut row = Vec::with_capacity(alloc, count as usize)?;
    for sort in 0..count {
        row.push(lies_on_cycle(sorts, count, sort))?;
    }
    Ok(row)
}

/// The sort of an item, where it is marked.
fn first_in_item<'a>(names: &SortNames<'_>, row: &[bool], item: &'a Item) -> Option<&'a Text>
    requires { length names.now ≤ 266 }
    ensures { option_copied result ≡ first_that (is_around names.now row.now) (sort_in item.now) }
{
    let Item::Sort(name) = item else {
        return None;
    };
    if has_mark(row, sort_number(names, name.as_slice())) {
        Some(name)
    } else {
        None
    }
}

/// The first marked sort among items.
fn first_in_items<'a>(names: &SortNames<'_>, row: &[bool], items: &'a [Item]) -> Option<&'a Text>
    requires { length names.now ≤ 266 }
    ensures { option_copied result ≡ first_that (is_around names.now row.now) (flat_map sort_in items.now) }
{
    for item in items {
        let Some(name) = first_in_item(names, row, item) else {
            continue;
        };
        return Some(name);
    }
    None
}

/// The first marked sort in the items of productions.
fn first_in_group<'a>(names: &SortNames<'_>, row: &[bool], prods: &'a [Prod]) -> Option<&'a Text>
    requires { length names.now ≤ 266 }
    ensures { option_copied result ≡ first_that (is_around names.now row.now) (flat_map sorts_in_prod prods.now) }
{
    for prod in prods {
        let Some(name) = first_in_items(names, row, prod.items.as_slice()) else {
            continue;
        };
        return Some(name);
    }
    None
}

/// The first marked sort in the items of groups of productions.
fn first_in_groups<'a>(
    names: &SortNames<'_>,
    row: &[bool],
    groups: &'a [Many<Prod>],
) -> Option<&'a Text>
    requires { length names.now ≤ 266 }
    ensures { option_copied result ≡ first_that (is_around names.now row.now) (flat_map sorts_in_group groups.now) }
{
    for prods in groups {
        let Some(name) = first_in_group(names, row, prods.as_slice()) else {
            continue;
        };
        return Some(name);
    }
    None
}

/// The first marked sort that a sentence mentions.
fn first_in_sentence<'a>(
    names: &SortNames<'_>,
    row: &[bool],
    sentence: &'a Sentence,
) -> Option<&'a Text>
    requires { length names.now ≤ 266 }
    ensures { option_copied result ≡ first_that (is_around names.now row.now) (sorts_in_sentence sentence.now) }
{
    let Sentence::Syntax { sort, groups } = sentence else {
        return None;
    };
    if has_mark(row, sort_number(names, sort.as_slice())) {
        return Some(sort);
    }
    first_in_groups(names, row, groups.as_slice())
}

/// The first marked sort that sentences mention.
fn first_mentioned<'a>(
    names: &SortNames<'_>,
    row: &[bool],
    sentences: &'a [Sentence],
) -> Option<&'a Text>
    requires { length names.now ≤ 266 }
    ensures { option_copied result ≡ first_that (is_around names.now row.now) (mentioned_in sentences.now) }
{
    for sentence in sentences {
        let Some(name) = first_in_sentence(names, row, sentence) else {
            continue;
        };
        return Some(name);
    }
    None
}

/// Tells the first sort, by first mention, that lies on a cycle of subsorts, if there is one.
pub fn refuse_subsort_cycle(
    alloc: Global,
    names: &SortNames<'_>,
    sentences: &[Sentence],
    grammar: &Grammar,
) -> Result<(), SortFault>
    requires names { names.now ≡ names_of sentences.now }
    requires grammar { grammar.now ≡ grammar_of sentences.now }
    requires sorts { AreFewSorts sentences.now }
    requires productions { AreFewProductions sentences.now }
    requires known { AreKnown sentences.now }
    ensures { MatchResult result (λ _. HasNoSubsortCycle (grammar_of sentences.now)) (IsRefusal sentences.now) }
{
    let row = cycle_row(alloc, grammar.sorts(), names.len() as u32)?;
    let Some(sort) = first_mentioned(names, &row, sentences) else {
        return Ok(());
    };
    let sort = copy_text(alloc, sort)?;
    Err(SortFault::SubsortCycle { sort })
}
