//! The productions of a grammar, with the numbers of their sorts.
ghost use Rattle.std.specs.Prelude.{◌≡◌, ◌≤◌, map, length, option_copied, IfOk};
ghost use Rattle.std.specs.List.{flat_map};
ghost use Rattle.sorted_grammar.specs.Naming.{first_that, is_unknown, number_in, sort_in};
ghost use Rattle.sorted_grammar.specs.Placing.{item_sorts, part_of, production_of};

use crate::declared::SortNames;
use crate::placing::Placed;
use grammar_terms::{Part, Production};
use k_terms::{Many, Memory, Text, copy_text};
use module_reader::{copy_attrs, copy_form};
use production_reader::Item;
use std::alloc::Global;

/// The sort of an item, where there is none of its name.
fn missing_in<'a>(names: &SortNames<'_>, item: &'a Item) -> Option<&'a Text>
    ensures { option_copied result ≡ first_that (is_unknown names.now) (sort_in item.now) }
{
    let Item::Sort(name) = item else {
        return None;
    };
    match names.number(name.as_slice()) {
        Some(_) => None,
        None => Some(name),
    }
}

/// The first sort among items that is none.
fn missing_among<'a>(names: &SortNames<'_>, items: &'a [Item]) -> Option<&'a Text>
    ensures { option_copied result ≡ first_that (is_unknown names.now) (flat_map sort_in items.now) }
{
    for item in items {
        let Some(name) = missing_in(names, item) else {
            continue;
        };
        return Some(name);
    }
    None
}

/// The first sort in the items of productions that is none.
pub fn missing_sort<'a>(names: &SortNames<'_>, placed: &[Placed<'a>]) -> Option<&'a Text>
    ensures { option_copied result ≡ first_that (is_unknown names.now) (item_sorts placed.now) }
{
    for one in placed {
        let Some(name) = missing_among(names, one.prod.items.as_slice()) else {
            continue;
        };
        return Some(name);
    }
    None
}

/// The number of the sort of a name, and 0 where there is none.
pub fn sort_number(names: &SortNames<'_>, name: &[u8]) -> u32
    requires { length names.now ≤ 266 }
    ensures { result ≡ number_in names.now name.now }
{
    match names.number(name) {
        Some(number) => number as u32,
        None => 0,
    }
}

/// An item with the number of its sort.
fn part(alloc: Global, names: &SortNames<'_>, item: &Item) -> Result<Part, Memory>
    requires { length names.now ≤ 266 }
    ensures { IfOk result (λ it. it ≡ part_of names.now item.now) }
{
    match item {
        Item::Terminal(text) => Ok(Part::Terminal(copy_text(alloc, text)?)),
        Item::Sort(name) => Ok(Part::Sort(sort_number(names, name.as_slice()))),
    }
}

/// The items of a production with the numbers of their sorts.
fn parts(alloc: Global, names: &SortNames<'_>, items: &[Item]) -> Result<Many<Part>, Memory>
    requires { length names.now ≤ 266 }
    ensures { IfOk result (λ parts. parts ≡ map (part_of names.now) items.now) }
{
    let mut parts = Vec::with_capacity(alloc, items.len())?;
    for item in items {
        parts.push(part(alloc, names, item)?)?;
    }
    Ok(Many::from_vec(parts))
}

/// A production with the numbers of its sorts.
fn production(
    alloc: Global,
    names: &SortNames<'_>,
    placed: &Placed<'_>,
) -> Result<Production, Memory>
    requires { length names.now ≤ 266 }
    ensures { IfOk result (λ production. production ≡ production_of names.now placed.now) }
{
    Ok(Production {
        sort: sort_number(names, placed.sort),
        sentence: placed.sentence,
        group: placed.group,
        items: parts(alloc, names, placed.prod.items.as_slice())?,
        attrs: copy_attrs(alloc, &placed.prod.attrs)?,
        form: copy_form(alloc, &placed.prod.form)?,
    })
}

/// The productions in order.
pub fn productions(
    alloc: Global,
    names: &SortNames<'_>,
    placed: &[Placed<'_>],
) -> Result<Many<Production>, Memory>
    requires { length names.now ≤ 266 }
    ensures { IfOk result (λ prods. prods ≡ map (production_of names.now) placed.now) }
{
    let mut prods = Vec::with_capacity(alloc, placed.len())?;
    for one in placed {
        prods.push(production(alloc, names, one)?)?;
    }
    Ok(Many::from_vec(prods))
}
