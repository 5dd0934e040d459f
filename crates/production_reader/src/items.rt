//! The items of a production, one after another.
ghost use Rattle.std.specs.Prelude.{◌≡◌, ◌+◌, ◌<◌, ◌≤◌, ◌^◌, [], ◌∷◌, drop, length, MatchOption, MatchResult};
ghost use Rattle.std.specs.List.{AllByRecursion};
ghost use Rattle.production_reader.specs.Allowed.{IsPart, may_bracket as bracket};
ghost use Rattle.production_reader.specs.Heads.{Anything, Begin, ends_parts, ends_production, heads, is_part_start};
ghost use Rattle.production_reader.specs.Items.{IsRest, items_after, one_part, prod_of_rest, signs_of_rest, sorts_of_items};
ghost use Rattle.production_reader.specs.Meaning.{item_of};
ghost use Rattle.production_reader.specs.Reading.{IsReadAs, Stops};
ghost use Rattle.production_reader.specs.Written.{signs_of_parts};

use crate::attributes::read_attributes;
use crate::prod::{Form, Item, Prod};
use crate::signs::{text_at, word_at};
use crate::source::Source;
use crate::stop::Stop;
use crate::strings::{is_item_sort, is_terminal, text_of, text_of_string};
use k_terms::{Many, Text};
use std::alloc::Global;

/// The first sort, and the items behind it.
fn next_sort(items: &[Item]) -> Option<(&Text, &[Item])>
    ensures { MatchOption result (sorts_of_items items.now ≡ []) (λ next. sorts_of_items items.now ≡ next.0.now ∷ sorts_of_items next.1.now) }
{
    for (i, item) in items.iter().enumerate() {
        if let Item::Sort(sort) = item {
            let (_, rest) = items.split_at(i + 1);
            return Some((sort, rest));
        }
    }
    None
}

/// Whether a production of these items may be a bracket.
pub(crate) fn may_bracket(items: &[Item]) -> bool
    ensures { result ≡ bracket (sorts_of_items items.now) }
{
    let Some((sort, rest)) = next_sort(items) else {
        return false;
    };
    let None = next_sort(rest) else {
        return false;
    };
    sort.as_slice() != b"K".as_slice()
}

/// Whether an item stands there, or a string that may be none.
fn is_part(source: &Source<'_>, at: usize) -> bool
    ensures { result ≡ heads is_part_start (drop at source.now) }
{
    if let Some(word) = word_at(source, at) {
        return is_item_sort(word);
    }
    text_at(source, at).is_some()
}

/// Reads one item.
fn read_part(alloc: Global, source: &Source<'_>, from: usize) -> Result<(Item, usize), Stop>
    requires { from ≤ length source.now }
    ensures { MatchResult result
        (λ found. IsReadAs IsPart one_part Anything item_of source.now from found.0 found.1)
        (λ stop. Stops IsPart one_part Anything source.now from stop) }
{
    if let Some(word) = word_at(source, from) {
        if !is_item_sort(word) {
            return Err(Stop::Expected { at: from });
        }
        let Some(sort) = text_of(alloc, word) else {
            return Err(Stop::Memory);
        };
        return Ok((Item::Sort(sort), from + 1));
    }
    let Some(string) = text_at(source, from) else {
        return Err(Stop::Expected { at: from });
    };
    let Some(text) = text_of_string(alloc, string) else {
        return Err(Stop::Memory);
    };
    if !is_terminal(text.as_slice()) {
        return Err(Stop::Expected { at: from });
    }
    Ok((Item::Terminal(text), from + 1))
}

/// Reads items as long as there are, and puts them behind those before.
fn read_parts(
    alloc: Global,
    source: &Source<'_>,
    from: usize,
    before: Many<Item>,
) -> Result<(Many<Item>, usize), Stop>
    requires { from ≤ length source.now }
    ensures { MatchResult result
        (λ found. IsReadAs (AllByRecursion IsPart) signs_of_parts (Begin ends_parts) (items_after before) source.now from found.0 found.1)
        (λ stop. Stops (AllByRecursion IsPart) signs_of_parts (Begin ends_parts) source.now from stop) }
{
    let mut items = before;
    let mut at = from;
    'parts: loop {
        if !is_part(source, at) {
            return Ok((items, at));
        }
        let (item, next) = match read_part(alloc, source, at) {
            Ok(read) => read,
            Err(stop) => return Err(stop),
        };
        if let Err(_failed) = items.push(item) {
            return Err(Stop::Memory);
        }
        at = next;
    }
}

/// Reads what follows the first item of a production.
pub(crate) fn read_rest(
    alloc: Global,
    source: &Source<'_>,
    from: usize,
    first: Item,
) -> Result<(Prod, usize), Stop>
    requires { from ≤ length source.now }
    ensures { MatchResult result
        (λ found. IsReadAs (IsRest first) signs_of_rest (Begin ends_production) (prod_of_rest first) source.now from found.0 found.1)
        (λ stop. Stops (IsRest first) signs_of_rest (Begin ends_production) source.now from stop) }
{
    let mut one = Many::new(alloc);
    if let Err(_failed) = one.push(first) {
        return Err(Stop::Memory);
    }
    let (items, middle) = match read_parts(alloc, source, from, one) {
        Ok(read) => read,
        Err(stop) => return Err(stop),
    };
    let brackets = may_bracket(items.as_slice());
    let (attrs, at) = match read_attributes(alloc, source, middle, brackets) {
        Ok(read) => read,
        Err(stop) => return Err(stop),
    };
    let production = Prod {
        items,
        attrs,
        form: Form::Plain,
    };
    Ok((production, at))
}
