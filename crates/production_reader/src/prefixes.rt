//! Prefix productions: a word, and the sorts of its arguments in parentheses.
ghost use Rattle.std.specs.Prelude.{◌≡◌, ◌≤◌, [], ◌∷◌, ◌++◌, codes, IfSome, MatchResult, length};
ghost use Rattle.std.specs.List.{AllByRecursion};
ghost use Rattle.production_reader.specs.Heads.{Anything, Begin, ends_production, is_mark_of};
ghost use Rattle.production_reader.specs.Items.{AreSorts, IsCall, IsItemSort, arguments_after, prod_of_call, signs_of_arguments, signs_of_call, signs_of_sorts};
ghost use Rattle.production_reader.specs.Reading.{IsReadAs, Stops};
ghost use Rattle.production_reader.specs.Written.{one_word};
ghost use Rattle.production_reader.specs.declared.prod.Item.TheVariants.{Sort, Terminal};

use crate::attributes::read_attributes;
use crate::items::may_bracket;
use crate::prod::{Form, Item, Prod};
use crate::signs::{is_mark, word_at};
use crate::source::Source;
use crate::stop::Stop;
use crate::strings::{is_item_sort, text_of};
use k_terms::{Many, Text};
use std::alloc::Global;

/// Reads one sort.
pub(crate) fn read_sort(
    alloc: Global,
    source: &Source<'_>,
    from: usize,
) -> Result<(Text, usize), Stop>
    requires { from ≤ length source.now }
    ensures { MatchResult result
        (λ found. IsReadAs IsItemSort one_word Anything (λ sort. sort) source.now from found.0 found.1)
        (λ stop. Stops IsItemSort one_word Anything source.now from stop) }
{
    let Some(word) = word_at(source, from) else {
        return Err(Stop::Expected { at: from });
    };
    if !is_item_sort(word) {
        return Err(Stop::Expected { at: from });
    }
    let Some(sort) = text_of(alloc, word) else {
        return Err(Stop::Memory);
    };
    Ok((sort, from + 1))
}

/// One terminal more; none where memory is wanting.
fn with_terminal(alloc: Global, items: Many<Item>, bytes: &[u8]) -> Option<Many<Item>>
    ensures { IfSome result (λ more. more ≡ items ++ Terminal bytes.now ∷ []) }
{
    let Some(text) = text_of(alloc, bytes) else {
        return None;
    };
    let mut more = items;
    if let Err(_failed) = more.push(Item::Terminal(text)) {
        return None;
    }
    Some(more)
}

/// One terminal more that is a mark; none where memory is wanting.
fn with_mark(alloc: Global, items: Many<Item>, byte: u8) -> Option<Many<Item>>
    ensures { IfSome result (λ more. more ≡ items ++ Terminal (byte ∷ []) ∷ []) }
{
    with_terminal(alloc, items, [byte].as_slice())
}

/// One sort more; none where memory is wanting.
fn with_sort(items: Many<Item>, sort: Text) -> Option<Many<Item>>
    ensures { IfSome result (λ more. more ≡ items ++ Sort sort ∷ []) }
{
    let mut more = items;
    if let Err(_failed) = more.push(Item::Sort(sort)) {
        return None;
    }
    Some(more)
}

/// Reads one sort or more with commas between, and puts them behind the items before.
fn read_sorts(
    alloc: Global,
    source: &Source<'_>,
    from: usize,
    before: Many<Item>,
) -> Result<(Many<Item>, usize), Stop>
    requires { from ≤ length source.now }
    ensures { MatchResult result
        (λ found. IsReadAs AreSorts signs_of_sorts (Begin (is_mark_of 41)) (arguments_after before) source.now from found.0 found.1)
        (λ stop. Stops AreSorts signs_of_sorts (Begin (is_mark_of 41)) source.now from stop) }
{
    let mut items = before;
    let mut at = from;
    'sorts: loop {
        let (sort, next) = match read_sort(alloc, source, at) {
            Ok(read) => read,
            Err(stop) => return Err(stop),
        };
        let Some(more) = with_sort(items, sort) else {
            return Err(Stop::Memory);
        };
        if !is_mark(source, next, b',') {
            return Ok((more, next));
        }
        let Some(pending) = with_mark(alloc, more, b',') else {
            return Err(Stop::Memory);
        };
        items = pending;
        at = next + 1;
    }
}

/// Reads sorts, or none, and the parenthesis behind them.
fn read_arguments(
    alloc: Global,
    source: &Source<'_>,
    from: usize,
    before: Many<Item>,
) -> Result<(Many<Item>, usize), Stop>
    requires { from ≤ length source.now }
    ensures { MatchResult result
        (λ found. IsReadAs (AllByRecursion IsItemSort) signs_of_arguments Anything (arguments_after before) source.now from found.0 found.1)
        (λ stop. Stops (AllByRecursion IsItemSort) signs_of_arguments Anything source.now from stop) }
{
    if is_mark(source, from, b')') {
        return Ok((before, from + 1));
    }
    let (items, at) = match read_sorts(alloc, source, from, before) {
        Ok(read) => read,
        Err(stop) => return Err(stop),
    };
    if !is_mark(source, at, b')') {
        return Err(Stop::Expected { at });
    }
    Ok((items, at + 1))
}

/// The word and the parenthesis with which a prefix production begins.
fn head_of(alloc: Global, name: &[u8]) -> Option<Many<Item>>
    ensures { IfSome result (λ items. items ≡ Terminal name.now ∷ Terminal (codes "(") ∷ []) }
{
    let Some(word) = with_terminal(alloc, Many::new(alloc), name) else {
        return None;
    };
    with_mark(alloc, word, b'(')
}

/// Reads what follows the parenthesis of a prefix production.
pub(crate) fn read_call(
    alloc: Global,
    source: &Source<'_>,
    from: usize,
    name: &[u8],
) -> Result<(Prod, usize), Stop>
    requires { from ≤ length source.now }
    ensures { MatchResult result
        (λ found. IsReadAs IsCall signs_of_call (Begin ends_production) (prod_of_call name.now) source.now from found.0 found.1)
        (λ stop. Stops IsCall signs_of_call (Begin ends_production) source.now from stop) }
{
    let Some(head) = head_of(alloc, name) else {
        return Err(Stop::Memory);
    };
    let (arguments, middle) = match read_arguments(alloc, source, from, head) {
        Ok(read) => read,
        Err(stop) => return Err(stop),
    };
    let Some(items) = with_mark(alloc, arguments, b')') else {
        return Err(Stop::Memory);
    };
    let brackets = may_bracket(items.as_slice());
    let (attrs, at) = match read_attributes(alloc, source, middle, brackets) {
        Ok(read) => read,
        Err(stop) => return Err(stop),
    };
    let Some(label) = text_of(alloc, name) else {
        return Err(Stop::Memory);
    };
    let production = Prod {
        items,
        attrs,
        form: Form::Prefix(label),
    };
    Ok((production, at))
}
