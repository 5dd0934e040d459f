//! The productions of contents.
ghost use Rattle.std.specs.Prelude.{◌≡◌, ◌<◌, ◌^◌, ◌++◌, ◌∷◌, [], IfOk, codes, false};
ghost use Rattle.grammar_terms.specs.declared.production.Part.TheVariants.{Terminal as TerminalPart, Sort as SortPart};
ghost use Rattle.grammar_terms.specs.Builtins.{attrs_of as attrs_with};
ghost use Rattle.rule_contents.specs.Contents.{several as several_items, single as single_item, row_of_elements as elements_row, kept_apart as apart_attrs, change as change_items, change_in_parentheses as change_inside, whole_prods, seq_prods, element_prods, map_prods, list_prods, one_prods, content_prods as prods_of_kind};

use crate::numbers::Numbers;
use grammar_terms::{
    CLOSE_PLACE, DOT_PLACE, EMPTY_PLACE, OPEN_PLACE, Part, Production, REWRITE_PLACE,
    VARIABLE_PLACE, WILD_PLACE,
};
use k_terms::{Many, Memory, Text, sort};
use production_reader::{Attrs, Form, Strict};
use rule_terms::Kind;
use std::alloc::Global;

fn text_of(alloc: Global, bytes: &[u8]) -> Result<Part, Memory>
    ensures { IfOk result (λ part. part ≡ TerminalPart bytes.now) }
{
    Ok(Part::Terminal(Text::from_vec(Vec::from_slice(alloc, bytes)?)))
}

/// The attribute of productions of one item says nothing here: with it they are no subsort steps.
fn kept_apart() -> Attrs
    ensures { result ≡ apart_attrs }
{
    Attrs {
        left: false,
        right: false,
        non_assoc: false,
        bracket: false,
        strict: Strict::No,
        seqstrict: true,
    }
}

fn no_attrs() -> Attrs
    ensures { result ≡ attrs_with false false false }
{
    Attrs {
        left: false,
        right: false,
        non_assoc: false,
        bracket: false,
        strict: Strict::No,
        seqstrict: false,
    }
}

/// A production of several items.
fn several(numbers: Numbers, sort: u32, items: Vec<Part>) -> Production
    ensures { result ≡ several_items numbers sort items.items }
{
    Production {
        sort,
        sentence: numbers.sentence,
        group: numbers.group,
        items: Many::from_vec(items),
        attrs: no_attrs(),
        form: Form::Plain,
    }
}

/// The one item of a production.
fn lone_item(alloc: Global, sort: u32) -> Result<Many<Part>, Memory>
    ensures { IfOk result (λ items. items ≡ SortPart sort ∷ []) }
{
    let mut items = Vec::with_capacity(alloc, 1)?;
    items.push(Part::Sort(sort))?;
    Ok(Many::from_vec(items))
}

/// A production of one item.
fn single(alloc: Global, numbers: Numbers, sort: u32, item: u32) -> Result<Production, Memory>
    ensures { IfOk result (λ production. production ≡ single_item numbers sort item) }
{
    Ok(Production {
        sort,
        sentence: numbers.sentence,
        group: numbers.group,
        items: lone_item(alloc, item)?,
        attrs: kept_apart(),
        form: Form::Plain,
    })
}

/// Sides that are elements with nothing between.
fn row_of_elements(alloc: Global, numbers: Numbers) -> Result<Production, Memory>
    ensures { IfOk result (λ production. production ≡ elements_row numbers) }
{
    Ok(Production {
        sort: numbers.side,
        sentence: numbers.sentence,
        group: numbers.group,
        items: lone_item(alloc, numbers.element)?,
        attrs: kept_apart(),
        form: Form::UserList {
            separator: Many::new(alloc),
        },
    })
}

/// What is of a sort, and what it becomes.
fn change(alloc: Global, before: u32, after: u32) -> Result<Vec<Part>, Memory>
    ensures { IfOk result (λ items. items.items ≡ change_items before after) }
{
    let mut items = Vec::with_capacity(alloc, 3)?;
    items.push(Part::Sort(before))?;
    items.push(Part::Sort(REWRITE_PLACE))?;
    items.push(Part::Sort(after))?;
    Ok(items)
}

fn change_in_parentheses(alloc: Global, sort: u32) -> Result<Vec<Part>, Memory>
    ensures { IfOk result (λ items. items.items ≡ change_inside sort) }
{
    let mut items = Vec::with_capacity(alloc, 5)?;
    items.push(Part::Sort(OPEN_PLACE))?;
    items.push(Part::Sort(sort))?;
    items.push(Part::Sort(REWRITE_PLACE))?;
    items.push(Part::Sort(sort))?;
    items.push(Part::Sort(CLOSE_PLACE))?;
    Ok(items)
}

/// What is of two sorts with a text between.
fn pair(alloc: Global, first: u32, text: &[u8], second: u32) -> Result<Vec<Part>, Memory>
    ensures { IfOk result (λ items. items.items ≡ SortPart first ∷ TerminalPart text.now ∷ SortPart second ∷ []) }
{
    let mut items = Vec::with_capacity(alloc, 3)?;
    items.push(Part::Sort(first))?;
    items.push(text_of(alloc, text)?)?;
    items.push(Part::Sort(second))?;
    Ok(items)
}

/// A word with what is of a sort in parentheses.
fn call(alloc: Global, word: &[u8], sort: u32) -> Result<Vec<Part>, Memory>
    ensures { IfOk result (λ items. items.items ≡ TerminalPart word.now ∷ TerminalPart (codes "(") ∷ SortPart sort ∷ TerminalPart (codes ")") ∷ []) }
{
    let mut items = Vec::with_capacity(alloc, 4)?;
    items.push(text_of(alloc, word)?)?;
    items.push(text_of(alloc, b"(")?)?;
    items.push(Part::Sort(sort))?;
    items.push(text_of(alloc, b")")?)?;
    Ok(items)
}

/// Adds whole contents: one side, two sides, or a side and an expression of a sort.
fn add_wholes(
    alloc: Global,
    numbers: Numbers,
    sort: u32,
    prods: &mut Vec<Production>,
) -> Result<(), Memory>
    ensures { IfOk result (λ _. prods.new.items ≡ prods.old.items ++ whole_prods numbers sort) }
{
    let sides = change(alloc, numbers.side, numbers.side)?;
    let made = change(alloc, numbers.side, sort)?;
    prods.push(single(alloc, numbers, numbers.content, numbers.side)?)?;
    prods.push(several(numbers, numbers.content, sides))?;
    prods.push(several(numbers, numbers.made, made))?;
    Ok(())
}

/// Adds the elements of maps or lists, beside their entries or items: a variable, the empty one without and with its sort, and
/// a side that becomes another. A variable without a sort is a whole side.
fn add_elements(
    alloc: Global,
    numbers: Numbers,
    sort: u32,
    prods: &mut Vec<Production>,
) -> Result<(), Memory>
    requires { sort < 2 ^ 8 }
    ensures { IfOk result (λ _. prods.new.items ≡ prods.old.items ++ element_prods numbers sort) }
{
    let element = numbers.element;
    let changed = change_in_parentheses(alloc, numbers.side)?;
    prods.push(single(alloc, numbers, element, VARIABLE_PLACE + 2 * sort)?)?;
    prods.push(single(alloc, numbers, numbers.side, WILD_PLACE)?)?;
    prods.push(single(alloc, numbers, element, DOT_PLACE)?)?;
    prods.push(single(alloc, numbers, element, EMPTY_PLACE + 2 * sort)?)?;
    prods.push(several(numbers, element, changed))?;
    Ok(())
}

/// The productions of sequences: items joined by arrows.
fn seq_contents(alloc: Global, numbers: Numbers) -> Result<Vec<Production>, Memory>
    ensures { IfOk result (λ prods. prods.items ≡ seq_prods numbers) }
{
    let element = numbers.element;
    let changed = change_in_parentheses(alloc, numbers.side)?;
    let joined = pair(alloc, numbers.side, b"~>", element)?;
    let mut prods = Vec::with_capacity(alloc, 10)?;
    prods.push(single(alloc, numbers, element, sort::KITEM)?)?;
    prods.push(single(alloc, numbers, element, VARIABLE_PLACE + 2 * sort::K)?)?;
    prods.push(single(alloc, numbers, element, DOT_PLACE)?)?;
    prods.push(single(alloc, numbers, element, EMPTY_PLACE + 2 * sort::K)?)?;
    prods.push(several(numbers, element, changed))?;
    prods.push(single(alloc, numbers, numbers.side, element)?)?;
    prods.push(several(numbers, numbers.side, joined))?;
    add_wholes(alloc, numbers, sort::K, &mut prods)?;
    Ok(prods)
}

/// The productions of maps: entries, in which only the value may become another one.
fn map_contents(alloc: Global, numbers: Numbers) -> Result<Vec<Production>, Memory>
    ensures { IfOk result (λ prods. prods.items ≡ map_prods numbers) }
{
    let mapped = pair(alloc, sort::KITEM, b"|->", numbers.entry)?;
    let changed = change_in_parentheses(alloc, sort::KITEM)?;
    let mut prods = Vec::with_capacity(alloc, 12)?;
    prods.push(several(numbers, numbers.element, mapped))?;
    add_elements(alloc, numbers, sort::MAP, &mut prods)?;
    prods.push(single(alloc, numbers, numbers.entry, sort::KITEM)?)?;
    prods.push(several(numbers, numbers.entry, changed))?;
    prods.push(row_of_elements(alloc, numbers)?)?;
    add_wholes(alloc, numbers, sort::MAP, &mut prods)?;
    Ok(prods)
}

/// The productions of lists: items in a row.
fn list_contents(alloc: Global, numbers: Numbers) -> Result<Vec<Production>, Memory>
    ensures { IfOk result (λ prods. prods.items ≡ list_prods numbers) }
{
    let item = call(alloc, b"ListItem", sort::KITEM)?;
    let mut prods = Vec::with_capacity(alloc, 10)?;
    prods.push(several(numbers, numbers.element, item))?;
    add_elements(alloc, numbers, sort::LIST, &mut prods)?;
    prods.push(row_of_elements(alloc, numbers)?)?;
    add_wholes(alloc, numbers, sort::LIST, &mut prods)?;
    Ok(prods)
}

/// The productions of values of a sort: one, or one that becomes another.
fn one_contents(alloc: Global, numbers: Numbers, sort: u32) -> Result<Vec<Production>, Memory>
    ensures { IfOk result (λ prods. prods.items ≡ one_prods numbers sort) }
{
    let changed = change(alloc, sort, sort)?;
    let mut prods = Vec::with_capacity(alloc, 2)?;
    prods.push(single(alloc, numbers, numbers.content, sort)?)?;
    prods.push(several(numbers, numbers.content, changed))?;
    Ok(prods)
}

/// The productions of the contents of a kind of cell.
pub(crate) fn content_prods(
    alloc: Global,
    numbers: Numbers,
    kind: Kind,
) -> Result<Vec<Production>, Memory>
    ensures { IfOk result (λ prods. prods.items ≡ prods_of_kind numbers kind) }
{
    match kind {
        Kind::Cells => Ok(Vec::new(alloc)),
        Kind::Seq => seq_contents(alloc, numbers),
        Kind::Map => map_contents(alloc, numbers),
        Kind::List => list_contents(alloc, numbers),
        Kind::One(sort) => one_contents(alloc, numbers, sort),
    }
}
