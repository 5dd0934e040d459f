//! Copies of sentences and of their parts.
ghost use Rattle.std.specs.Prelude.{◌≡◌, IfOk};

use file_reader::Sentence;
use k_terms::{Many, Memory, Numbers, copy_text};
use production_reader::{Attrs, Form, Item, Prod, Strict};
use std::alloc::Global;

fn copy_item(alloc: Global, item: &Item) -> Result<Item, Memory>
    ensures { IfOk result (λ it. it ≡ item.now) }
{
    Ok(match item {
        Item::Terminal(text) => Item::Terminal(copy_text(alloc, text)?),
        Item::Sort(sort) => Item::Sort(copy_text(alloc, sort)?),
    })
}

fn copy_items(alloc: Global, items: &[Item]) -> Result<Many<Item>, Memory>
    ensures { IfOk result (λ it. it ≡ items.now) }
{
    let mut copies = Vec::with_capacity(alloc, items.len())?;
    for item in items {
        copies.push(copy_item(alloc, item)?)?;
    }
    Ok(Many::from_vec(copies))
}

/// A copy of how a production is written.
pub fn copy_form(alloc: Global, form: &Form) -> Result<Form, Memory>
    ensures { IfOk result (λ it. it ≡ form.now) }
{
    Ok(match form {
        Form::Plain => Form::Plain,
        Form::Prefix(word) => Form::Prefix(copy_text(alloc, word)?),
        Form::UserList { separator } => Form::UserList {
            separator: copy_text(alloc, separator)?,
        },
    })
}

fn copy_numbers(alloc: Global, numbers: &Numbers) -> Result<Numbers, Memory>
    ensures { IfOk result (λ it. it ≡ numbers.now) }
{
    Ok(Many::from_vec(Vec::from_slice(alloc, numbers.as_slice())?))
}

fn copy_strict(alloc: Global, strict: &Strict) -> Result<Strict, Memory>
    ensures { IfOk result (λ it. it ≡ strict.now) }
{
    Ok(match strict {
        Strict::No => Strict::No,
        Strict::All => Strict::All,
        Strict::Places(places) => Strict::Places(copy_numbers(alloc, places)?),
    })
}

/// A copy of attributes.
pub fn copy_attrs(alloc: Global, attrs: &Attrs) -> Result<Attrs, Memory>
    ensures { IfOk result (λ it. it ≡ attrs.now) }
{
    Ok(Attrs {
        left: attrs.left,
        right: attrs.right,
        non_assoc: attrs.non_assoc,
        bracket: attrs.bracket,
        strict: copy_strict(alloc, &attrs.strict)?,
        seqstrict: attrs.seqstrict,
    })
}

fn copy_prod(alloc: Global, prod: &Prod) -> Result<Prod, Memory>
    ensures { IfOk result (λ it. it ≡ prod.now) }
{
    Ok(Prod {
        items: copy_items(alloc, prod.items.as_slice())?,
        attrs: copy_attrs(alloc, &prod.attrs)?,
        form: copy_form(alloc, &prod.form)?,
    })
}

fn copy_group(alloc: Global, group: &[Prod]) -> Result<Many<Prod>, Memory>
    ensures { IfOk result (λ it. it ≡ group.now) }
{
    let mut copies = Vec::with_capacity(alloc, group.len())?;
    for prod in group {
        copies.push(copy_prod(alloc, prod)?)?;
    }
    Ok(Many::from_vec(copies))
}

fn copy_groups(alloc: Global, groups: &[Many<Prod>]) -> Result<Many<Many<Prod>>, Memory>
    ensures { IfOk result (λ it. it ≡ groups.now) }
{
    let mut copies = Vec::with_capacity(alloc, groups.len())?;
    for group in groups {
        copies.push(copy_group(alloc, group.as_slice())?)?;
    }
    Ok(Many::from_vec(copies))
}

/// A copy of a sentence.
pub(crate) fn copy_sentence(alloc: Global, sentence: &Sentence) -> Result<Sentence, Memory>
    ensures { IfOk result (λ it. it ≡ sentence.now) }
{
    Ok(match sentence {
        Sentence::Syntax { sort, groups } => Sentence::Syntax {
            sort: copy_text(alloc, sort)?,
            groups: copy_groups(alloc, groups.as_slice())?,
        },
        Sentence::Config { first, past } => Sentence::Config {
            first: *first,
            past: *past,
        },
        Sentence::Rule { at, first, past } => Sentence::Rule {
            at: *at,
            first: *first,
            past: *past,
        },
    })
}
