//! Copies of productions.
ghost use Rattle.std.specs.Prelude.{◌≡◌, ◌++◌, IfOk};

use crate::production::{Part, Production};
use k_terms::{Many, Memory, Numbers, Text, copy_text};
use production_reader::{Attrs, Form, Strict};
use std::alloc::Global;

/// A copy of an item.
pub fn copy_part(alloc: Global, part: &Part) -> Result<Part, Memory>
    ensures { IfOk result (λ it. it ≡ part.now) }
{
    Ok(match part {
        Part::Terminal(text) => Part::Terminal(copy_text(alloc, text)?),
        Part::Sort(sort) => Part::Sort(*sort),
    })
}

fn copy_items(alloc: Global, items: &[Part]) -> Result<Many<Part>, Memory>
    ensures { IfOk result (λ it. it ≡ items.now) }
{
    let mut copies = Vec::with_capacity(alloc, items.len())?;
    for item in items {
        copies.push(copy_part(alloc, item)?)?;
    }
    Ok(Many::from_vec(copies))
}

fn copy_form(alloc: Global, form: &Form) -> Result<Form, Memory>
    ensures { IfOk result (λ it. it ≡ form.now) }
{
    Ok(match form {
        Form::Plain => Form::Plain,
        Form::Prefix(word) => Form::Prefix(copy_text(alloc, word)?),
        Form::UserList { separator } => Form::UserList {
            separator: copy_text(alloc, separator)?,
        },
    })
}

fn copy_numbers(alloc: Global, numbers: &Numbers) -> Result<Numbers, Memory>
    ensures { IfOk result (λ it. it ≡ numbers.now) }
{
    Ok(Many::from_vec(Vec::from_slice(alloc, numbers.as_slice())?))
}

fn copy_strict(alloc: Global, strict: &Strict) -> Result<Strict, Memory>
    ensures { IfOk result (λ it. it ≡ strict.now) }
{
    Ok(match strict {
        Strict::No => Strict::No,
        Strict::All => Strict::All,
        Strict::Places(places) => Strict::Places(copy_numbers(alloc, places)?),
    })
}

/// A copy of attributes.
pub fn copy_attrs(alloc: Global, attrs: &Attrs) -> Result<Attrs, Memory>
    ensures { IfOk result (λ it. it ≡ attrs.now) }
{
    Ok(Attrs {
        left: attrs.left,
        right: attrs.right,
        non_assoc: attrs.non_assoc,
        bracket: attrs.bracket,
        strict: copy_strict(alloc, &attrs.strict)?,
        seqstrict: attrs.seqstrict,
    })
}

fn copy_production(alloc: Global, production: &Production) -> Result<Production, Memory>
    ensures { IfOk result (λ it. it ≡ production.now) }
{
    Ok(Production {
        sort: production.sort,
        sentence: production.sentence,
        group: production.group,
        items: copy_items(alloc, production.items.as_slice())?,
        attrs: copy_attrs(alloc, &production.attrs)?,
        form: copy_form(alloc, &production.form)?,
    })
}

/// Copies of productions.
pub(crate) fn copy_prods(alloc: Global, prods: &[Production]) -> Result<Vec<Production>, Memory>
    ensures { IfOk result (λ it. it.items ≡ prods.now) }
{
    let mut copies = Vec::with_capacity(alloc, prods.len())?;
    for production in prods {
        copies.push(copy_production(alloc, production)?)?;
    }
    Ok(copies)
}

/// Adds copies of productions to others.
pub(crate) fn add_copies(
    alloc: Global,
    more: &[Production],
    prods: &mut Vec<Production>,
) -> Result<(), Memory>
    ensures { IfOk result (λ _. prods.new.items ≡ prods.old.items ++ more.now) }
{
    for production in more {
        prods.push(copy_production(alloc, production)?)?;
    }
    Ok(())
}

/// Copies of the names of sorts.
pub(crate) fn copy_names(alloc: Global, names: &[Text]) -> Result<Many<Text>, Memory>
    ensures { IfOk result (λ it. it ≡ names.now) }
{
    let mut copies = Vec::with_capacity(alloc, names.len())?;
    for name in names {
        copies.push(copy_text(alloc, name)?)?;
    }
    Ok(Many::from_vec(copies))
}
