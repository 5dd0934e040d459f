//! The labels of productions.
ghost use Rattle.std.specs.Prelude.{◌≡◌, ◌++◌, map, IfOk};
ghost use Rattle.grammar_terms.specs.Grammar.{label_by, label_of as label_in, sort_name};

use crate::production::{Part, Production};
use k_terms::{Many, Memory, Text, copy_text};
use production_reader::Form;
use std::alloc::Global;

/// The terminals of items in order, with `_` for each sort.
fn items_label(alloc: Global, items: &[Part]) -> Result<Text, Memory>
    ensures { IfOk result (λ label. label ≡ label_by items.now) }
{
    let mut label = Vec::new(alloc);
    for item in items {
        match item {
            Part::Terminal(text) => label.extend_from_slice(text.as_slice())?,
            Part::Sort(_) => label.push(b'_')?,
        }
    }
    Ok(Many::from_vec(label))
}

/// A copy of the name of a sort, and nothing where it has none.
fn name_of_sort(alloc: Global, names: &[Text], sort: u32) -> Result<Text, Memory>
    ensures { IfOk result (λ name. name ≡ sort_name names.now sort) }
{
    match names.get(sort as usize) {
        Some(name) => copy_text(alloc, name),
        None => Ok(Many::new(alloc)),
    }
}

/// The label of a production.
fn label_of(alloc: Global, names: &[Text], production: &Production) -> Result<Text, Memory>
    ensures { IfOk result (λ label. label ≡ label_in names.now production.now) }
{
    match &production.form {
        Form::Plain => items_label(alloc, production.items.as_slice()),
        Form::Prefix(word) => copy_text(alloc, word),
        Form::UserList { .. } => name_of_sort(alloc, names, production.sort),
    }
}

/// The label of each production.
pub(crate) fn labels_of(
    alloc: Global,
    names: &[Text],
    prods: &[Production],
) -> Result<Many<Text>, Memory>
    ensures { IfOk result (λ labels. labels ≡ map (label_in names.now) prods.now) }
{
    let mut labels = Vec::with_capacity(alloc, prods.len())?;
    for production in prods {
        labels.push(label_of(alloc, names, production)?)?;
    }
    Ok(Many::from_vec(labels))
}
