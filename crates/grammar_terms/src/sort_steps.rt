//! The order of sorts that productions make.
ghost use Rattle.std.specs.Prelude.{◌≡◌, ◌++◌, ◌∷◌, [], map, IfOk};
ghost use Rattle.grammar_terms.specs.Grammar.{has_no_attribute as no_attribute, is_list as list_form, is_not_strict as not_strict, lone_sort as sort_alone, step_from as step_of, steps_of, order_by};

use crate::production::{Part, Production};
use k_terms::{Memory, Sorts};
use production_reader::{Attrs, Form, Strict};
use std::alloc::Global;

fn is_not_strict(strict: &Strict) -> bool
    ensures { result ≡ not_strict strict.now }
{
    match strict {
        Strict::No => true,
        Strict::All | Strict::Places(_) => false,
    }
}

fn has_no_attribute(attrs: &Attrs) -> bool
    ensures { result ≡ no_attribute attrs.now }
{
    !attrs.left
        && !attrs.right
        && !attrs.non_assoc
        && !attrs.bracket
        && is_not_strict(&attrs.strict)
        && !attrs.seqstrict
}

fn is_list(form: &Form) -> bool
    ensures { result ≡ list_form form.now }
{
    match form {
        Form::UserList { .. } => true,
        Form::Plain | Form::Prefix(_) => false,
    }
}

/// The sort of an item that stands alone.
pub fn lone_sort(items: &[Part]) -> Option<u32>
    ensures { result ≡ sort_alone items.now }
{
    match items {
        [Part::Sort(sort)] => Some(*sort),
        _ => None,
    }
}

/// The lower sort of a subsort step, where the production is one: it has one item, a sort, and no attribute, and is no
/// list production.
pub fn step_from(production: &Production) -> Option<u32>
    ensures { result ≡ step_of production.now }
{
    if has_no_attribute(&production.attrs) && !is_list(&production.form) {
        lone_sort(production.items.as_slice())
    } else {
        None
    }
}

/// The subsort steps among productions, each with the lower sort first.
fn sort_steps(alloc: Global, prods: &[Production]) -> Result<Vec<(u32, u32)>, Memory>
    ensures { IfOk result (λ steps. steps.items ≡ steps_of prods.now) }
{
    let mut steps = Vec::new(alloc);
    for production in prods {
        if let Some(low) = step_from(production) {
            steps.push((low, production.sort))?;
        }
    }
    Ok(steps)
}

/// The sort of each production.
fn prod_sorts(alloc: Global, prods: &[Production]) -> Result<Vec<u32>, Memory>
    ensures { IfOk result (λ sorts. sorts.items ≡ map (λ production. production.sort) prods.now) }
{
    let mut sorts = Vec::with_capacity(alloc, prods.len())?;
    for production in prods {
        sorts.push(production.sort)?;
    }
    Ok(sorts)
}

/// The order of sorts that productions make.
pub(crate) fn order_by_prods(alloc: Global, prods: &[Production]) -> Result<Sorts, Memory>
    ensures { IfOk result (λ sorts. sorts ≡ order_by prods.now) }
{
    let steps = sort_steps(alloc, prods)?;
    let sorts = prod_sorts(alloc, prods)?;
    Sorts::new(alloc, &steps, &sorts)
}
