//! List productions.
ghost use Rattle.std.specs.Prelude.{◌≡◌, ◌≤◌, ◌↔◌, [], ◌∷◌, IfSome, IsTrue, MatchResult, length};
ghost use Rattle.production_reader.specs.Allowed.{IsSeparator};
ghost use Rattle.production_reader.specs.Heads.{Anything};
ghost use Rattle.production_reader.specs.Items.{IsList, prod_of_list, signs_of_user_list};
ghost use Rattle.production_reader.specs.Reading.{IsReadAs, Stops};
ghost use Rattle.production_reader.specs.declared.prod.Item.TheVariants.{Sort};

use crate::attributes::no_attrs;
use crate::prefixes::read_sort;
use crate::prod::{Form, Item, Prod};
use crate::signs::{is_mark, text_at};
use crate::source::Source;
use crate::stop::Stop;
use crate::strings::{is_terminal, text_of_string};
use k_terms::{Many, Text};
use std::alloc::Global;

/// Whether a text may stand between the elements of a list.
fn is_separator(text: &[u8]) -> bool
    ensures { IsTrue result ↔ IsSeparator text.now }
{
    if text.is_empty() {
        return true;
    }
    is_terminal(text)
}

/// The items of a production that has one sort alone; none where memory is wanting.
pub(crate) fn one_sort(alloc: Global, sort: Text) -> Option<Many<Item>>
    ensures { IfSome result (λ items. items ≡ Sort sort ∷ []) }
{
    let mut items = Many::new(alloc);
    if let Err(_failed) = items.push(Item::Sort(sort)) {
        return None;
    }
    Some(items)
}

/// Reads what follows the brace of a list production.
pub(crate) fn read_user_list(
    alloc: Global,
    source: &Source<'_>,
    from: usize,
) -> Result<(Prod, usize), Stop>
    requires { from ≤ length source.now }
    ensures { MatchResult result
        (λ found. IsReadAs IsList signs_of_user_list Anything prod_of_list source.now from found.0 found.1)
        (λ stop. Stops IsList signs_of_user_list Anything source.now from stop) }
{
    let (sort, next) = match read_sort(alloc, source, from) {
        Ok(read) => read,
        Err(stop) => return Err(stop),
    };
    if !is_mark(source, next, b',') {
        return Err(Stop::Expected { at: next });
    }
    let Some(string) = text_at(source, next + 1) else {
        return Err(Stop::Expected { at: next + 1 });
    };
    let Some(separator) = text_of_string(alloc, string) else {
        return Err(Stop::Memory);
    };
    if !is_separator(separator.as_slice()) {
        return Err(Stop::Expected { at: next + 1 });
    }
    if !is_mark(source, next + 1 + 1, b'}') {
        return Err(Stop::Expected { at: next + 1 + 1 });
    }
    let Some(items) = one_sort(alloc, sort) else {
        return Err(Stop::Memory);
    };
    let production = Prod {
        items,
        attrs: no_attrs(),
        form: Form::UserList { separator },
    };
    Ok((production, next + 1 + 1 + 1))
}
