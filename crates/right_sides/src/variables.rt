//! Variables and rests where they are bound.
ghost use Rattle.std.specs.Prelude.{◌≡◌, IfOk};
ghost use Rattle.std.specs.Option.{option_and_then};
ghost use Rattle.k_terms.specs.Operators.{as_entries, as_members};
ghost use Rattle.k_terms.specs.Sorts.{least_sort as least_sort_of};
ghost use Rattle.rule_terms.specs.Substitution.{value_at, rest_of, as_sequence, as_items_of};
ghost use Rattle.leaf_match.specs.Bindings.{meaning};
ghost use Rattle.right_sides.specs.Bound.{IsUnder};

use k_terms::{Memory, Pairs, Sorts, Value, Values, sort};
use leaf_match::{Bindings, Bound, value_of};
use std::alloc::Global;

/// The value of a variable. `None` where it is not bound.
pub(crate) fn variable_value(
    alloc: Global,
    bindings: &Bindings<'_>,
    var: u32,
) -> Result<Option<Value>, Memory>
    ensures { IfOk result (IsUnder bindings.now (λ s. value_at s var)) }
{
    match bindings.bound(var) {
        Some(bound) => Ok(Some(value_of(alloc, bound)?)),
        None => Ok(None),
    }
}

/// The least sort of what a variable stands for.
pub(crate) fn least_sort(sorts: &Sorts, bound: &Bound<'_>) -> u32
    ensures { result ≡ least_sort_of sorts.now (meaning bound.now) }
{
    match bound {
        Bound::Whole(value) => sorts.least_sort(value),
        Bound::Items(production, _) => sorts.production_sort(*production),
        Bound::Seq(_) => sort::K,
        Bound::List(_) => sort::LIST,
        Bound::Map(_, _) => sort::MAP,
    }
}

/// The items of a whole sequence.
fn sequence_items(value: Value) -> Option<Values>
    ensures { result ≡ as_sequence value }
{
    match value {
        Value::Seq(items) => Some(items),
        _ => None,
    }
}

/// The items of a list of a production.
fn production_items(production: u32, value: Value) -> Option<Values>
    ensures { result ≡ as_items_of production value }
{
    match value {
        Value::Items(other, items) => {
            if other == production {
                return Some(items);
            }
            None
        }
        _ => None,
    }
}

/// The members of a list.
fn list_members(value: Value) -> Option<Values>
    ensures { result ≡ as_members value }
{
    match value {
        Value::List(members) => Some(members),
        _ => None,
    }
}

/// The entries of a map.
fn map_entries(value: Value) -> Option<Pairs>
    ensures { result ≡ as_entries value }
{
    match value {
        Value::Map(entries) => Some(entries),
        _ => None,
    }
}

/// The items that the rest of a sequence stands for; none where there is no rest.
pub(crate) fn sequence_rest(
    alloc: Global,
    bindings: &Bindings<'_>,
    rest: Option<u32>,
) -> Result<Option<Values>, Memory>
    ensures { IfOk result (IsUnder bindings.now (rest_of as_sequence rest)) }
{
    let Some(var) = rest else {
        return Ok(Some(Values::new(alloc)));
    };
    match variable_value(alloc, bindings, var)? {
        Some(value) => Ok(sequence_items(value)),
        None => Ok(None),
    }
}

/// The items that the rest of a list of a production stands for.
pub(crate) fn production_rest(
    alloc: Global,
    bindings: &Bindings<'_>,
    production: u32,
    rest: Option<u32>,
) -> Result<Option<Values>, Memory>
    ensures { IfOk result (IsUnder bindings.now (rest_of (as_items_of production) rest)) }
{
    let Some(var) = rest else {
        return Ok(Some(Values::new(alloc)));
    };
    match variable_value(alloc, bindings, var)? {
        Some(value) => Ok(production_items(production, value)),
        None => Ok(None),
    }
}

/// The members that the rest of a list stands for.
pub(crate) fn list_rest(
    alloc: Global,
    bindings: &Bindings<'_>,
    rest: Option<u32>,
) -> Result<Option<Values>, Memory>
    ensures { IfOk result (IsUnder bindings.now (rest_of as_members rest)) }
{
    let Some(var) = rest else {
        return Ok(Some(Values::new(alloc)));
    };
    match variable_value(alloc, bindings, var)? {
        Some(value) => Ok(list_members(value)),
        None => Ok(None),
    }
}

/// The entries that the rest of a map stands for.
pub(crate) fn map_rest(
    alloc: Global,
    bindings: &Bindings<'_>,
    rest: Option<u32>,
) -> Result<Option<Pairs>, Memory>
    ensures { IfOk result (IsUnder bindings.now (rest_of as_entries rest)) }
{
    let Some(var) = rest else {
        return Ok(Some(Pairs::new(alloc)));
    };
    match variable_value(alloc, bindings, var)? {
        Some(value) => Ok(map_entries(value)),
        None => Ok(None),
    }
}
