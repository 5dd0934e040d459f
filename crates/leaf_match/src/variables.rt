ghost use Rattle.std.specs.Prelude.{◌≡◌, ◌↔◌, ◌==◌, ℕ, IfOk, IsTrue, Some, slice_get, option_copied};
ghost use Rattle.k_terms.specs.Sorts.{Below, least_sort as least_sort_of};
ghost use Rattle.rule_terms.specs.Substitution.{value_at};
ghost use Rattle.leaf_match.specs.Bindings.{meaning, HasRisingPlaces, HaveRisingPlaces, partial_of, AreSuited, IsCompared, Tells, Reaches};

use crate::bound::{Bound, is_same};
use k_terms::{Memory, Sorts, sort};
use std::alloc::Global;

/// The variables of a rule: the order of sorts, and each variable's sort by its number.
#[derive(Clone, Copy)]
pub struct Variables<'r> {
    pub sorts: &'r Sorts,
    pub vars: &'r [u32],
}

/// The least sort of what a variable stands for.
fn least_sort(sorts: &Sorts, bound: &Bound<'_>) -> u32
    ensures { result ≡ least_sort_of sorts.now (meaning bound.now) }
{
    match bound {
        Bound::Whole(value) => sorts.least_sort(value),
        Bound::Items(production, _) => sorts.production_sort(*production),
        Bound::Seq(_) => sort::K,
        Bound::List(_) => sort::LIST,
        Bound::Map(_, _) => sort::MAP,
    }
}

/// What the variable with a number stands for; `None` where it has no place.
pub(crate) fn bound_at<'b, 'a>(
    bounds: &'b [Option<Bound<'a>>],
    place: usize,
) -> Option<&'b Option<Bound<'a>>>
    ensures { option_copied result ≡ slice_get bounds.now place }
{
    bounds.get(place)
}

/// Whether the variable with a number stands for this value, where it is bound or has no place. `None` where it is free.
fn compared(
    alloc: Global,
    bounds: &[Option<Bound<'_>>],
    number: u32,
    bound: &Bound<'_>,
) -> Result<Option<bool>, Memory>
    ensures { IfOk result (IsCompared (partial_of bounds.now) number (meaning bound.now)) }
{
    match bound_at(bounds, number as usize) {
        None => Ok(Some(false)),
        Some(None) => Ok(None),
        Some(Some(other)) => Ok(Some(is_same(alloc, other, bound)?)),
    }
}

/// Binds the variable with a number, which may be bound already. `false` where it has no place, stands for another value, or
/// is of another sort.
pub(crate) fn bind<'a>(
    alloc: Global,
    variables: &Variables<'_>,
    number: u32,
    bound: Bound<'a>,
    bounds: &mut Vec<Option<Bound<'a>>>,
) -> Result<bool, Memory>
    requires { AreSuited variables.now.sorts.now variables.now.vars.now (partial_of bounds.old.items) }
    ensures suited { IfOk result (λ _. AreSuited variables.now.sorts.now variables.now.vars.now (partial_of bounds.new.items)) }
    ensures rising { HasRisingPlaces bound.entry → HaveRisingPlaces bounds.old.items → HaveRisingPlaces bounds.new.items }
    ensures reaches { IfOk result (λ found. Reaches found (partial_of bounds.old.items) (partial_of bounds.new.items) (λ x. x == number)) }
    ensures tells { IfOk result (λ found. Tells variables.now.sorts.now variables.now.vars.now found (partial_of bounds.old.items) (partial_of bounds.new.items)
        (λ s. value_at s number ≡ Some (meaning bound.entry))) }
{
    match compared(alloc, bounds, number, &bound)? {
        Some(found) => return Ok(found),
        None => {}
    }
    let place = number as usize;
    if !variables
        .sorts
        .below(least_sort(variables.sorts, &bound), variables.vars[place])
    {
        return Ok(false);
    }
    bounds[place] = Some(bound);
    Ok(true)
}
