//! Conditions of a rule.
ghost use Rattle.std.specs.Prelude.{◌≡◌, ◌↔◌, true, Some, IfOk, IsTrue};
ghost use Rattle.std.specs.List.{AllByRecursion};
ghost use Rattle.k_terms.specs.declared.value.Value.{Bool as Truth};
ghost use Rattle.rule_terms.specs.declared.rule.Cond.TheVariants.{IsSort, NotSort};
ghost use Rattle.rule_terms.specs.Eval.{IsMet};
ghost use Rattle.right_sides.specs.Bound.{IsDecided};

use crate::evaluation::evaluate;
use crate::variables::least_sort;
use k_terms::{Memory, Sorts, Value};
use leaf_match::Bindings;
use rule_terms::Cond;
use std::alloc::Global;

/// Whether a value is there and true.
fn is_true(value: Option<Value>) -> bool
    ensures { IsTrue result ↔ (value ≡ Some (Truth true)) }
{
    match value {
        Some(Value::Bool(truth)) => truth,
        _ => false,
    }
}

/// Whether the variable with a number is bound to a value of a sort.
fn is_of_sort(sorts: &Sorts, bindings: &Bindings<'_>, var: u32, sort: u32) -> bool
    ensures { IsDecided bindings.now (λ s. IsMet sorts.now s (IsSort var sort)) result }
{
    match bindings.bound(var) {
        Some(bound) => sorts.below(least_sort(sorts, bound), sort),
        None => false,
    }
}

/// Whether the variable with a number is bound to a value that is not of a sort.
fn is_of_other_sort(sorts: &Sorts, bindings: &Bindings<'_>, var: u32, sort: u32) -> bool
    ensures { IsDecided bindings.now (λ s. IsMet sorts.now s (NotSort var sort)) result }
{
    match bindings.bound(var) {
        Some(bound) => !sorts.below(least_sort(sorts, bound), sort),
        None => false,
    }
}

/// Whether a condition is met.
pub fn is_met(
    alloc: Global,
    sorts: &Sorts,
    bindings: &Bindings<'_>,
    condition: &Cond,
) -> Result<bool, Memory>
    ensures { IfOk result (IsDecided bindings.now (λ s. IsMet sorts.now s condition.now)) }
{
    Ok(match condition {
        Cond::Holds(expression) => is_true(evaluate(alloc, bindings, expression)?),
        Cond::IsSort(var, sort) => is_of_sort(sorts, bindings, *var, *sort),
        Cond::NotSort(var, sort) => is_of_other_sort(sorts, bindings, *var, *sort),
    })
}

/// Whether each of these conditions is met.
pub fn all_met(
    alloc: Global,
    sorts: &Sorts,
    bindings: &Bindings<'_>,
    conditions: &[Cond],
) -> Result<bool, Memory>
    ensures { IfOk result (IsDecided bindings.now (λ s. AllByRecursion (IsMet sorts.now s) conditions.now)) }
{
    for condition in conditions {
        if !is_met(alloc, sorts, bindings, condition)? {
            return Ok(false);
        }
    }
    Ok(true)
}
