ghost use Rattle.std.specs.Prelude.{◌≡◌, ◌↔◌, ℕ, List, [], ◌∷◌, ◌++◌, Some, IsTrue, IfOk, IfSome, IfNone, OnOk};
ghost use Rattle.rule_terms.specs.Substitution.{Subst, AreOfSorts};
ghost use Rattle.front_run.specs.Bindings.{wholes};
ghost use Rattle.front_run.specs.Front.{IsFront, HasParts, IsFrontRule, Rewrites};

use crate::bind::bind;
use crate::build::{DEPTH_LIMIT, build};
use k_terms::{Many, Memory, Sorts, Value, Values, copy, depth, sort};
use rule_terms::{Body, CellPat, Pattern, Rule};
use std::alloc::Global;

/// The term and the variable of the rest of a side that is one term at the front of the root, where it is one.
fn front_of(side: &CellPat) -> Option<(&Pattern, u32)>
    ensures front { IfSome result (λ front. IsFront side.now (front.0.now ∷ []) (Some front.1)) }
    ensures none { IfNone result ((term : Pattern) (rest : ℕ) → IsFront side.now (term ∷ []) (Some rest) → ⊥) }
{
    let Body::Seq(parts, Some(rest)) = &side.body else {
        return None;
    };
    match parts.as_slice() {
        [term] if side.cell == 0 && side.mark == 0 => Some((term, *rest)),
        _ => None,
    }
}

/// The terms of a rule that makes another term of one at the front, and the sorts of their variables.
#[derive(Clone, Copy)]
struct Parts<'a> {
    left: &'a Pattern,
    right: &'a Pattern,
    variables: &'a [u32],
}

/// The parts of a rule that makes another term of one at the front, keeps the rest and has no condition.
fn parts_of<'a>(sorts: &Sorts, rule: &'a Rule) -> Option<Parts<'a>>
    ensures parts { IfSome result (λ parts. HasParts sorts.now rule.now parts.left.now parts.right.now parts.variables.now) }
    ensures none { IfNone result ((left right : Pattern) (variables : List ℕ) → HasParts sorts.now rule.now left right variables → ⊥) }
{
    let (left, rest) = front_of(&rule.left)?;
    let (right, right_rest) = front_of(&rule.right)?;
    let (rest_sort, variables) = rule.vars.as_slice().split_last()?;
    if !rule.when.is_empty() || !sorts.below(sort::K, *rest_sort) {
        return None;
    }
    if rest as usize != variables.len() || right_rest != rest {
        return None;
    }
    Some(Parts {
        left,
        right,
        variables,
    })
}

/// Whether each value is of its variable's sort.
fn are_of_sorts(sorts: &Sorts, variables: &[u32], bound: &[&Value]) -> bool
    ensures { IsTrue result ↔ AreOfSorts sorts.now variables.now (wholes bound.now) }
{
    if variables.len() != bound.len() {
        return false;
    }
    for (i, variable) in variables.iter().enumerate() {
        let value = bound[i];
        if !sorts.below(sorts.least_sort(value), *variable) {
            return false;
        }
    }
    true
}

/// A value, and copies of others after it.
fn put_before(alloc: Global, first: Value, others: &[Value]) -> Result<Values, Memory>
    ensures { IfOk result (λ values. values ≡ first ∷ others.now) }
{
    let mut values = Vec::with_capacity(alloc, 1)?;
    values.push(first)?;
    for other in others {
        values.push(copy(alloc, other)?)?;
    }
    Ok(Many::from_vec(values))
}

/// What a rule makes of a sequence at the front of the cell `k`: the sequence after one firing, where the rule matches.
pub fn rewrite(
    alloc: Global,
    sorts: &Sorts,
    rule: &Rule,
    values: &[Value],
) -> Result<Option<Values>, Memory>
    ensures rewrites { IfOk result (λ found. IfSome found (λ new. (s : Subst) × Rewrites sorts.now rule.now s values.now new)) }
    ensures none { IfOk result (λ found. IfNone found (IsFrontRule sorts.now rule.now →
        (s : Subst) (new : List Value) → Rewrites sorts.now rule.now s values.now new → ⊥)) }
{
    let Some(parts) = parts_of(sorts, rule) else {
        return Ok(None);
    };
    let Some((first, others)) = values.split_first() else {
        return Ok(None);
    };
    if depth(first) > DEPTH_LIMIT {
        return Ok(None);
    }
    let mut bound = Vec::new(alloc);
    if !bind(parts.left, first, &mut bound)? {
        return Ok(None);
    }
    if !are_of_sorts(sorts, parts.variables, bound.as_slice()) {
        return Ok(None);
    }
    let Some(made) = build(alloc, parts.right, bound.as_slice())? else {
        return Ok(None);
    };
    Ok(Some(put_before(alloc, made, others)?))
}
