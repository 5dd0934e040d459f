//! Patterns without operators, matched against values.
ghost use Rattle.std.specs.Prelude.{◌≡◌, ◌≤◌, ◌||◌, Some, IfOk, IsTrue};
ghost use Rattle.std.specs.List.{AllByRecursion, list_all, list_any};
ghost use Rattle.k_terms.specs.Value.{depth_of};
ghost use Rattle.k_terms.specs.Operators.{depth_limit};
ghost use Rattle.rule_terms.specs.Sound.{has_no_operator};
ghost use Rattle.rule_terms.specs.Options.{joined};
ghost use Rattle.rule_terms.specs.Substitution.{rest_of, as_sequence, as_items_of};
ghost use Rattle.rule_terms.specs.Eval.{eval, eval_all};
ghost use Rattle.rule_terms.specs.Patterns.{mentions, is_rest};
ghost use Rattle.leaf_match.specs.Depths.{IsWithinDepth};
ghost use Rattle.leaf_match.specs.Bindings.{AreSuited, Tells, Reaches, node_at, items_at, sequence_at, freezer_at};

use crate::bindings::Bindings;
use crate::bound::Bound;
use crate::variables::Variables;
use k_terms::{Memory, Value, equal};
use rule_terms::Pattern;
use std::alloc::Global;

/// Matches a pattern against a value: the variables that stand in it are bound. `false` where no substitution that agrees
/// with what is bound gives the pattern this value. No depth is computed: that a constructor is found tells nothing where the
/// value is deeper than 400.
#[cycle(matching)]
pub(crate) fn match_pattern<'a>(
    alloc: Global,
    variables: &Variables<'_>,
    pattern: &Pattern,
    value: &'a Value,
    bindings: &mut Bindings<'a>,
) -> Result<bool, Memory>
    requires suited { AreSuited variables.now.sorts.now variables.now.vars.now bindings.old }
    requires plain { IsTrue (has_no_operator pattern.now) }
    ensures suited { IfOk result (λ _. AreSuited variables.now.sorts.now variables.now.vars.now bindings.new) }
    ensures reaches { IfOk result (λ found. Reaches found bindings.old bindings.new (λ x. mentions x pattern.now)) }
    ensures tells { IsWithinDepth pattern.now value.now → IfOk result (λ found. Tells variables.now.sorts.now variables.now.vars.now found bindings.old bindings.new
        (λ s. eval pattern.now s ≡ Some value.now)) }
{
    let found = match pattern {
        Pattern::Var(number) => bindings.bind(alloc, variables, *number, Bound::Whole(value))?,
        Pattern::Lit(literal) => equal(literal, value),
        Pattern::Node(production, parts) => {
            match_node(
                alloc,
                variables,
                *production,
                parts.as_slice(),
                value,
                bindings,
            )?
        }
        Pattern::Items(production, parts, rest) => {
            match_items(
                alloc,
                variables,
                *production,
                parts.as_slice(),
                *rest,
                value,
                bindings,
            )?
        }
        Pattern::Seq(parts, rest) => {
            match_sequence(alloc, variables, parts.as_slice(), *rest, value, bindings)?
        }
        Pattern::Freezer(production, place, parts) => {
            match_freezer(
                alloc,
                variables,
                *production,
                *place,
                parts.as_slice(),
                value,
                bindings,
            )?
        }
        Pattern::Apply(_, _) => false,
    };
    Ok(found)
}

#[cycle(matching)]
fn match_node<'a>(
    alloc: Global,
    variables: &Variables<'_>,
    production: u32,
    parts: &[Pattern],
    value: &'a Value,
    bindings: &mut Bindings<'a>,
) -> Result<bool, Memory>
    requires suited { AreSuited variables.now.sorts.now variables.now.vars.now bindings.old }
    requires plain { IsTrue (list_all has_no_operator parts.now) }
    ensures suited { IfOk result (λ _. AreSuited variables.now.sorts.now variables.now.vars.now bindings.new) }
    ensures reaches { IfOk result (λ found. Reaches found bindings.old bindings.new (λ x. list_any (mentions x) parts.now)) }
    ensures tells { depth_of value.now ≤ depth_limit → IfOk result (λ found. Tells variables.now.sorts.now variables.now.vars.now found bindings.old bindings.new
        (λ s. node_at production (eval_all parts.now s) ≡ Some value.now)) }
{
    let Value::Node(other, values) = value else {
        return Ok(false);
    };
    if *other != production {
        return Ok(false);
    }
    let found = match_all(alloc, variables, parts, values.as_slice(), bindings)?;
    Ok(found)
}

#[cycle(matching)]
fn match_freezer<'a>(
    alloc: Global,
    variables: &Variables<'_>,
    production: u32,
    place: u32,
    parts: &[Pattern],
    value: &'a Value,
    bindings: &mut Bindings<'a>,
) -> Result<bool, Memory>
    requires suited { AreSuited variables.now.sorts.now variables.now.vars.now bindings.old }
    requires plain { IsTrue (list_all has_no_operator parts.now) }
    ensures suited { IfOk result (λ _. AreSuited variables.now.sorts.now variables.now.vars.now bindings.new) }
    ensures reaches { IfOk result (λ found. Reaches found bindings.old bindings.new (λ x. list_any (mentions x) parts.now)) }
    ensures tells { depth_of value.now ≤ depth_limit → IfOk result (λ found. Tells variables.now.sorts.now variables.now.vars.now found bindings.old bindings.new
        (λ s. freezer_at production place (eval_all parts.now s) ≡ Some value.now)) }
{
    let Value::Freezer(other, hole, values) = value else {
        return Ok(false);
    };
    if *other != production || *hole != place {
        return Ok(false);
    }
    let found = match_all(alloc, variables, parts, values.as_slice(), bindings)?;
    Ok(found)
}

#[cycle(matching)]
fn match_items<'a>(
    alloc: Global,
    variables: &Variables<'_>,
    production: u32,
    parts: &[Pattern],
    rest: Option<u32>,
    value: &'a Value,
    bindings: &mut Bindings<'a>,
) -> Result<bool, Memory>
    requires suited { AreSuited variables.now.sorts.now variables.now.vars.now bindings.old }
    requires plain { IsTrue (list_all has_no_operator parts.now) }
    ensures suited { IfOk result (λ _. AreSuited variables.now.sorts.now variables.now.vars.now bindings.new) }
    ensures reaches { IfOk result (λ found. Reaches found bindings.old bindings.new (λ x. list_any (mentions x) parts.now || is_rest x rest)) }
    ensures tells { depth_of value.now ≤ depth_limit → IfOk result (λ found. Tells variables.now.sorts.now variables.now.vars.now found bindings.old bindings.new
        (λ s. items_at production (joined (eval_all parts.now s) (rest_of (as_items_of production) rest s)) ≡ Some value.now)) }
{
    let Value::Items(other, values) = value else {
        return Ok(false);
    };
    if *other != production {
        return Ok(false);
    }
    let values = values.as_slice();
    let found = match_members(alloc, variables, production, parts, rest, values, bindings)?;
    Ok(found)
}

/// Matches patterns at the front of the items of a list of a production, and its rest.
#[cycle(matching)]
fn match_members<'a>(
    alloc: Global,
    variables: &Variables<'_>,
    production: u32,
    parts: &[Pattern],
    rest: Option<u32>,
    values: &'a [Value],
    bindings: &mut Bindings<'a>,
) -> Result<bool, Memory>
    requires suited { AreSuited variables.now.sorts.now variables.now.vars.now bindings.old }
    requires plain { IsTrue (list_all has_no_operator parts.now) }
    ensures suited { IfOk result (λ _. AreSuited variables.now.sorts.now variables.now.vars.now bindings.new) }
    ensures reaches { IfOk result (λ found. Reaches found bindings.old bindings.new (λ x. list_any (mentions x) parts.now || is_rest x rest)) }
    ensures tells { AllByRecursion (λ v. depth_of v ≤ depth_limit) values.now → IfOk result (λ found. Tells variables.now.sorts.now variables.now.vars.now found bindings.old bindings.new
        (λ s. joined (eval_all parts.now s) (rest_of (as_items_of production) rest s) ≡ Some values.now)) }
{
    if parts.len() > values.len() {
        return Ok(false);
    }
    let (front, back) = values.split_at(parts.len());
    if !match_all(alloc, variables, parts, front, bindings)? {
        return Ok(false);
    }
    let found = match rest {
        Some(number) => bindings.bind(alloc, variables, number, Bound::Items(production, back))?,
        None => back.is_empty(),
    };
    Ok(found)
}

#[cycle(matching)]
fn match_sequence<'a>(
    alloc: Global,
    variables: &Variables<'_>,
    parts: &[Pattern],
    rest: Option<u32>,
    value: &'a Value,
    bindings: &mut Bindings<'a>,
) -> Result<bool, Memory>
    requires suited { AreSuited variables.now.sorts.now variables.now.vars.now bindings.old }
    requires plain { IsTrue (list_all has_no_operator parts.now) }
    ensures suited { IfOk result (λ _. AreSuited variables.now.sorts.now variables.now.vars.now bindings.new) }
    ensures reaches { IfOk result (λ found. Reaches found bindings.old bindings.new (λ x. list_any (mentions x) parts.now || is_rest x rest)) }
    ensures tells { depth_of value.now ≤ depth_limit → IfOk result (λ found. Tells variables.now.sorts.now variables.now.vars.now found bindings.old bindings.new
        (λ s. sequence_at (joined (eval_all parts.now s) (rest_of as_sequence rest s)) ≡ Some value.now)) }
{
    let Value::Seq(values) = value else {
        return Ok(false);
    };
    let found = match_front(alloc, variables, parts, rest, values.as_slice(), bindings)?;
    Ok(found)
}

/// Matches patterns at the front of the items of a sequence, and its rest.
#[cycle(matching)]
fn match_front<'a>(
    alloc: Global,
    variables: &Variables<'_>,
    parts: &[Pattern],
    rest: Option<u32>,
    values: &'a [Value],
    bindings: &mut Bindings<'a>,
) -> Result<bool, Memory>
    requires suited { AreSuited variables.now.sorts.now variables.now.vars.now bindings.old }
    requires plain { IsTrue (list_all has_no_operator parts.now) }
    ensures suited { IfOk result (λ _. AreSuited variables.now.sorts.now variables.now.vars.now bindings.new) }
    ensures reaches { IfOk result (λ found. Reaches found bindings.old bindings.new (λ x. list_any (mentions x) parts.now || is_rest x rest)) }
    ensures tells { AllByRecursion (λ v. depth_of v ≤ depth_limit) values.now → IfOk result (λ found. Tells variables.now.sorts.now variables.now.vars.now found bindings.old bindings.new
        (λ s. joined (eval_all parts.now s) (rest_of as_sequence rest s) ≡ Some values.now)) }
{
    if parts.len() > values.len() {
        return Ok(false);
    }
    let (front, back) = values.split_at(parts.len());
    if !match_all(alloc, variables, parts, front, bindings)? {
        return Ok(false);
    }
    let found = match rest {
        Some(number) => bindings.bind(alloc, variables, number, Bound::Seq(back))?,
        None => back.is_empty(),
    };
    Ok(found)
}

/// Matches patterns against as many values, each against the one of its place.
#[cycle(matching)]
fn match_all<'a>(
    alloc: Global,
    variables: &Variables<'_>,
    patterns: &[Pattern],
    values: &'a [Value],
    bindings: &mut Bindings<'a>,
) -> Result<bool, Memory>
    requires suited { AreSuited variables.now.sorts.now variables.now.vars.now bindings.old }
    requires plain { IsTrue (list_all has_no_operator patterns.now) }
    ensures suited { IfOk result (λ _. AreSuited variables.now.sorts.now variables.now.vars.now bindings.new) }
    ensures reaches { IfOk result (λ found. Reaches found bindings.old bindings.new (λ x. list_any (mentions x) patterns.now)) }
    ensures tells { AllByRecursion (λ v. depth_of v ≤ depth_limit) values.now → IfOk result (λ found. Tells variables.now.sorts.now variables.now.vars.now found bindings.old bindings.new
        (λ s. eval_all patterns.now s ≡ Some values.now)) }
{
    if patterns.len() != values.len() {
        return Ok(false);
    }
    for (i, pattern) in patterns.iter().enumerate() {
        let value = &values[i];
        if !match_pattern(alloc, variables, pattern, value, bindings)? {
            return Ok(false);
        }
    }
    Ok(true)
}
