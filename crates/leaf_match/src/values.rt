//! Values of contents, matched against patterns. A content's values may have any depth.
ghost use Rattle.std.specs.Prelude.{◌≡◌, ◌↔◌, Some, IfOk, IsTrue};
ghost use Rattle.std.specs.List.{list_all, list_any};
ghost use Rattle.rule_terms.specs.Sound.{has_no_operator};
ghost use Rattle.rule_terms.specs.Eval.{eval, eval_all};
ghost use Rattle.rule_terms.specs.Patterns.{mentions};
ghost use Rattle.leaf_match.specs.Bindings.{AreSuited, Tells, Reaches};
ghost use Rattle.leaf_match.specs.Depths.{is_constructor as is_constructor_of, IsWithinDepth};

use crate::bindings::Bindings;
use crate::patterns::match_pattern;
use crate::variables::Variables;
use k_terms::{Memory, Value, depth};
use rule_terms::Pattern;
use std::alloc::Global;

/// The greatest depth of a value that a constructor builds.
const DEPTH_LIMIT: u32 = 400;

/// Whether a pattern's value is built of parts.
fn is_constructor(pattern: &Pattern) -> bool
    ensures { result ≡ is_constructor_of pattern.now }
{
    match pattern {
        Pattern::Node(_, _)
        | Pattern::Items(_, _, _)
        | Pattern::Seq(_, _)
        | Pattern::Freezer(_, _, _) => true,
        Pattern::Var(_) | Pattern::Lit(_) | Pattern::Apply(_, _) => false,
    }
}

/// Whether a value isn't too deep for a pattern. A value's depth is computed where the pattern is a constructor alone.
fn is_within_depth(pattern: &Pattern, value: &Value) -> bool
    ensures { IsTrue result ↔ IsWithinDepth pattern.now value.now }
{
    if !is_constructor(pattern) {
        return true;
    }
    depth(value) <= DEPTH_LIMIT
}

/// Matches a pattern against a value of any depth: the variables that stand in it are bound. `false` where no substitution that
/// agrees with what is bound gives the pattern this value, as where a constructor stands for a value that is too deep.
pub(crate) fn match_value<'a>(
    alloc: Global,
    variables: &Variables<'_>,
    pattern: &Pattern,
    value: &'a Value,
    bindings: &mut Bindings<'a>,
) -> Result<bool, Memory>
    requires suited { AreSuited variables.now.sorts.now variables.now.vars.now bindings.old }
    requires plain { IsTrue (has_no_operator pattern.now) }
    ensures suited { IfOk result (λ _. AreSuited variables.now.sorts.now variables.now.vars.now bindings.new) }
    ensures reaches { IfOk result (λ found. Reaches found bindings.old bindings.new (λ x. mentions x pattern.now)) }
    ensures tells { IfOk result (λ found. Tells variables.now.sorts.now variables.now.vars.now found bindings.old bindings.new
        (λ s. eval pattern.now s ≡ Some value.now)) }
{
    if !match_pattern(alloc, variables, pattern, value, bindings)? {
        return Ok(false);
    }
    Ok(is_within_depth(pattern, value))
}

/// Matches patterns against as many values, each against the one of its place.
pub(crate) fn match_values<'a>(
    alloc: Global,
    variables: &Variables<'_>,
    patterns: &[Pattern],
    values: &'a [Value],
    bindings: &mut Bindings<'a>,
) -> Result<bool, Memory>
    requires suited { AreSuited variables.now.sorts.now variables.now.vars.now bindings.old }
    requires plain { IsTrue (list_all has_no_operator patterns.now) }
    ensures suited { IfOk result (λ _. AreSuited variables.now.sorts.now variables.now.vars.now bindings.new) }
    ensures reaches { IfOk result (λ found. Reaches found bindings.old bindings.new (λ x. list_any (mentions x) patterns.now)) }
    ensures tells { IfOk result (λ found. Tells variables.now.sorts.now variables.now.vars.now found bindings.old bindings.new
        (λ s. eval_all patterns.now s ≡ Some values.now)) }
{
    if patterns.len() != values.len() {
        return Ok(false);
    }
    for (i, pattern) in patterns.iter().enumerate() {
        let value = &values[i];
        if !match_value(alloc, variables, pattern, value, bindings)? {
            return Ok(false);
        }
    }
    Ok(true)
}
