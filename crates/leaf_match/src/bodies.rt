//! Bodies of left cells, matched against contents.
ghost use Rattle.std.specs.Prelude.{◌≡◌, ◌||◌, ◌&&◌, not, false, Some, IfOk, IsTrue};
ghost use Rattle.std.specs.List.{list_all, list_any};
ghost use Rattle.k_terms.specs.Operators.{as_members};
ghost use Rattle.rule_terms.specs.Options.{joined};
ghost use Rattle.rule_terms.specs.Substitution.{rest_of, as_sequence};
ghost use Rattle.rule_terms.specs.Sound.{has_no_operator, all_patterns, is_made};
ghost use Rattle.rule_terms.specs.Eval.{eval_all};
ghost use Rattle.rule_terms.specs.Fill.{content_of};
ghost use Rattle.rule_terms.specs.Patterns.{mentions, is_rest};
ghost use Rattle.leaf_match.specs.Bindings.{AreSuited, Tells, Reaches};
ghost use Rattle.leaf_match.specs.Contents.{is_map, leaf_mentions};

use crate::bindings::Bindings;
use crate::bound::Bound;
use crate::values::{match_value, match_values};
use crate::variables::Variables;
use k_terms::{Content, Memory, Value};
use rule_terms::{Body, Pattern};
use std::alloc::Global;

/// Matches patterns at the front of the items of a sequence, and its rest.
fn match_sequence<'a>(
    alloc: Global,
    variables: &Variables<'_>,
    parts: &[Pattern],
    rest: Option<u32>,
    values: &'a [Value],
    bindings: &mut Bindings<'a>,
) -> Result<bool, Memory>
    requires suited { AreSuited variables.now.sorts.now variables.now.vars.now bindings.old }
    requires plain { IsTrue (list_all has_no_operator parts.now) }
    ensures suited { IfOk result (λ _. AreSuited variables.now.sorts.now variables.now.vars.now bindings.new) }
    ensures reaches { IfOk result (λ found. Reaches found bindings.old bindings.new (λ x. list_any (mentions x) parts.now || is_rest x rest)) }
    ensures tells { IfOk result (λ found. Tells variables.now.sorts.now variables.now.vars.now found bindings.old bindings.new
        (λ s. joined (eval_all parts.now s) (rest_of as_sequence rest s) ≡ Some values.now)) }
{
    if parts.len() > values.len() {
        return Ok(false);
    }
    let (front, back) = values.split_at(parts.len());
    if !match_values(alloc, variables, parts, front, bindings)? {
        return Ok(false);
    }
    let found = match rest {
        Some(number) => bindings.bind(alloc, variables, number, Bound::Seq(back))?,
        None => back.is_empty(),
    };
    Ok(found)
}

/// Matches the items of a list: those before its rest, the rest, and those behind it.
fn match_list<'a>(
    alloc: Global,
    variables: &Variables<'_>,
    before: &[Pattern],
    rest: Option<u32>,
    after: &[Pattern],
    values: &'a [Value],
    bindings: &mut Bindings<'a>,
) -> Result<bool, Memory>
    requires suited { AreSuited variables.now.sorts.now variables.now.vars.now bindings.old }
    requires before { IsTrue (list_all has_no_operator before.now) }
    requires after { IsTrue (list_all has_no_operator after.now) }
    ensures suited { IfOk result (λ _. AreSuited variables.now.sorts.now variables.now.vars.now bindings.new) }
    ensures reaches { IfOk result (λ found. Reaches found bindings.old bindings.new (λ x. (list_any (mentions x) before.now || list_any (mentions x) after.now) || is_rest x rest)) }
    ensures tells { IfOk result (λ found. Tells variables.now.sorts.now variables.now.vars.now found bindings.old bindings.new
        (λ s. joined (joined (eval_all before.now s) (rest_of as_members rest s)) (eval_all after.now s) ≡ Some values.now)) }
{
    if before.len() + after.len() > values.len() {
        return Ok(false);
    }
    let (front, others) = values.split_at(before.len());
    let (middle, back) = others.split_at(others.len() - after.len());
    if !match_values(alloc, variables, before, front, bindings)? {
        return Ok(false);
    }
    if !match_values(alloc, variables, after, back, bindings)? {
        return Ok(false);
    }
    let found = match rest {
        Some(number) => bindings.bind(alloc, variables, number, Bound::List(middle))?,
        None => middle.is_empty(),
    };
    Ok(found)
}

/// Matches the body of a left cell, which is no map, against a content.
pub(crate) fn match_leaf<'a>(
    alloc: Global,
    variables: &Variables<'_>,
    body: &Body,
    content: &'a Content,
    bindings: &mut Bindings<'a>,
) -> Result<bool, Memory>
    requires suited { AreSuited variables.now.sorts.now variables.now.vars.now bindings.old }
    requires plain { IsTrue (all_patterns has_no_operator body.now && not (is_made body.now)) }
    ensures suited { IfOk result (λ _. AreSuited variables.now.sorts.now variables.now.vars.now bindings.new) }
    ensures reaches { is_map body.now ≡ false → IfOk result (λ found. Reaches found bindings.old bindings.new (λ x. leaf_mentions x body.now)) }
    ensures tells { is_map body.now ≡ false → IfOk result (λ found. Tells variables.now.sorts.now variables.now.vars.now found bindings.old bindings.new
        (λ s. content_of body.now s ≡ Some content.now)) }
{
    let found = match (body, content) {
        (Body::Cells(_, _), Content::Cells) => true,
        (Body::Seq(parts, rest), Content::Seq(values)) => {
            match_sequence(
                alloc,
                variables,
                parts.as_slice(),
                *rest,
                values.as_slice(),
                bindings,
            )?
        }
        (Body::List(before, rest, after), Content::List(values)) => {
            let (before, after) = (before.as_slice(), after.as_slice());
            match_list(
                alloc,
                variables,
                before,
                *rest,
                after,
                values.as_slice(),
                bindings,
            )?
        }
        (Body::One(pattern), Content::One(value)) => {
            match_value(alloc, variables, pattern, value, bindings)?
        }
        _ => false,
    };
    Ok(found)
}
