//! The values of expressions.
ghost use Rattle.std.specs.Prelude.{◌≡◌, IfOk};
ghost use Rattle.std.specs.Option.{option_map, option_and_then};
ghost use Rattle.k_terms.specs.Operators.{table};
ghost use Rattle.rule_terms.specs.Eval.{eval, eval_all, eval_entry, eval_entries};
ghost use Rattle.right_sides.specs.Bound.{IsUnder};

use crate::building::{freezer, joined, node, production_list, sequence};
use crate::variables::{production_rest, sequence_rest, variable_value};
use builtins::apply;
use k_terms::{Memory, Op, Pairs, Value, Values, copy};
use leaf_match::Bindings;
use rule_terms::Pattern;
use std::alloc::Global;

/// The value of an operator at its arguments.
fn applied(alloc: Global, op: Op, arguments: Option<Values>) -> Result<Option<Value>, Memory>
    ensures { IfOk result (λ value. value ≡ option_and_then (table op) arguments) }
{
    let Some(arguments) = arguments else {
        return Ok(None);
    };
    Ok(apply(alloc, op, arguments.as_slice())?)
}

/// The value of a pattern. `None` where a variable in it is not bound or is of another kind, where an operator is undefined,
/// and where a value that is built would be more than 400 deep.
#[cycle(evaluating)]
pub fn evaluate(
    alloc: Global,
    bindings: &Bindings<'_>,
    pattern: &Pattern,
) -> Result<Option<Value>, Memory>
    ensures { IfOk result (IsUnder bindings.now (eval pattern.now)) }
{
    Ok(match pattern {
        Pattern::Var(var) => variable_value(alloc, bindings, *var)?,
        Pattern::Lit(value) => Some(copy(alloc, value)?),
        Pattern::Node(production, parts) => {
            let parts = evaluate_all(alloc, bindings, parts.as_slice())?;
            node(*production, parts)
        }
        Pattern::Items(production, parts, rest) => {
            let front = evaluate_all(alloc, bindings, parts.as_slice())?;
            let back = production_rest(alloc, bindings, *production, *rest)?;
            production_list(*production, joined(front, back)?)
        }
        Pattern::Seq(parts, rest) => {
            let front = evaluate_all(alloc, bindings, parts.as_slice())?;
            let back = sequence_rest(alloc, bindings, *rest)?;
            sequence(joined(front, back)?)
        }
        Pattern::Freezer(production, place, parts) => {
            let parts = evaluate_all(alloc, bindings, parts.as_slice())?;
            freezer(*production, *place, parts)
        }
        Pattern::Apply(op, arguments) => {
            let arguments = evaluate_all(alloc, bindings, arguments.as_slice())?;
            applied(alloc, *op, arguments)?
        }
    })
}

/// The values of patterns. `None` where one is undefined.
#[cycle(evaluating)]
pub fn evaluate_all(
    alloc: Global,
    bindings: &Bindings<'_>,
    patterns: &[Pattern],
) -> Result<Option<Values>, Memory>
    ensures { IfOk result (IsUnder bindings.now (eval_all patterns.now)) }
{
    let mut values = Vec::with_capacity(alloc, patterns.len())?;
    for pattern in patterns {
        let Some(value) = evaluate(alloc, bindings, pattern)? else {
            return Ok(None);
        };
        values.push(value)?;
    }
    Ok(Some(Values::from_vec(values)))
}

/// The key and the value of an entry.
fn evaluate_entry(
    alloc: Global,
    bindings: &Bindings<'_>,
    entry: &(Pattern, Pattern),
) -> Result<Option<(Value, Value)>, Memory>
    ensures { IfOk result (IsUnder bindings.now (eval_entry entry.now)) }
{
    let Some(key) = evaluate(alloc, bindings, &entry.0)? else {
        return Ok(None);
    };
    let Some(value) = evaluate(alloc, bindings, &entry.1)? else {
        return Ok(None);
    };
    Ok(Some((key, value)))
}

/// The keys and values of entries, in their order. `None` where one is undefined.
pub fn evaluate_entries(
    alloc: Global,
    bindings: &Bindings<'_>,
    entries: &[(Pattern, Pattern)],
) -> Result<Option<Pairs>, Memory>
    ensures { IfOk result (IsUnder bindings.now (eval_entries entries.now)) }
{
    let mut values = Vec::with_capacity(alloc, entries.len())?;
    for entry in entries {
        let Some(value) = evaluate_entry(alloc, bindings, entry)? else {
            return Ok(None);
        };
        values.push(value)?;
    }
    Ok(Some(Pairs::from_vec(values)))
}
