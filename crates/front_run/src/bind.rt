ghost use Rattle.std.specs.Prelude.{◌≡◌, ℕ, ◌≤◌, [], ◌∷◌, length, IsOk, IfOk, IfSome};
ghost use Rattle.std.specs.Bool.{OnTrue};
ghost use Rattle.k_terms.specs.Value.{depth_of};
ghost use Rattle.k_terms.specs.Operators.{depth_limit};
ghost use Rattle.k_terms.specs.Sorts.{SortOrder};
ghost use Rattle.rule_terms.specs.Substitution.{AreOfSorts};
ghost use Rattle.front_run.specs.Bindings.{wholes, IsAt, AreAt, Extends, Finds, FindsAll};
ghost use Rattle.std.specs.List.{AllByRecursion};

use k_terms::{Memory, Value};
use rule_terms::Pattern;

/// Binds the variables of a term, which are numbered in the order in which they stand, to the parts of a value; says
/// whether the value is of the term's form.
#[cycle(binding)]
pub fn bind<'a>(
    pattern: &Pattern,
    value: &'a Value,
    bound: &mut Vec<&'a Value>,
) -> Result<bool, Memory>
    ensures extends { Extends bound.old.items bound.new.items }
    ensures at { depth_of value.now ≤ depth_limit → IfOk result (λ found. OnTrue found (IsAt bound.new.items pattern.now value.now)) }
    ensures finds { IfOk result (Finds bound.old.items bound.new.items pattern.now value.now) }
{
    match pattern {
        Pattern::Var(number) => {
            if *number as usize != bound.len() {
                return Ok(false);
            }
            bound.push(value)?;
            Ok(true)
        }
        Pattern::Node(production, patterns) => match value {
            Value::Node(other, values) => {
                if *production != *other {
                    return Ok(false);
                }
                let found = bind_all(patterns.as_slice(), values.as_slice(), bound)?;
                Ok(found)
            }
            _ => Ok(false),
        },
        _ => Ok(false),
    }
}

#[cycle(binding)]
fn bind_all<'a>(
    patterns: &[Pattern],
    values: &'a [Value],
    bound: &mut Vec<&'a Value>,
) -> Result<bool, Memory>
    ensures extends { Extends bound.old.items bound.new.items }
    ensures at { AllByRecursion (λ v. depth_of v ≤ depth_limit) values.now →
        IfOk result (λ found. OnTrue found (AreAt bound.new.items patterns.now values.now)) }
    ensures finds { IfOk result (FindsAll bound.old.items bound.new.items patterns.now values.now) }
{
    if patterns.len() != values.len() {
        return Ok(false);
    }
    for (i, pattern) in patterns.iter().enumerate() {
        let value = &values[i];
        if !bind(pattern, value, bound)? {
            return Ok(false);
        }
    }
    Ok(true)
}
