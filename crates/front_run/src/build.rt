ghost use Rattle.std.specs.Prelude.{◌≡◌, ℕ, length, IsTrue, IfOk, IfSome, IfNone};
ghost use Rattle.std.specs.List.{list_all};
ghost use Rattle.front_run.specs.Bindings.{IsAt, AreAt, IsUndefined, AreUndefined};
ghost use Rattle.front_run.specs.Front.{is_front_term};

use k_terms::{Many, Memory, Value, copy, depth};
use rule_terms::Pattern;
use std::alloc::Global;

/// The greatest depth of a value that is built.
pub const DEPTH_LIMIT: u32 = 400;

/// The value of a term under the values of its variables. `None` where the value would be too deep, or where the term is
/// none of variables and productions alone.
#[cycle(building)]
pub fn build(alloc: Global, pattern: &Pattern, bound: &[&Value]) -> Result<Option<Value>, Memory>
    ensures at { IfOk result (λ found. IfSome found (IsAt bound.now pattern.now)) }
    ensures none { IfOk result (λ found. IfNone found (
        IsTrue (is_front_term (length bound.now) pattern.now) → IsUndefined bound.now pattern.now)) }
{
    match pattern {
        Pattern::Var(number) => {
            let place = *number as usize;
            if place >= bound.len() {
                return Ok(None);
            }
            let value = bound[place];
            Ok(Some(copy(alloc, value)?))
        }
        Pattern::Node(production, patterns) => {
            let Some(values) = build_all(alloc, patterns.as_slice(), bound)? else {
                return Ok(None);
            };
            let value = Value::Node(*production, Many::from_vec(values));
            if depth(&value) > DEPTH_LIMIT {
                return Ok(None);
            }
            Ok(Some(value))
        }
        _ => Ok(None),
    }
}

#[cycle(building)]
fn build_all(
    alloc: Global,
    patterns: &[Pattern],
    bound: &[&Value],
) -> Result<Option<Vec<Value>>, Memory>
    ensures at { IfOk result (λ found. IfSome found (λ values. AreAt bound.now patterns.now values.items)) }
    ensures none { IfOk result (λ found. IfNone found (
        IsTrue (list_all (is_front_term (length bound.now)) patterns.now) → AreUndefined bound.now patterns.now)) }
{
    let mut values = Vec::new(alloc);
    for pattern in patterns {
        match build(alloc, pattern, bound)? {
            Some(value) => values.push(value)?,
            None => return Ok(None),
        }
    }
    Ok(Some(values))
}
