ghost use Rattle.std.specs.Prelude.{◌≡◌, [], ◌∷◌, IfOk};
ghost use Rattle.k_terms.specs.Operators.{table};

use crate::comparisons::{
    is_at_least, is_at_most, is_greater, is_less, is_other, is_other_number, is_same,
    is_same_number,
};
use crate::integers::{difference, product, quotient, remainder, sum};
use crate::maps::{has_key, list_size, looked_up, map_size, mapped};
use crate::texts::{int_text, joined, text_length};
use crate::truths::{conjunction, disjunction, negation};
use k_terms::{Memory, Op, Value};
use std::alloc::Global;

/// The value of an operator at one argument. `None` where it is undefined, or where the operator takes another number of
/// arguments or another kind.
pub fn apply_one(alloc: Global, op: Op, a: &Value) -> Result<Option<Value>, Memory>
    ensures ok { IfOk result (λ value. value ≡ table op (a.now ∷ [])) }
{
    Ok(match op {
        Op::Not => negation(a),
        Op::SizeMap => map_size(a),
        Op::SizeList => list_size(a),
        Op::LengthString => text_length(a),
        Op::IntToString => int_text(alloc, a)?,
        _ => None,
    })
}

/// The value of an operator at two arguments.
pub fn apply_two(alloc: Global, op: Op, a: &Value, b: &Value) -> Result<Option<Value>, Memory>
    ensures ok { IfOk result (λ value. value ≡ table op (a.now ∷ b.now ∷ [])) }
{
    Ok(match op {
        Op::MulInt => product(a, b),
        Op::DivInt => quotient(a, b),
        Op::ModInt => remainder(a, b),
        Op::AddInt => sum(a, b),
        Op::SubInt => difference(a, b),
        Op::JoinString => joined(alloc, a, b)?,
        Op::LtInt => is_less(a, b),
        Op::LeInt => is_at_most(a, b),
        Op::GtInt => is_greater(a, b),
        Op::GeInt => is_at_least(a, b),
        Op::EqInt => is_same_number(a, b),
        Op::NeInt => is_other_number(a, b),
        Op::EqK => is_same(a, b),
        Op::NeK => is_other(a, b),
        Op::InKeys => has_key(a, b),
        Op::And => conjunction(a, b),
        Op::Or => disjunction(a, b),
        Op::GetKey => looked_up(alloc, a, b)?,
        _ => None,
    })
}

/// The value of an operator at three arguments.
pub fn apply_three(
    alloc: Global,
    op: Op,
    a: &Value,
    b: &Value,
    c: &Value,
) -> Result<Option<Value>, Memory>
    ensures ok { IfOk result (λ value. value ≡ table op (a.now ∷ b.now ∷ c.now ∷ [])) }
{
    match op {
        Op::SetKey => mapped(alloc, a, b, c),
        _ => Ok(None),
    }
}

/// The value of an operator at its arguments, in the order in which they are written. `None` exactly where it is
/// undefined, or where they are not so many or not of the operator's sorts.
pub fn apply(alloc: Global, op: Op, args: &[Value]) -> Result<Option<Value>, Memory>
    ensures ok { IfOk result (λ value. value ≡ table op args.now) }
{
    match args {
        [a] => apply_one(alloc, op, a),
        [a, b] => apply_two(alloc, op, a, b),
        [a, b, c] => apply_three(alloc, op, a, b, c),
        _ => Ok(None),
    }
}
