//! Whole numbers of 128 bits with a sign. A result that has no such number is undefined.
ghost use Rattle.std.specs.Prelude.{◌≡◌, [], ◌∷◌};
ghost use Rattle.k_terms.specs.Operators.{table};
ghost use Rattle.k_terms.specs.declared.op.Op.TheVariants.{MulInt, DivInt, ModInt, AddInt, SubInt};

use crate::kinds::int_of;
use k_terms::Value;

pub(crate) fn product(a: &Value, b: &Value) -> Option<Value>
    ensures { result ≡ table MulInt (a.now ∷ b.now ∷ []) }
{
    Some(Value::Int(int_of(a)?.checked_mul(int_of(b)?)?))
}

/// The quotient, cut toward zero.
pub(crate) fn quotient(a: &Value, b: &Value) -> Option<Value>
    ensures { result ≡ table DivInt (a.now ∷ b.now ∷ []) }
{
    Some(Value::Int(int_of(a)?.checked_div(int_of(b)?)?))
}

/// The remainder, with the dividend's sign. That of the least number by -1 is 0.
pub(crate) fn remainder(a: &Value, b: &Value) -> Option<Value>
    ensures { result ≡ table ModInt (a.now ∷ b.now ∷ []) }
{
    let (dividend, divisor) = (int_of(a)?, int_of(b)?);
    match divisor {
        0 => None,
        -1 => Some(Value::Int(0)),
        _ => Some(Value::Int(dividend % divisor)),
    }
}

pub(crate) fn sum(a: &Value, b: &Value) -> Option<Value>
    ensures { result ≡ table AddInt (a.now ∷ b.now ∷ []) }
{
    Some(Value::Int(int_of(a)?.checked_add(int_of(b)?)?))
}

pub(crate) fn difference(a: &Value, b: &Value) -> Option<Value>
    ensures { result ≡ table SubInt (a.now ∷ b.now ∷ []) }
{
    Some(Value::Int(int_of(a)?.checked_sub(int_of(b)?)?))
}
