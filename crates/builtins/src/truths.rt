//! Truth values. Both sides of `and` and `or` are evaluated.
ghost use Rattle.std.specs.Prelude.{◌≡◌, [], ◌∷◌};
ghost use Rattle.k_terms.specs.Operators.{table};
ghost use Rattle.k_terms.specs.declared.op.Op.TheVariants.{Not, And, Or};

use crate::kinds::truth_of;
use k_terms::Value;

pub(crate) fn negation(a: &Value) -> Option<Value>
    ensures { result ≡ table Not (a.now ∷ []) }
{
    Some(Value::Bool(!truth_of(a)?))
}

pub(crate) fn conjunction(a: &Value, b: &Value) -> Option<Value>
    ensures { result ≡ table And (a.now ∷ b.now ∷ []) }
{
    let (first, second) = (truth_of(a)?, truth_of(b)?);
    Some(Value::Bool(first && second))
}

pub(crate) fn disjunction(a: &Value, b: &Value) -> Option<Value>
    ensures { result ≡ table Or (a.now ∷ b.now ∷ []) }
{
    let (first, second) = (truth_of(a)?, truth_of(b)?);
    Some(Value::Bool(first || second))
}
