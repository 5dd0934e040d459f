//! Comparisons of whole numbers, and of any items.
ghost use Rattle.std.specs.Prelude.{◌≡◌, [], ◌∷◌};
ghost use Rattle.k_terms.specs.Operators.{table};
ghost use Rattle.k_terms.specs.declared.op.Op.TheVariants.{LtInt, LeInt, GtInt, GeInt, EqInt, NeInt, EqK, NeK};

use crate::kinds::{int_of, item_of};
use k_terms::{Value, equal};

pub(crate) fn is_less(a: &Value, b: &Value) -> Option<Value>
    ensures { result ≡ table LtInt (a.now ∷ b.now ∷ []) }
{
    Some(Value::Bool(int_of(a)? < int_of(b)?))
}

pub(crate) fn is_at_most(a: &Value, b: &Value) -> Option<Value>
    ensures { result ≡ table LeInt (a.now ∷ b.now ∷ []) }
{
    Some(Value::Bool(int_of(a)? <= int_of(b)?))
}

pub(crate) fn is_greater(a: &Value, b: &Value) -> Option<Value>
    ensures { result ≡ table GtInt (a.now ∷ b.now ∷ []) }
{
    Some(Value::Bool(int_of(a)? > int_of(b)?))
}

pub(crate) fn is_at_least(a: &Value, b: &Value) -> Option<Value>
    ensures { result ≡ table GeInt (a.now ∷ b.now ∷ []) }
{
    Some(Value::Bool(int_of(a)? >= int_of(b)?))
}

pub(crate) fn is_same_number(a: &Value, b: &Value) -> Option<Value>
    ensures { result ≡ table EqInt (a.now ∷ b.now ∷ []) }
{
    Some(Value::Bool(int_of(a)? == int_of(b)?))
}

pub(crate) fn is_other_number(a: &Value, b: &Value) -> Option<Value>
    ensures { result ≡ table NeInt (a.now ∷ b.now ∷ []) }
{
    Some(Value::Bool(int_of(a)? != int_of(b)?))
}

pub(crate) fn is_same(a: &Value, b: &Value) -> Option<Value>
    ensures { result ≡ table EqK (a.now ∷ b.now ∷ []) }
{
    Some(Value::Bool(equal(item_of(a)?, item_of(b)?)))
}

pub(crate) fn is_other(a: &Value, b: &Value) -> Option<Value>
    ensures { result ≡ table NeK (a.now ∷ b.now ∷ []) }
{
    Some(Value::Bool(!equal(item_of(a)?, item_of(b)?)))
}
