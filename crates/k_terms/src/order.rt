ghost use Rattle.std.specs.Prelude.{◌≡◌, ◌↔◌, IsTrue};
ghost use Rattle.std.specs.Ordering.{is_eq};
ghost use Rattle.k_terms.specs.Value.{value_cmp};

use crate::value::Value;
use std::cmp::Ordering;

/// Compares two values in the order of values: by their variants as they are declared, then by their parts from left
/// to right.
pub fn cmp(a: &Value, b: &Value) -> Ordering
    ensures { result ≡ value_cmp a.now b.now }
{
    Ord::cmp(a, b)
}

/// Whether two values are equal, which is so exactly where `cmp` says `Equal`.
pub fn equal(a: &Value, b: &Value) -> bool
    ensures same { IsTrue result ↔ (a.now ≡ b.now) }
    ensures tie { result ≡ is_eq (value_cmp a.now b.now) }
{
    a == b
}
