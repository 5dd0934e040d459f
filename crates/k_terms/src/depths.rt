ghost use Rattle.std.specs.Prelude.{◌≡◌, ◌-◌, ◌^◌, min};
ghost use Rattle.k_terms.specs.Value.{depth_of};
ghost use Rattle.k_terms.specs.Parts.{greatest_depth, greatest_entry_depth};

use crate::value::Value;

/// The depth of a value: 1 where it has no part, and else one more than the greatest depth of a part. A depth that
/// `u32` cannot hold stays at its greatest number.
#[cycle(measuring)]
pub fn depth(value: &Value) -> u32
    ensures { result ≡ min (depth_of value.now) (2 ^ 32 - 1) }
{
    match value {
        Value::Int(_) | Value::Bool(_) | Value::Str(_) | Value::Id(_) => 1,
        Value::Node(_, parts) => depth_of_parts(parts.as_slice()).saturating_add(1),
        Value::Items(_, parts) => depth_of_parts(parts.as_slice()).saturating_add(1),
        Value::Seq(parts) => depth_of_parts(parts.as_slice()).saturating_add(1),
        Value::Map(entries) => depth_of_entries(entries.as_slice()).saturating_add(1),
        Value::List(parts) => depth_of_parts(parts.as_slice()).saturating_add(1),
        Value::Freezer(_, _, parts) => depth_of_parts(parts.as_slice()).saturating_add(1),
    }
}

/// The greatest depth of the values, and 0 where there are none.
#[cycle(measuring)]
fn depth_of_parts(parts: &[Value]) -> u32
    ensures { result ≡ min (greatest_depth parts.now) (2 ^ 32 - 1) }
{
    let mut greatest = 0;
    for part in parts {
        greatest = depth(part).max(greatest);
    }
    greatest
}

/// The greatest depth of the keys and values, and 0 where there are none.
#[cycle(measuring)]
fn depth_of_entries(entries: &[(Value, Value)]) -> u32
    ensures { result ≡ min (greatest_entry_depth entries.now) (2 ^ 32 - 1) }
{
    let mut greatest = 0;
    for (key, value) in entries {
        greatest = depth(key).max(depth(value)).max(greatest);
    }
    greatest
}
