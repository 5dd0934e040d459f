ghost use Rattle.std.specs.Prelude.{◌≡◌, IfOk};

use crate::memory::Memory;
use crate::value::{Pairs, Text, Value, Values};
use std::alloc::Global;

/// A copy of a text.
pub fn copy_text(alloc: Global, text: &Text) -> Result<Text, Memory>
    ensures ok { IfOk result (λ copy. copy ≡ text.now) }
{
    Ok(Text::from_vec(Vec::from_slice(alloc, text.as_slice())?))
}

/// A copy of a value.
#[cycle(copying)]
pub fn copy(alloc: Global, value: &Value) -> Result<Value, Memory>
    ensures ok { IfOk result (λ copy. copy ≡ value.now) }
{
    Ok(match value {
        Value::Int(number) => Value::Int(*number),
        Value::Bool(truth) => Value::Bool(*truth),
        Value::Str(text) => Value::Str(copy_text(alloc, text)?),
        Value::Id(symbol) => Value::Id(*symbol),
        Value::Node(prod, parts) => Value::Node(*prod, copy_values(alloc, parts.as_slice())?),
        Value::Items(prod, parts) => Value::Items(*prod, copy_values(alloc, parts.as_slice())?),
        Value::Seq(parts) => Value::Seq(copy_values(alloc, parts.as_slice())?),
        Value::Map(entries) => Value::Map(copy_pairs(alloc, entries.as_slice())?),
        Value::List(parts) => Value::List(copy_values(alloc, parts.as_slice())?),
        Value::Freezer(prod, hole, parts) => {
            Value::Freezer(*prod, *hole, copy_values(alloc, parts.as_slice())?)
        }
    })
}

/// A copy of a list of values.
#[cycle(copying)]
pub fn copy_values(alloc: Global, values: &[Value]) -> Result<Values, Memory>
    ensures ok { IfOk result (λ copy. copy ≡ values.now) }
{
    let mut copies = Vec::with_capacity(alloc, values.len())?;
    for value in values {
        copies.push(copy(alloc, value)?)?;
    }
    Ok(Values::from_vec(copies))
}

/// A copy of a map's entries.
#[cycle(copying)]
pub fn copy_pairs(alloc: Global, entries: &[(Value, Value)]) -> Result<Pairs, Memory>
    ensures ok { IfOk result (λ copy. copy ≡ entries.now) }
{
    let mut copies = Vec::with_capacity(alloc, entries.len())?;
    for (key, value) in entries {
        copies.push((copy(alloc, key)?, copy(alloc, value)?))?;
    }
    Ok(Pairs::from_vec(copies))
}
