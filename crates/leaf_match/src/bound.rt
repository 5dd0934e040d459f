ghost use Rattle.std.specs.Prelude.{◌≡◌, ◌↔◌, IfOk, IsTrue};
ghost use Rattle.rule_terms.specs.Numbers.{has_number};
ghost use Rattle.leaf_match.specs.Bindings.{kept, meaning};

use k_terms::{Memory, Numbers, Pairs, Value, Values, copy, copy_values, equal};
use std::alloc::Global;

/// What a variable stands for, lent out of a configuration: a value; a part of the items of a list of the production with a
/// number, of a sequence, or of a list; or a map without the entries at some places, which are counted from 0 and stand in the
/// order of the keys that were given.
#[derive(Debug, Drop)]
pub enum Bound<'a> {
    Whole(&'a Value),
    Items(u32, &'a [Value]),
    Seq(&'a [Value]),
    List(&'a [Value]),
    Map(&'a Pairs, Numbers),
}

/// Whether a place is among these.
pub(crate) fn has_place(places: &[u64], place: u64) -> bool
    ensures { result ≡ has_number places.now place }
{
    places.iter().any(|other| *other == place)
}

/// The entries of a map but for those at some places.
fn kept_entries(alloc: Global, entries: &Pairs, places: &[u64]) -> Result<Pairs, Memory>
    ensures { IfOk result (λ copies. copies ≡ kept 0 places.now entries.now) }
{
    let mut copies = Vec::new(alloc);
    for (place, (key, value)) in entries.as_slice().iter().enumerate() {
        if !has_place(places, place as u64) {
            copies.push((copy(alloc, key)?, copy(alloc, value)?))?;
        }
    }
    Ok(Pairs::from_vec(copies))
}

/// The value that is lent, copied.
pub fn value_of(alloc: Global, bound: &Bound<'_>) -> Result<Value, Memory>
    ensures { IfOk result (λ value. value ≡ meaning bound.now) }
{
    Ok(match bound {
        Bound::Whole(value) => copy(alloc, value)?,
        Bound::Items(production, items) => Value::Items(*production, copy_values(alloc, items)?),
        Bound::Seq(items) => Value::Seq(copy_values(alloc, items)?),
        Bound::List(items) => Value::List(copy_values(alloc, items)?),
        Bound::Map(entries, places) => {
            Value::Map(kept_entries(alloc, entries, places.as_slice())?)
        }
    })
}

/// Whether two variables stand for the same value.
pub(crate) fn is_same(alloc: Global, one: &Bound<'_>, other: &Bound<'_>) -> Result<bool, Memory>
    ensures { IfOk result (λ same. IsTrue same ↔ (meaning one.now ≡ meaning other.now)) }
{
    if let Bound::Whole(first) = one {
        if let Bound::Whole(second) = other {
            return Ok(equal(first, second));
        }
    }
    Ok(equal(&value_of(alloc, one)?, &value_of(alloc, other)?))
}
