//! Maps, whose keys rise, and lists.
ghost use Rattle.std.specs.Prelude.{◌≡◌, [], ◌∷◌, option_copied, IfOk};
ghost use Rattle.std.specs.FinMap.{find, put};
ghost use Rattle.k_terms.specs.Value.{value_cmp};
ghost use Rattle.k_terms.specs.Operators.{table};
ghost use Rattle.k_terms.specs.declared.op.Op.TheVariants.{InKeys, SetKey, GetKey, SizeMap, SizeList};
ghost use Rattle.builtins.specs.Places.{place_at, is_tied_at};

use crate::kinds::{entries_of, item_of, members_of};
use k_terms::{Memory, Pairs, Value, cmp, copy, copy_pairs, depth, equal};
use std::alloc::Global;
use std::cmp::Ordering;

/// The greatest depth of a value that is built.
const DEPTH_LIMIT: u32 = 400;

/// The value at a key.
fn value_at<'a>(entries: &'a [(Value, Value)], key: &Value) -> Option<&'a Value>
    ensures { option_copied result ≡ find value_cmp key.now entries.now }
{
    for (other, value) in entries {
        if equal(key, other) {
            return Some(value);
        }
    }
    None
}

/// Whether there is such a key.
pub(crate) fn has_key(a: &Value, b: &Value) -> Option<Value>
    ensures { result ≡ table InKeys (a.now ∷ b.now ∷ []) }
{
    let key = item_of(a)?;
    Some(Value::Bool(value_at(entries_of(b)?.as_slice(), key).is_some()))
}

/// The value at a key that is there.
pub(crate) fn looked_up(alloc: Global, a: &Value, b: &Value) -> Result<Option<Value>, Memory>
    ensures ok { IfOk result (λ value. value ≡ table GetKey (a.now ∷ b.now ∷ [])) }
{
    let Some(entries) = entries_of(a) else {
        return Ok(None);
    };
    let Some(key) = item_of(b) else {
        return Ok(None);
    };
    match value_at(entries.as_slice(), key) {
        Some(value) => Ok(Some(copy(alloc, value)?)),
        None => Ok(None),
    }
}

/// Where a key stands, or else the first greater one.
fn place_of(entries: &[(Value, Value)], key: &Value) -> usize
    ensures { result ≡ place_at key.now entries.now }
{
    for (place, entry) in entries.iter().enumerate() {
        match cmp(key, &entry.0) {
            Ordering::Less | Ordering::Equal => return place,
            Ordering::Greater => {}
        }
    }
    entries.len()
}

/// Whether the entry at a place has this key.
fn has_key_at(entries: &[(Value, Value)], place: usize, key: &Value) -> bool
    ensures { result ≡ is_tied_at key.now entries.now place }
{
    match entries.get(place) {
        Some(entry) => equal(key, &entry.0),
        None => false,
    }
}

/// Maps a key to a value, in place of the entry that has it, where one has.
fn put_entry(entries: &mut Vec<(Value, Value)>, key: Value, value: Value) -> Result<(), Memory>
    ensures { IfOk result (λ _. entries.new.items ≡ put value_cmp key value entries.old.items) }
{
    let place = place_of(entries, &key);
    if has_key_at(entries, place, &key) {
        entries[place].1 = value;
    } else {
        entries.insert(place, (key, value))?;
    }
    Ok(())
}

/// The map with a key mapped to a value. `None` where it would be too deep.
pub(crate) fn mapped(
    alloc: Global,
    a: &Value,
    b: &Value,
    c: &Value,
) -> Result<Option<Value>, Memory>
    ensures ok { IfOk result (λ value. value ≡ table SetKey (a.now ∷ b.now ∷ c.now ∷ [])) }
{
    let Some(entries) = entries_of(a) else {
        return Ok(None);
    };
    let Some(key) = item_of(b) else {
        return Ok(None);
    };
    let Some(value) = item_of(c) else {
        return Ok(None);
    };
    let mut copies = copy_pairs(alloc, entries.as_slice())?.into_vec();
    put_entry(&mut copies, copy(alloc, key)?, copy(alloc, value)?)?;
    let map = Value::Map(Pairs::from_vec(copies));
    if depth(&map) > DEPTH_LIMIT {
        return Ok(None);
    }
    Ok(Some(map))
}

/// The number of entries.
pub(crate) fn map_size(a: &Value) -> Option<Value>
    ensures { result ≡ table SizeMap (a.now ∷ []) }
{
    Some(Value::Int(entries_of(a)?.len() as i128))
}

/// The number of members.
pub(crate) fn list_size(a: &Value) -> Option<Value>
    ensures { result ≡ table SizeList (a.now ∷ []) }
{
    Some(Value::Int(members_of(a)?.len() as i128))
}
