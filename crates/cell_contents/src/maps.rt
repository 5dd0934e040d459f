//! Entries by rising keys.
ghost use Rattle.std.specs.Prelude.{◌≡◌, ◌≤◌, [], List, length, is_some, IfOk};
ghost use Rattle.std.specs.FinMap.{find, put as put_entry};
ghost use Rattle.std.specs.Option.{option_map};
ghost use Rattle.k_terms.specs.Value.{value_cmp};
ghost use Rattle.k_terms.specs.declared.value.Value.{Value as ValueOf};
ghost use Rattle.rule_terms.specs.Fill.{put_new};
ghost use Rattle.cell_contents.specs.Choices.{in_turn, place_in};

use k_terms::{Memory, Pairs, Value, Values, cmp};
use std::alloc::Global;
use std::cmp::Ordering;

/// Whether a key is there.
fn has_key(entries: &[(Value, Value)], key: &Value) -> bool
    ensures { result ≡ is_some (find value_cmp key.now entries.now) }
{
    for entry in entries {
        match cmp(key, &entry.0) {
            Ordering::Equal => return true,
            Ordering::Less => {}
            Ordering::Greater => {}
        }
    }
    false
}

/// Where the first greater key stands.
fn place_of(entries: &[(Value, Value)], key: &Value) -> usize
    ensures { result ≡ place_in key.now entries.now }
{
    for (place, entry) in entries.iter().enumerate() {
        match cmp(key, &entry.0) {
            Ordering::Less => return place,
            Ordering::Equal => {}
            Ordering::Greater => {}
        }
    }
    entries.len()
}

/// Puts an entry into entries that don't have its key.
fn put(entries: &mut Vec<(Value, Value)>, key: Value, value: Value) -> Result<(), Memory>
    requires { find value_cmp key entries.old.items ≡ None }
    ensures { IfOk result (λ _. entries.new.items ≡ put_entry value_cmp key value entries.old.items) }
{
    let place = place_of(entries, &key);
    entries.insert(place, (key, value))?;
    Ok(())
}

/// Keys and values in turn as entries by rising keys, none where a key stands twice.
pub(crate) fn map_of(alloc: Global, values: Values) -> Result<Option<Pairs>, Memory>
    ensures { (pairs : List (ValueOf × ValueOf)) → values ≡ in_turn pairs → IfOk result (λ found. found ≡ put_new pairs []) }
{
    let mut values = values.into_vec();
    let mut entries = Vec::new(alloc);
    while let Some(value) = values.pop() {
        let Some(key) = values.pop() else {
            return Ok(None);
        };
        if has_key(&entries, &key) {
            return Ok(None);
        }
        put(&mut entries, key, value)?;
    }
    Ok(Some(Pairs::from_vec(entries)))
}
