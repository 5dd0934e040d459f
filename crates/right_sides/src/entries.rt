//! Entries that are put into a map.
ghost use Rattle.std.specs.Prelude.{◌≡◌, IfOk, is_some, cond, Some, None};
ghost use Rattle.std.specs.FinMap.{find};
ghost use Rattle.k_terms.specs.Value.{value_cmp};
ghost use Rattle.rule_terms.specs.Fill.{put_new as put_each};
ghost use Rattle.builtins.specs.Places.{place_at};
ghost use Rattle.right_sides.specs.Entries.{put_one};

use k_terms::{Memory, Pairs, Value, cmp, equal};
use std::cmp::Ordering;

/// Whether an entry has this key.
fn has_key(entries: &[(Value, Value)], key: &Value) -> bool
    ensures { result ≡ is_some (find value_cmp key.now entries.now) }
{
    for (other, _value) in entries {
        if equal(key, other) {
            return true;
        }
    }
    false
}

/// Where the first entry stands whose key is not smaller.
fn place_of(entries: &[(Value, Value)], key: &Value) -> usize
    ensures { result ≡ place_at key.now entries.now }
{
    for (place, entry) in entries.iter().enumerate() {
        match cmp(key, &entry.0) {
            Ordering::Less | Ordering::Equal => return place,
            Ordering::Greater => {}
        }
    }
    entries.len()
}

/// Puts an entry among these by its key. `false` where the key is there.
fn put_entry(entries: &mut Vec<(Value, Value)>, entry: (Value, Value)) -> Result<bool, Memory>
    ensures { IfOk result (λ is_new. cond is_new (Some entries.new.items) None ≡ put_one entry entries.old.items) }
{
    if has_key(entries, &entry.0) {
        return Ok(false);
    }
    let place = place_of(entries, &entry.0);
    entries.insert(place, entry)?;
    Ok(true)
}

/// A map with further entries. `None` where the key of one is there already, or two of them have one key.
pub(crate) fn put_new(news: Pairs, others: Pairs) -> Result<Option<Pairs>, Memory>
    ensures { IfOk result (λ map. map ≡ put_each news others) }
{
    let mut news = news.into_vec();
    let mut entries = others.into_vec();
    while let Some(entry) = news.pop() {
        if !put_entry(&mut entries, entry)? {
            return Ok(None);
        }
    }
    Ok(Some(Pairs::from_vec(entries)))
}
