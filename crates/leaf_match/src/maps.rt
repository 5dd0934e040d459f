//! The entries of maps, matched at given keys.
ghost use Rattle.std.specs.Prelude.{◌≡◌, ◌↔◌, ◌==◌, ◌||◌, ℕ, [], IfOk, IsTrue};
ghost use Rattle.std.specs.List.{IsDistinct, list_all, list_any};
ghost use Rattle.std.specs.List.Sorted.{IsStrictlyIncreasing};
ghost use Rattle.std.specs.Option.{option_map};
ghost use Rattle.std.specs.FinMap.{is_sorted};
ghost use Rattle.k_terms.specs.Value.{value_cmp};
ghost use Rattle.rule_terms.specs.Numbers.{has_number};
ghost use Rattle.rule_terms.specs.Patterns.{is_rest};
ghost use Rattle.leaf_match.specs.Bindings.{kept, AreSuited, Tells, Reaches};
ghost use Rattle.leaf_match.specs.Maps.{IsKeyAt, ArePlaces, is_plain_entry, mentions_entry, IsMapAt};

use crate::bindings::Bindings;
use crate::bound::{Bound, has_place};
use crate::entries::match_entries;
use crate::variables::Variables;
use k_terms::{Memory, Numbers, Pairs, Value, equal};
use rule_terms::Pattern;
use std::alloc::Global;

/// Where a key stands.
fn place_of(entries: &[(Value, Value)], key: &Value) -> Option<usize>
    ensures { IsKeyAt entries.now key.now result }
{
    for (place, entry) in entries.iter().enumerate() {
        if equal(key, &entry.0) {
            return Some(place);
        }
    }
    None
}

/// Where each key stands. `None` where one is not there or stands twice.
pub(crate) fn places_of(
    alloc: Global,
    entries: &[(Value, Value)],
    keys: &[Value],
) -> Result<Option<Vec<u64>>, Memory>
    requires { IsTrue (is_sorted value_cmp entries.now) }
    ensures { IfOk result (λ places. ArePlaces entries.now keys.now (option_map (λ ps. ps.items) places)) }
{
    let mut places = Vec::with_capacity(alloc, keys.len())?;
    for key in keys {
        let place = match place_of(entries, key) {
            Some(place) => place as u64,
            None => return Ok(None),
        };
        if has_place(&places, place) {
            return Ok(None);
        }
        places.push(place)?;
    }
    Ok(Some(places))
}

/// Whether each entry stands at one of these places.
pub(crate) fn is_covered(entries: &[(Value, Value)], places: &[u64]) -> bool
    ensures { IsTrue result ↔ (kept 0 places.now entries.now ≡ []) }
{
    for (place, _entry) in entries.iter().enumerate() {
        if !has_place(places, place as u64) {
            return false;
        }
    }
    true
}

/// Places that differ, in rising order.
fn in_order(places: Vec<u64>) -> Numbers
    requires { IsDistinct ◌==◌ places.items }
    ensures rising { IsStrictlyIncreasing result }
    ensures same { (at : ℕ) → has_number result at ≡ has_number places.items at }
{
    let mut rising = places;
    rising.sort_unstable();
    Numbers::from_vec(rising)
}

/// Matches the entries of a map at these keys, and its rest.
pub(crate) fn match_map<'a>(
    alloc: Global,
    variables: &Variables<'_>,
    patterns: &[(Pattern, Pattern)],
    rest: Option<u32>,
    entries: &'a Pairs,
    keys: &[Value],
    bindings: &mut Bindings<'a>,
) -> Result<bool, Memory>
    requires suited { AreSuited variables.now.sorts.now variables.now.vars.now bindings.old }
    requires plain { IsTrue (list_all is_plain_entry patterns.now) }
    requires rising { IsTrue (is_sorted value_cmp entries.now) }
    ensures suited { IfOk result (λ _. AreSuited variables.now.sorts.now variables.now.vars.now bindings.new) }
    ensures reaches { IfOk result (λ found. Reaches found bindings.old bindings.new (λ x. list_any (mentions_entry x) patterns.now || is_rest x rest)) }
    ensures tells { IfOk result (λ found. Tells variables.now.sorts.now variables.now.vars.now found bindings.old bindings.new
        (IsMapAt patterns.now rest entries.now keys.now)) }
{
    if keys.len() != patterns.len() {
        return Ok(false);
    }
    let places = match places_of(alloc, entries.as_slice(), keys)? {
        Some(places) => places,
        None => return Ok(false),
    };
    if !match_entries(
        alloc,
        variables,
        patterns,
        entries.as_slice(),
        &places,
        bindings,
    )? {
        return Ok(false);
    }
    let found = match rest {
        Some(number) => {
            let rest = Bound::Map(entries, in_order(places));
            bindings.bind(alloc, variables, number, rest)?
        }
        None => is_covered(entries.as_slice(), &places),
    };
    Ok(found)
}
