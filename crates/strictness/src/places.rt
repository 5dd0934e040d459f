//! The strict places of productions, and the least bad one.
ghost use Rattle.std.specs.Prelude.{◌≡◌, ◌+◌, ◌++◌, min, IfOk, MatchOption, MatchResult};
ghost use Rattle.std.specs.Option.{option_map_or};
ghost use Rattle.grammar_terms.specs.Grammar.{is_not_strict as not_strict};
ghost use Rattle.grammar_terms.specs.Values.{sorts_in};
ghost use Rattle.strictness.specs.Places.{places_to, named_by as named_in, named_places as named, may_heat as heats, is_bad, is_bad_whole as bad_whole, is_vain, is_whole as whole, IsLeast, NonePasses, HaveNoBadPlace};
ghost use Rattle.strictness.specs.Heating.{IsBadAt, IsRefusal};

use crate::fault::StrictFault;
use grammar_terms::{Part, Production};
use k_terms::{Memory, sort};
use production_reader::{Attrs, Strict};
use std::alloc::Global;

/// The sorts of a production's arguments.
pub(crate) fn argument_sorts(alloc: Global, items: &[Part]) -> Result<Vec<u32>, Memory>
    ensures { IfOk result (λ sorts. sorts.items ≡ sorts_in items.now) }
{
    let mut sorts = Vec::new(alloc);
    for item in items {
        if let Part::Sort(sort) = item {
            sorts.push(*sort)?;
        }
    }
    Ok(sorts)
}

/// The places of so many arguments, behind some places.
fn with_all(alloc: Global, before: &[u64], count: usize) -> Result<Vec<u64>, Memory>
    ensures { IfOk result (λ places. places.items ≡ before.now ++ places_to count) }
{
    let mut places = Vec::from_slice(alloc, before)?;
    for index in 0..count {
        places.push(index as u64 + 1)?;
    }
    Ok(places)
}

/// The places that `strict` or `strict(..)` names.
fn named_by(alloc: Global, strict: &Strict, count: usize) -> Result<Vec<u64>, Memory>
    ensures { IfOk result (λ places. places.items ≡ named_in strict.now count) }
{
    match strict {
        Strict::No => Ok(Vec::new(alloc)),
        Strict::All => with_all(alloc, &[], count),
        Strict::Places(places) => Ok(Vec::from_slice(alloc, places.as_slice())?),
    }
}

/// The places that attributes name.
pub(crate) fn named_places(alloc: Global, attrs: &Attrs, count: usize) -> Result<Vec<u64>, Memory>
    ensures { IfOk result (λ places. places.items ≡ named attrs.now count) }
{
    let places = named_by(alloc, &attrs.strict, count)?;
    if attrs.seqstrict {
        with_all(alloc, &places, count)
    } else {
        Ok(places)
    }
}

/// Whether values of a sort are whole sequences, maps or lists.
fn is_whole(sort: u32) -> bool
    ensures { result ≡ whole sort }
{
    sort == sort::K || sort == sort::MAP || sort == sort::LIST
}

/// Whether an argument stands at a place and may be heated.
fn may_heat(sorts: &[u32], place: u64) -> bool
    ensures { result ≡ heats sorts.now place }
{
    let Some(index) = place.checked_sub(1) else {
        return false;
    };
    match sorts.get(index as usize) {
        Some(sort) => !is_whole(*sort),
        None => false,
    }
}

fn is_not_strict(strict: &Strict) -> bool
    ensures { result ≡ not_strict strict.now }
{
    match strict {
        Strict::No => true,
        Strict::All | Strict::Places(_) => false,
    }
}

/// Whether a production with these attributes and arguments may not be strict at all, and is.
fn is_bad_whole(attrs: &Attrs, sorts: &[u32]) -> bool
    ensures { result ≡ bad_whole attrs.now sorts.now }
{
    let is_strict = !is_not_strict(&attrs.strict);
    (is_strict || attrs.seqstrict)
        && (sorts.is_empty() || attrs.bracket || (is_strict && attrs.seqstrict))
}

/// The lesser of a place and another, where there is another.
fn lesser(place: u64, other: Option<u64>) -> u64
    ensures { result ≡ option_map_or (min place) other place }
{
    match other {
        Some(other) => place.min(other),
        None => place,
    }
}

/// The least of the places that are named in vain.
fn least_vain(named: &[u64], sorts: &[u32]) -> Option<u64>
    ensures { MatchOption result (NonePasses (is_vain named.now sorts.now)) (IsLeast (is_vain named.now sorts.now)) }
{
    let mut least = None;
    for place in named {
        if !may_heat(sorts, *place) {
            least = Some(lesser(*place, least));
        }
    }
    least
}

/// The least bad place of a production.
fn least_bad(alloc: Global, production: &Production) -> Result<Option<u64>, Memory>
    ensures { IfOk result (λ found.
        MatchOption found (NonePasses (is_bad production.now)) (IsLeast (is_bad production.now))) }
{
    let sorts = argument_sorts(alloc, production.items.as_slice())?;
    if is_bad_whole(&production.attrs, &sorts) {
        return Ok(Some(0));
    }
    let named = named_places(alloc, &production.attrs, sorts.len())?;
    Ok(least_vain(&named, &sorts))
}

/// The fault of a bad place of the production at an index.
fn bad_strict(index: usize, place: u64) -> StrictFault
    ensures { IsBadAt (index + 1) place result }
{
    let (Ok(before), Ok(place)) = (u32::try_from(index), u32::try_from(place)) else {
        return StrictFault::Memory;
    };
    match before.checked_add(1) {
        Some(prod) => StrictFault::BadStrict { prod, place },
        None => StrictFault::Memory,
    }
}

/// Tells the least bad place of productions, if there is one.
pub(crate) fn refuse_bad(alloc: Global, prods: &[Production]) -> Result<(), StrictFault>
    ensures { MatchResult result (λ _. HaveNoBadPlace prods.now) (IsRefusal prods.now) }
{
    for (index, production) in prods.iter().enumerate() {
        if let Some(place) = least_bad(alloc, production)? {
            return Err(bad_strict(index, place));
        }
    }
    Ok(())
}
