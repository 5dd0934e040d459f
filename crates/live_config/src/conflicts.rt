ghost use Rattle.std.specs.Prelude.{◌≡◌, ◌++◌, option_copied};
ghost use Rattle.std.specs.Option.{option_map};
ghost use Rattle.live_config.specs.Places.{is_same_place, covers, overlaps, first_over, first_pair, conflict_of};

use crate::place::{End, Marks, Place};

/// Whether two places overlap: they are equal, or one is a whole cell and the other lies at or below it.
pub fn overlap(a: &Place, b: &Place) -> bool
    ensures { result ≡ overlaps a.now b.now }
{
    is_same(a, b) || is_above(a, b) || is_above(b, a)
}

/// The first pair of places at which two firings conflict: the rewritten places of `a` in order, each against the read and
/// then the rewritten places of `b`, and then the read places of `a` against the rewritten ones of `b`.
pub fn conflict<'a>(a: &'a Marks, b: &'a Marks) -> Option<(&'a Place, &'a Place)>
    ensures { option_map (λ pair. (pair.0.now, pair.1.now)) result ≡ conflict_of a.now b.now }
{
    match first_overlap(a.writes.as_slice(), b.reads.as_slice(), b.writes.as_slice()) {
        Some(pair) => Some(pair),
        None => first_overlap(a.reads.as_slice(), b.writes.as_slice(), &[]),
    }
}

/// The first of these places that overlaps one of `first` and `second`, with the first of those that it overlaps.
fn first_overlap<'a>(
    places: &'a [Place],
    first: &'a [Place],
    second: &'a [Place],
) -> Option<(&'a Place, &'a Place)>
    ensures { option_map (λ pair. (pair.0.now, pair.1.now)) result ≡ first_pair places.now (first.now ++ second.now) }
{
    for place in places {
        if let Some(other) = overlapped_of_two(place, first, second) {
            return Some((place, other));
        }
    }
    None
}

/// The first place of `first` and then of `second` that overlaps this one.
fn overlapped_of_two<'a>(
    place: &Place,
    first: &'a [Place],
    second: &'a [Place],
) -> Option<&'a Place>
    ensures { option_map (λ other. (place.now, other)) (option_copied result) ≡ first_over place.now (first.now ++ second.now) }
{
    match overlapped(place, first) {
        Some(other) => Some(other),
        None => overlapped(place, second),
    }
}

/// The first of the other places that overlaps this one.
fn overlapped<'a>(place: &Place, others: &'a [Place]) -> Option<&'a Place>
    ensures { option_map (λ other. (place.now, other)) (option_copied result) ≡ first_over place.now others.now }
{
    for other in others {
        if overlap(place, other) {
            return Some(other);
        }
    }
    None
}

/// Whether the first place is a whole cell, and the second lies at or below it.
fn is_above(a: &Place, b: &Place) -> bool
    ensures { result ≡ covers a.now b.now }
{
    match a.end {
        End::Whole => b.path.as_slice().starts_with(a.path.as_slice()),
        _ => false,
    }
}

/// Whether two places are equal.
fn is_same(a: &Place, b: &Place) -> bool
    ensures { result ≡ is_same_place a.now b.now }
{
    a == b
}
