//! The places of `strict(..)`.
ghost use Rattle.std.specs.Prelude.{◌≡◌, ◌<◌, ◌^◌, ◌≤◌, MatchOption};
ghost use Rattle.std.specs.Prelude.{MatchResult, length, map};
ghost use Rattle.production_reader.specs.Allowed.{number_of, IsPlace};
ghost use Rattle.production_reader.specs.Attributes.{ArePlaces, signs_of_places};
ghost use Rattle.production_reader.specs.Heads.{Anything, Begin, is_mark_of};
ghost use Rattle.production_reader.specs.Reading.{IsReadAs, Stops};
ghost use Rattle.production_reader.specs.Written.{one_number};

use crate::signs::{digits_at, is_mark};
use crate::source::Source;
use crate::stop::Stop;
use k_terms::Numbers;
use std::alloc::Global;

/// The number that digits are, where it is below 2^32.
pub(crate) fn place_of(digits: &[u8]) -> Option<u64>
    ensures { MatchOption result (IsPlace digits.now → ⊥) (λ number. (number ≡ number_of digits.now) × IsPlace digits.now) }
{
    let mut number: u64 = 0;
    for digit in digits {
        number = number * 10 + u64::from(digit.saturating_sub(b'0'));
        if number >= 4294967296 {
            return None;
        }
    }
    Some(number)
}

/// Reads one place, as a number below 2^32.
fn read_place(source: &Source<'_>, from: usize) -> Result<(u64, usize), Stop>
    requires { from ≤ length source.now }
    ensures { MatchResult result
        (λ found. IsReadAs IsPlace one_number Anything number_of source.now from found.0 found.1)
        (λ stop. Stops IsPlace one_number Anything source.now from stop) }
{
    let Some(digits) = digits_at(source, from) else {
        return Err(Stop::Expected { at: from });
    };
    let Some(number) = place_of(digits) else {
        return Err(Stop::Expected { at: from });
    };
    Ok((number, from + 1))
}

/// Reads one place or more, with commas between.
pub(crate) fn read_places(
    alloc: Global,
    source: &Source<'_>,
    from: usize,
) -> Result<(Numbers, usize), Stop>
    requires { from ≤ length source.now }
    ensures { MatchResult result
        (λ found. IsReadAs ArePlaces signs_of_places (Begin (is_mark_of 41)) (map number_of) source.now from found.0 found.1)
        (λ stop. Stops ArePlaces signs_of_places (Begin (is_mark_of 41)) source.now from stop) }
{
    let mut found = Numbers::new(alloc);
    let mut at = from;
    'places: loop {
        let (number, next) = match read_place(source, at) {
            Ok(read) => read,
            Err(stop) => return Err(stop),
        };
        if let Err(_failed) = found.push(number) {
            return Err(Stop::Memory);
        }
        if !is_mark(source, next, b',') {
            return Ok((found, next));
        }
        at = next + 1;
    }
}
