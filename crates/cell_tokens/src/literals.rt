//! What digits and strings say.
ghost use Rattle.std.specs.Prelude.{◌≡◌, ◌==◌, if◌then◌else◌, ◌<◌, ◌≤◌, ◌^◌, ◌∷◌, [], length, pos, None, Some, IfOk, MatchOption};
ghost use Rattle.production_reader.specs.Allowed.{number_of as number_in, unescaped, text_of_string as meant};
ghost use Rattle.program_tokens.specs.Words.{are_wide as wide};

use k_terms::{Memory, Text};
use std::alloc::Global;

/// The greatest number.
const GREATEST: u128 = 170141183460469231731687303715884105727;

/// The number that digits say, where it is not above the greatest.
fn number_of(digits: &[u8]) -> Option<u128>
    ensures { MatchOption result (2 ^ 127 ≤ number_in digits.now) (λ number. (number ≡ number_in digits.now) × (number < 2 ^ 127)) }
{
    let mut number: u128 = 0;
    for digit in digits {
        if number > GREATEST / 10 {
            return None;
        }
        number = number * 10 + u128::from(digit.saturating_sub(b'0'));
        if number > GREATEST {
            return None;
        }
    }
    Some(number)
}

/// The number that digits say, where it is not above the greatest.
pub(crate) fn number(digits: &[u8]) -> Option<i128>
    ensures { result ≡ (if wide digits.now then None else Some (pos (number_in digits.now))) }
{
    match number_of(digits) {
        Some(number) => Some(number as i128),
        None => None,
    }
}

/// What an escape with this letter stands for.
fn meaning_of(letter: u8) -> u8
    ensures { result ≡ (if letter == 110 then 10 else (if letter == 116 then 9 else letter)) }
{
    match letter {
        b'n' => b'\n',
        b't' => b'\t',
        _ => letter,
    }
}

/// The first byte that a string says from here on, and where it goes on.
fn next_byte(rest: &[u8]) -> Option<(u8, &[u8])>
    ensures { MatchOption result (unescaped rest.now ≡ []) (λ next. (unescaped rest.now ≡ next.0 ∷ unescaped next.1.now) × (length next.1.now < length rest.now)) }
{
    let Some((byte, tail)) = rest.split_first() else {
        return None;
    };
    if *byte == b'"' {
        return None;
    }
    if *byte != b'\\' {
        return Some((*byte, tail));
    }
    let Some((letter, after)) = tail.split_first() else {
        return None;
    };
    Some((meaning_of(*letter), after))
}

/// What a string says that is given with its quotes.
pub(crate) fn text_of_string(alloc: Global, string: &[u8]) -> Result<Text, Memory>
    ensures { IfOk result (λ text. text ≡ meant string.now) }
{
    let Some((_, tail)) = string.split_first() else {
        return Ok(Text::new(alloc));
    };
    let mut rest = tail;
    let mut found = Text::new(alloc);
    while let Some((byte, after)) = next_byte(rest) {
        found.push(byte)?;
        rest = after;
    }
    Ok(found)
}
