//! Places that ask for one token, and not for a sort.
ghost use Rattle.std.specs.Prelude.{◌≡◌};
ghost use Rattle.grammar_terms.specs.Places.{variable_place, empty_place, place_of_empty, place_of_terminal as place_of_number, token_place as place_of_token, token_place_at as place_at};

use crate::word::{Word, WordKind};

/// The number of a place that asks for a variable without a sort. Sorts have lesser numbers.
pub const WILD_PLACE: u32 = 0x8000_0000;

/// The number of a place that asks for a token that is `.` alone.
pub const DOT_PLACE: u32 = 0x8000_0001;

/// The number of a place that asks for a terminal that is the arrow of a change.
pub const REWRITE_PLACE: u32 = 0x8000_0002;

/// The number of a place that asks for a terminal that is an opening parenthesis.
pub const OPEN_PLACE: u32 = 0x8000_0003;

/// The number of a place that asks for a terminal that is a closing parenthesis.
pub const CLOSE_PLACE: u32 = 0x8000_0004;

/// The number of a place that asks for a variable of sort 0; for one of the next sort it is greater by 2.
pub const VARIABLE_PLACE: u32 = 0x8000_0005;

/// The number of a place that asks for an empty list of sort 0 that is written with its sort; for one of the next sort it is
/// greater by 2.
pub const EMPTY_PLACE: u32 = 0x8000_0006;

/// The number of a place that asks for a variable of a sort.
fn place_of_variable(sort: u32) -> u64
    ensures { result ≡ variable_place sort }
{
    VARIABLE_PLACE as u64 + 2 * sort as u64
}

/// The number of a place that asks for an empty list that is written with its sort.
fn place_of_named(sort: u32) -> u64
    ensures { result ≡ empty_place sort }
{
    EMPTY_PLACE as u64 + 2 * sort as u64
}

fn place_of_empty_list(sort: u32, bytes: usize) -> Option<u64>
    ensures { result ≡ place_of_empty sort bytes }
{
    match bytes {
        0 => None,
        1 => Some(DOT_PLACE as u64),
        _ => Some(place_of_named(sort)),
    }
}

/// The number of the places that ask for a terminal of a number, where there are such.
fn place_of_terminal(number: u32) -> Option<u64>
    ensures { result ≡ place_of_number number }
{
    match number {
        REWRITE_PLACE | OPEN_PLACE | CLOSE_PLACE => Some(number as u64),
        _ => None,
    }
}

/// The number of the places that ask for a token, where there are such.
fn token_place(word: &Word) -> Option<u64>
    ensures { result ≡ place_of_token word.now }
{
    match &word.kind {
        WordKind::Terminal(_) => place_of_terminal(word.sort),
        WordKind::Literal(_) => None,
        WordKind::Variable => Some(place_of_variable(word.sort)),
        WordKind::Wild => Some(WILD_PLACE as u64),
        WordKind::EmptyList => place_of_empty_list(word.sort, word.end.saturating_sub(word.start)),
    }
}

/// The number of the places that ask for the token at a place of the text, where there are such.
pub fn token_place_at(tokens: &[Word], at: usize) -> Option<u64>
    ensures { result ≡ place_at tokens.now at }
{
    match tokens.get(at) {
        Some(word) => token_place(word),
        None => None,
    }
}
