//! The one reading of tokens.
ghost use Rattle.std.specs.Prelude.{◌≡◌, ◌⊎◌, IfOk, IfErr};
ghost use Rattle.grammar_terms.specs.Reading.{IsReading};
ghost use Rattle.program_reader.specs.declared.refusal.ReadRefusal.TheVariants.{Memory as WantOfMemory};
ghost use Rattle.program_reader.specs.Readings.{IsOnlyReading, IsUnread, AreAmbiguous};

use crate::refusal::ReadRefusal;
use crate::values::value;
use grammar_terms::{Grammar, Readings, Shape, Word};
use k_terms::{Memory, Value, cmp};
use span_table::all_readings;
use std::alloc::Global;
use std::cmp::Ordering;

/// The values of two different readings, the lesser first.
fn two_values(
    alloc: Global,
    grammar: &Grammar,
    sort: u32,
    words: &[Word],
    one: &Shape,
    other: &Shape,
) -> Result<(Value, Value), Memory>
    requires one { IsReading grammar.now sort words.now one.now }
    requires other { IsReading grammar.now sort words.now other.now }
    requires differ { one.now ≡ other.now → ⊥ }
    ensures { IfOk result (λ values. AreAmbiguous grammar.now sort words.now values.0 values.1) }
{
    let first = value(alloc, grammar, words, sort, one)?;
    let second = value(alloc, grammar, words, sort, other)?;
    match cmp(&first, &second) {
        Ordering::Less | Ordering::Equal => Ok((first, second)),
        Ordering::Greater => Ok((second, first)),
    }
}

/// The refusal of tokens with two different readings.
fn ambiguous(
    alloc: Global,
    grammar: &Grammar,
    sort: u32,
    words: &[Word],
    one: &Shape,
    other: &Shape,
) -> ReadRefusal
    requires one { IsReading grammar.now sort words.now one.now }
    requires other { IsReading grammar.now sort words.now other.now }
    requires differ { one.now ≡ other.now → ⊥ }
    ensures { (result ≡ WantOfMemory) ⊎ IsUnread grammar.now sort words.now result }
{
    let Ok((first, second)) = two_values(alloc, grammar, sort, words, one, other) else {
        return ReadRefusal::Memory;
    };
    ReadRefusal::Ambiguous { first, second }
}

/// The one reading of tokens at a sort. `NoReading`, with `at` 0, comes where they have none, `Ambiguous` where they have
/// two that differ.
pub fn read_words(
    alloc: Global,
    grammar: &Grammar,
    sort: u32,
    words: &[Word],
) -> Result<Shape, ReadRefusal>
    ensures ok { IfOk result (IsOnlyReading grammar.now sort words.now) }
    ensures refusal { IfErr result (λ refusal. (refusal ≡ WantOfMemory) ⊎ IsUnread grammar.now sort words.now refusal) }
{
    let Ok(readings) = all_readings(alloc, grammar, sort, words) else {
        return Err(ReadRefusal::Memory);
    };
    match readings {
        Readings::Zero => Err(ReadRefusal::NoReading { at: 0 }),
        Readings::One(shape) => Ok(shape),
        Readings::Two(one, other) => Err(ambiguous(alloc, grammar, sort, words, &one, &other)),
    }
}
