//! Programs as texts.
ghost use Rattle.std.specs.Prelude.{◌≡◌, ◌⊎◌, ◌-◌, ◌<◌, ◌≤◌, ◌^◌, ℕ, List, length, IfOk, IfErr, OnErr, MatchOption, MatchResult};
ghost use Rattle.k_terms.specs.declared.value.Value.{Value};
ghost use Rattle.program_tokens.specs.Base.{GoesOn};
ghost use Rattle.program_reader.specs.declared.refusal.ReadRefusal.{ReadRefusal as Refusal};
ghost use Rattle.program_reader.specs.declared.refusal.ReadRefusal.TheVariants.{Memory as WantOfMemory};
ghost use Rattle.program_reader.specs.Programs.{IsGood, IsBadSplit, IsValue, HasNoValue, IsProgram, IsRefused, IsLike};

use crate::reading::read_words;
use crate::refusal::ReadRefusal;
use crate::values::value;
use grammar_terms::{Grammar, Word};
use k_terms::{Names, Value, depth};
use program_tokens::{Split, split_text};
use std::alloc::Global;

/// The most bytes of a program.
const MOST_BYTES: usize = 65_536;

/// The most tokens of a program.
const MOST_TOKENS: usize = 256;

/// The greatest depth of a value.
const MOST_DEPTH: u32 = 400;

/// Why the words of a split can't be read, if so.
fn split_refusal(split: &Split) -> Option<ReadRefusal>
    ensures { MatchOption result (IsGood split.now) (IsBadSplit split.now) }
{
    if split.words.len() > MOST_TOKENS {
        return Some(ReadRefusal::TooLong {
            tokens: split.words.len() as u64,
        });
    }
    if let Some(at) = split.bad {
        return Some(ReadRefusal::BadToken { at });
    }
    if let Some(at) = split.wide {
        return Some(ReadRefusal::WideNumber { at });
    }
    None
}

/// The value of the one reading of words.
fn read_value(
    alloc: Global,
    grammar: &Grammar,
    sort: u32,
    words: &[Word],
) -> Result<Value, ReadRefusal>
    ensures ok { IfOk result (IsValue grammar.now sort words.now) }
    ensures refusal { IfErr result (λ refusal. (refusal ≡ WantOfMemory) ⊎ HasNoValue grammar.now sort words.now refusal) }
{
    let shape = match read_words(alloc, grammar, sort, words) {
        Ok(shape) => shape,
        Err(refusal) => return Err(refusal),
    };
    let Ok(value) = value(alloc, grammar, words, sort, &shape) else {
        return Err(ReadRefusal::Memory);
    };
    let depth = depth(&value);
    if depth > MOST_DEPTH {
        return Err(ReadRefusal::TooDeep { depth });
    }
    Ok(value)
}

/// The value of a program, or its refusal.
fn read_program(
    alloc: Global,
    grammar: &Grammar,
    names: &mut Names,
    sort: u32,
    text: &[u8],
) -> Result<Value, ReadRefusal>
    ensures ok { IfOk result (λ value. IsProgram grammar.now names.old sort text.now names.new value) }
    ensures refusal { IfErr result (λ refusal. (refusal ≡ WantOfMemory) ⊎ IsRefused grammar.now names.old sort text.now names.new refusal) }
    ensures names { OnErr result (GoesOn names.old names.new) }
{
    if text.len() > MOST_BYTES {
        return Err(ReadRefusal::TooBig {
            bytes: MOST_BYTES as u64,
        });
    }
    let Ok(split) = split_text(alloc, grammar, names, text) else {
        return Err(ReadRefusal::Memory);
    };
    if let Some(refusal) = split_refusal(&split) {
        return Err(refusal);
    }
    read_value(alloc, grammar, sort, split.words.as_slice())
}

/// Reads a program at a sort. The words of the text are added to the names, on `Err` some of them. A text of more than
/// 65,536 bytes is `TooBig`, one of more than 256 tokens `TooLong`; `BadToken` and `WideNumber` come wherever in the text they
/// stand; then `NoReading`, with `at` 0, or `Ambiguous`; and `TooDeep` where the value is deeper than 400.
pub fn read_text(
    alloc: Global,
    grammar: &Grammar,
    names: &mut Names,
    sort: u32,
    text: &[u8],
) -> Result<Value, ReadRefusal>
    ensures ok { IfOk result (λ value. IsProgram grammar.now names.old sort text.now names.new value) }
    ensures refusal { IfErr result (λ refusal. (refusal ≡ WantOfMemory) ⊎ IsRefused grammar.now names.old sort text.now names.new refusal) }
    ensures names { OnErr result (GoesOn names.old names.new) }
    ensures exact { (after : List (List ℕ)) (value : Value) → IsProgram grammar.now names.old sort text.now after value
        → MatchResult result (λ it. it ≡ value) (λ refusal. refusal ≡ WantOfMemory) }
    ensures exact_refusal { (after : List (List ℕ)) (refusal : Refusal) → IsRefused grammar.now names.old sort text.now after refusal
        → MatchResult result (λ it. ⊥) (λ other. (other ≡ WantOfMemory) ⊎ IsLike refusal other) }
{
    read_program(alloc, grammar, names, sort, text)
}
