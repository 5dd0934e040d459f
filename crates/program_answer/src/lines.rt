//! The lines of answers.
ghost use Rattle.std.specs.Prelude.{◌≡◌, ◌++◌, IfOk};
ghost use Rattle.std.specs.Fmt.{decimal};
ghost use Rattle.printed_form.specs.Words.{words_of as lent_words};
ghost use Rattle.printed_form.specs.Printed.{value_text as text_of_value};
ghost use Rattle.program_reader.specs.declared.refusal.ReadRefusal.TheVariants.{Ambiguous};
ghost use Rattle.program_answer.specs.Answers.{line_end, numbered, refusal_line as line_of_refusal};

use k_terms::{Memory, Value};
use printed_form::{Words, value_text};
use program_reader::ReadRefusal;
use std::alloc::Global;

/// A line of a text and a number.
fn numbered_line(alloc: Global, text: &str, number: u64) -> Result<Vec<u8>, Memory>
    ensures { IfOk result (λ line. line.items ≡ numbered text.now number) }
{
    let line = format!(in alloc; "{text}{number}\n")?;
    Ok(Vec::from_slice(alloc, line.as_bytes())?)
}

/// The line of two readings of a program.
fn ambiguous_line(
    alloc: Global,
    words: &Words<'_>,
    first: &Value,
    second: &Value,
) -> Result<Vec<u8>, Memory>
    ensures { IfOk result (λ line. line.items ≡ line_of_refusal (lent_words words.now) (Ambiguous first.now second.now)) }
{
    let first = value_text(alloc, words, first)?;
    let second = value_text(alloc, words, second)?;
    let mut line = Vec::from_slice(alloc, b"program 14 Ambiguous first=")?;
    line.extend_from_slice(first.as_slice())?;
    line.extend_from_slice(b" second=")?;
    line.extend_from_slice(second.as_slice())?;
    line.push(b'\n')?;
    Ok(line)
}

/// The line of a refused program.
pub(crate) fn refusal_line(
    alloc: Global,
    words: &Words<'_>,
    refusal: &ReadRefusal,
) -> Result<Vec<u8>, Memory>
    ensures { IfOk result (λ line. line.items ≡ line_of_refusal (lent_words words.now) refusal.now) }
{
    match refusal {
        ReadRefusal::TooBig { bytes } => {
            numbered_line(alloc, "program 27 TooBig bytes=", *bytes)
        }
        ReadRefusal::TooLong { tokens } => {
            numbered_line(alloc, "program 15 TooLong tokens=", *tokens)
        }
        ReadRefusal::BadToken { at } => {
            numbered_line(alloc, "program 12 BadToken at=", *at as u64)
        }
        ReadRefusal::WideNumber { at } => {
            numbered_line(alloc, "program 16 WideNumber at=", *at as u64)
        }
        ReadRefusal::NoReading { at } => {
            numbered_line(alloc, "program 13 NoReading at=", *at as u64)
        }
        ReadRefusal::Ambiguous { first, second } => ambiguous_line(alloc, words, first, second),
        ReadRefusal::TooDeep { depth } => {
            numbered_line(alloc, "program 28 TooDeep depth=", *depth as u64)
        }
        ReadRefusal::Memory => Ok(Vec::new(alloc)),
    }
}

/// The line of a value.
pub(crate) fn value_line(alloc: Global, words: &Words<'_>, value: &Value) -> Result<Vec<u8>, Memory>
    ensures { IfOk result (λ line. line.items ≡ text_of_value (lent_words words.now) value.now ++ line_end) }
{
    let mut line = value_text(alloc, words, value)?.into_vec();
    line.push(b'\n')?;
    Ok(line)
}
