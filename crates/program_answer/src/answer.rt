//! The answer for the text of a program.
ghost use Rattle.std.specs.Prelude.{◌≡◌, ◌++◌, IfOk, MatchResult, List, ℕ};
ghost use Rattle.k_terms.specs.declared.value.Value.{Value as Val};
ghost use Rattle.printed_form.specs.Printed.{value_text};
ghost use Rattle.program_reader.specs.declared.refusal.ReadRefusal.TheVariants.{Memory as NoMemory};
ghost use Rattle.program_reader.specs.Programs.{IsProgram, IsRefused};
ghost use Rattle.program_answer.specs.declared.answer.Answer.TheVariants.{Shown as WasShown, Refused as WasRefused};
ghost use Rattle.program_answer.specs.Answers.{line_end, words_of, refusal_line as line_of_refusal, IsTold};

use crate::lines::{refusal_line, value_line};
use crate::symbols::symbols;
use k_terms::{Memory, Names, Value};
use printed_form::Words;
use program_reader::{ReadRefusal, read_text};
use sorted_grammar::Grammar;
use std::alloc::Global;

/// What becomes of the text of a program.
#[derive(Debug, Drop, PartialEq, Eq)]
pub enum Answer {
    /// Its value is shown.
    Shown,
    /// It is refused; never for want of memory.
    Refused(ReadRefusal),
}

/// An answer with its text.
#[derive(Debug, Drop)]
pub struct Told {
    /// The answer.
    pub answer: Answer,
    /// Its line.
    pub text: Vec<u8>,
}

/// A value that is shown.
fn shown(alloc: Global, grammar: &Grammar, names: &Names, value: &Value) -> Result<Told, Memory>
    ensures answer { IfOk result (λ told. told.answer ≡ WasShown) }
    ensures text { IfOk result (λ told. told.text.items ≡ value_text (words_of grammar.now names.now) value.now ++ line_end) }
{
    let symbols = symbols(alloc, names)?;
    let words = Words {
        labels: grammar.labels(),
        symbols: symbols.as_slice(),
    };
    Ok(Told {
        answer: Answer::Shown,
        text: value_line(alloc, &words, value)?,
    })
}

/// A program that is refused.
fn refused(
    alloc: Global,
    grammar: &Grammar,
    names: &Names,
    refusal: ReadRefusal,
) -> Result<Told, Memory>
    ensures answer { IfOk result (λ told. told.answer ≡ WasRefused refusal) }
    ensures text { IfOk result (λ told. told.text.items ≡ line_of_refusal (words_of grammar.now names.now) refusal) }
{
    let symbols = symbols(alloc, names)?;
    let words = Words {
        labels: grammar.labels(),
        symbols: symbols.as_slice(),
    };
    let text = refusal_line(alloc, &words, &refusal)?;
    Ok(Told {
        answer: Answer::Refused(refusal),
        text,
    })
}

/// The answer for the text of a program, read at a sort of a grammar with the words that have numbers: the line of its value, or
/// of its refusal.
pub fn answer_text(
    alloc: Global,
    grammar: &Grammar,
    names: Names,
    sort: u32,
    text: &[u8],
) -> Result<Told, Memory>
    ensures { IfOk result (λ told. IsTold grammar.now names sort text.now told.answer told.text.items) }
{
    let mut names = names;
    match read_text(alloc, grammar, &mut names, sort, text) {
        Ok(value) => shown(alloc, grammar, &names, &value),
        Err(ReadRefusal::Memory) => Err(Memory),
        Err(refusal) => refused(alloc, grammar, &names, refusal),
    }
}
