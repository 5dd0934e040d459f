//! The text of a program as words of a grammar.
ghost use Rattle.std.specs.Prelude.{◌≡◌, ◌≤◌, ℕ, List, length, drop, IfOk, Some};
ghost use Rattle.std.specs.List.{AllByRecursion};
ghost use Rattle.std.specs.Option.{option_or};
ghost use Rattle.grammar_terms.specs.Values.{AreOfProgram};
ghost use Rattle.k_lexer.specs.Before.{AllStand};
ghost use Rattle.program_tokens.specs.Base.{IsBase, AllNumbered, with_tokens, GoesOn};
ghost use Rattle.program_tokens.specs.Splits.{IsSplit, first_place as place_of_first};
ghost use Rattle.program_tokens.specs.Words.{is_wide as wide, first_wide as wide_first, IsInside};

use crate::base::{Base, base_of, number_tokens};
use crate::literals::are_wide;
use crate::terminals::Terminals;
use crate::words::read_words;
use grammar_terms::{Grammar, Word};
use k_lexer::Token;
use k_terms::{Many, Memory, Names, sort};
use std::alloc::Global;

/// The text of a program as words of a grammar.
#[derive(Debug, Drop, PartialEq, Eq)]
pub struct Split {
    /// The words before the bad place, or all where there is none.
    pub words: Many<Word>,
    /// The first place that is bad: no base token stands there, or a mark with which no terminal begins.
    pub bad: Option<usize>,
    /// The place of the first of the words that is a number above the greatest. It stands among the words as the greatest.
    pub wide: Option<usize>,
}

/// Whether a word is a number above the greatest.
fn is_wide(text: &[u8], word: &Word) -> bool
    requires { IsInside text.now word.now }
    ensures { result ≡ wide text.now word.now }
{
    word.sort == sort::INT && are_wide(&text[word.start..word.end])
}

/// Where the first number above the greatest stands.
fn first_wide(text: &[u8], words: &[Word]) -> Option<usize>
    requires { AllByRecursion (IsInside text.now) words.now }
    ensures { result ≡ wide_first text.now words.now }
{
    for word in words {
        if is_wide(text, word) {
            return Some(word.start);
        }
    }
    None
}

/// The place of the first token, or the other one where there is no token.
fn bad_place(tokens: &[Token], at: usize, fault: Option<usize>) -> Option<usize>
    ensures { result ≡ option_or (place_of_first (drop at tokens.now)) fault }
{
    match tokens.get(at) {
        Some(token) => Some(token.start),
        None => fault,
    }
}

/// The words of base tokens whose words are numbered.
fn split_base(
    alloc: Global,
    grammar: &Grammar,
    names: &Names,
    text: &[u8],
    base: &Base,
) -> Result<Split, Memory>
    requires base { IsBase text.now base.now.tokens.items base.now.fault }
    requires stand { AllStand text.now base.now.tokens.items }
    requires numbered { AllNumbered text.now names.now base.now.tokens.items }
    ensures split { IfOk result (λ found. (before : List (List ℕ)) → names.now ≡ with_tokens text.now before base.now.tokens.items → IsSplit grammar.now before text.now names.now found) }
    ensures words { IfOk result (λ found. AreOfProgram found.words) }
{
    let terminals = Terminals::new(alloc, grammar)?;
    let (words, at) = read_words(alloc, &terminals, names, text, &base.tokens)?;
    let wide = first_wide(text, words.as_slice());
    Ok(Split {
        words,
        bad: bad_place(&base.tokens, at, base.fault),
        wide,
    })
}

/// The words of a text. Its words are added to the names, on `Err` some of them.
pub fn split_text(
    alloc: Global,
    grammar: &Grammar,
    names: &mut Names,
    text: &[u8],
) -> Result<Split, Memory>
    ensures ok { IfOk result (λ found. IsSplit grammar.now names.old text.now names.new found) }
    ensures words { IfOk result (λ found. AreOfProgram found.words) }
    ensures names { GoesOn names.old names.new }
{
    let base = base_of(alloc, text)?;
    number_tokens(alloc, names, text, &base.tokens)?;
    split_base(alloc, grammar, names, text, &base)
}
