//! Words, numbers and strings of a rule.
ghost use Rattle.std.specs.Prelude.{◌≡◌, ◌&&◌, ◌||◌, ◌∷◌, [], not, true, false, is_some, if◌then◌else◌, IfOk, Some, None, codes};
ghost use Rattle.std.specs.Str.{IsUtf8};
ghost use Rattle.k_lexer.specs.Before.{Stands, AllStand};
ghost use Rattle.k_terms.specs.Names.{number_of};
ghost use Rattle.production_reader.specs.Allowed.{is_sort as sort, is_among, same_text};
ghost use Rattle.program_tokens.specs.Base.{IsNumbered, AllNumbered};
ghost use Rattle.program_tokens.specs.Words.{other_word};
ghost use Rattle.grammar_terms.specs.Values.{literal_of};
ghost use Rattle.rule_tokens.specs.Signs.{marks, fits as fit, bytes_at as bytes_in_place};
ghost use Rattle.rule_tokens.specs.Forms.{Lexicon, is_wild as wild, is_variable as variable, name_of as name, literal_as as a_literal};

use crate::literals::{number, text_of_string};
use crate::signs::bytes_of;
use crate::terminals::Terminals;
use crate::token::{Found, RuleKind};
use k_lexer::{Kind, Token};
use k_terms::{Memory, Names, Symbol, Value};
use std::alloc::Global;

/// Whether a word begins with A to Z.
fn is_sort(word: &[u8]) -> bool
    ensures { result ≡ sort word.now }
{
    match word.first() {
        Some(byte) => b'A' <= *byte && *byte <= b'Z',
        None => false,
    }
}

/// Whether a word is `_`.
fn is_wild(word: &[u8]) -> bool
    ensures { result ≡ wild word.now }
{
    word == b"_".as_slice()
}

/// Whether a word may stand for a variable: it is `_`, or begins with A to Z and is no terminal.
pub(crate) fn is_variable(terminals: &Terminals<'_>, word: &[u8]) -> bool
    ensures { result ≡ variable terminals.now word.now }
{
    is_wild(word) || is_sort(word) && !terminals.has(word)
}

/// The symbol of a word that has a number.
fn symbol_of(names: &Names, word: &[u8]) -> Symbol
    requires utf8 { IsUtf8 word.now }
    requires numbered { is_some (number_of names.now word.now) ≡ true }
    ensures { number_of names.now word.now ≡ Some result.0 }
{
    let Ok(word) = std::str::from_utf8(word) else {
        unreachable!();
    };
    let Some(symbol) = names.find(word) else {
        unreachable!();
    };
    symbol
}

/// The symbol of a word that has a number, and none of `_`.
pub(crate) fn name_of(names: &Names, word: &[u8]) -> Option<Symbol>
    requires utf8 { IsUtf8 word.now }
    requires numbered { is_some (number_of names.now word.now) ≡ true }
    ensures { result ≡ name names.now word.now }
{
    if is_wild(word) {
        return None;
    }
    Some(symbol_of(names, word))
}

/// A truth, or an identifier by its symbol.
fn value_of(names: &Names, token: Token, word: &[u8]) -> Value
    requires utf8 { IsUtf8 word.now }
    requires numbered { is_some (number_of names.now word.now) ≡ true }
    ensures { result ≡ literal_of (other_word names.now token word.now).kind }
{
    if word == b"true".as_slice() {
        return Value::Bool(true);
    }
    if word == b"false".as_slice() {
        return Value::Bool(false);
    }
    Value::Id(symbol_of(names, word))
}

/// A literal or an identifier of one base token.
fn literal(value: Value) -> Option<Found>
    ensures { result ≡ Some (record { kind = RuleKind.Literal value; size = 1 }) }
{
    Some(Found {
        kind: RuleKind::Literal(value),
        size: 1,
    })
}

/// A base token as a literal or an identifier.
pub(crate) fn literal_as(
    alloc: Global,
    names: &Names,
    text: &[u8],
    token: Token,
) -> Result<Option<Found>, Memory>
    requires stands { Stands text.now token }
    requires numbered { IsNumbered text.now names.now token }
    ensures { IfOk result (λ found. found ≡ a_literal token.kind names.now text.now token) }
{
    let bytes = bytes_of(text, token);
    match token.kind {
        Kind::Word => Ok(literal(value_of(names, token, bytes))),
        Kind::Int => Ok(literal(Value::Int(number(bytes)))),
        Kind::Str => Ok(literal(Value::Str(text_of_string(alloc, bytes)?))),
        Kind::Mark => Ok(None),
    }
}
