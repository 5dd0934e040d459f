//! Words, numbers and strings of a configuration.
ghost use Rattle.std.specs.Prelude.{◌≡◌, true, is_some, IfOk, Some};
ghost use Rattle.std.specs.Str.{IsUtf8};
ghost use Rattle.k_lexer.specs.Before.{Stands};
ghost use Rattle.k_terms.specs.Names.{number_of};
ghost use Rattle.program_tokens.specs.Base.{IsNumbered};
ghost use Rattle.program_tokens.specs.Words.{other_word};
ghost use Rattle.grammar_terms.specs.Values.{literal_of};
ghost use Rattle.cell_tokens.specs.Forms.{number_as as a_number, literal_as as a_literal};

use crate::literals::{number, text_of_string};
use crate::signs::bytes_of;
use crate::token::{CellKind, CellToken};
use k_lexer::{Kind, Token};
use k_terms::{Memory, Names, Symbol, Value};
use std::alloc::Global;

/// The symbol of a word that has a number.
fn symbol_of(names: &Names, word: &[u8]) -> Symbol
    requires utf8 { IsUtf8 word.now }
    requires numbered { is_some (number_of names.now word.now) ≡ true }
    ensures { number_of names.now word.now ≡ Some result.0 }
{
    let Ok(word) = std::str::from_utf8(word) else {
        unreachable!();
    };
    let Some(symbol) = names.find(word) else {
        unreachable!();
    };
    symbol
}

/// A truth, or an identifier by its symbol.
fn value_of(names: &Names, token: Token, word: &[u8]) -> Value
    requires utf8 { IsUtf8 word.now }
    requires numbered { is_some (number_of names.now word.now) ≡ true }
    ensures { result ≡ literal_of (other_word names.now token word.now).kind }
{
    if word == b"true".as_slice() {
        return Value::Bool(true);
    }
    if word == b"false".as_slice() {
        return Value::Bool(false);
    }
    Value::Id(symbol_of(names, word))
}

/// A literal or an identifier of one base token.
fn literal(value: Value) -> Option<CellToken>
    ensures { result ≡ Some (record { kind = CellKind.Literal value; size = 1 }) }
{
    Some(CellToken {
        kind: CellKind::Literal(value),
        size: 1,
    })
}

/// A number that is not above the greatest.
fn number_as(digits: &[u8]) -> Option<CellToken>
    ensures { result ≡ a_number digits.now }
{
    let Some(number) = number(digits) else {
        return None;
    };
    literal(Value::Int(number))
}

/// A base token as a literal or an identifier.
pub(crate) fn literal_as(
    alloc: Global,
    names: &Names,
    text: &[u8],
    token: Token,
) -> Result<Option<CellToken>, Memory>
    requires stands { Stands text.now token }
    requires numbered { IsNumbered text.now names.now token }
    ensures { IfOk result (λ found. found ≡ a_literal token.kind names.now text.now token) }
{
    let bytes = bytes_of(text, token);
    match token.kind {
        Kind::Word => Ok(literal(value_of(names, token, bytes))),
        Kind::Int => Ok(number_as(bytes)),
        Kind::Str => Ok(literal(Value::Str(text_of_string(alloc, bytes)?))),
        Kind::Mark => Ok(None),
    }
}
