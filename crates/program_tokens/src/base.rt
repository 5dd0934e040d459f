//! The base tokens of a text, and the numbers of its words.
ghost use Rattle.std.specs.Prelude.{◌≡◌, IfOk, OnOk, OnErr, MatchOption};
ghost use Rattle.std.specs.Str.{IsUtf8};
ghost use Rattle.k_terms.specs.Names.{with_word};
ghost use Rattle.k_lexer.specs.Before.{Stands, AllStand, AreBefore};
ghost use Rattle.k_lexer.specs.Laws.{HasTokens};
ghost use Rattle.k_lexer.specs.Lexing.{IsFault, place as place_of};
ghost use Rattle.program_tokens.specs.Base.{bytes_of as bytes_in, IsBase, with_token, with_tokens, GoesOn};

use k_lexer::{Kind, LexFault, Token, find_fault, tokens_before};
use k_terms::{Memory, Names};
use std::alloc::Global;

/// The base tokens of a text before its fault, where it has one, and the fault's place.
#[derive(Drop)]
pub(crate) struct Base {
    pub(crate) tokens: Vec<Token>,
    pub(crate) fault: Option<usize>,
}

/// The place of a fault.
fn place(fault: LexFault) -> usize
    ensures { result ≡ place_of fault }
{
    match fault {
        LexFault::BadByte { at } => at,
        LexFault::OpenString { at } => at,
        LexFault::OpenComment { at } => at,
        LexFault::Memory => 0,
    }
}

/// The tokens before a place.
fn front(alloc: Global, text: &[u8], at: usize) -> Result<Vec<Token>, Memory>
    ensures { IfOk result (λ tokens. AreBefore text.now at tokens.items) }
{
    match tokens_before(alloc, text, at) {
        Ok(tokens) => Ok(tokens),
        Err(_) => Err(Memory),
    }
}

/// The base tokens of a text.
pub(crate) fn base_of(alloc: Global, text: &[u8]) -> Result<Base, Memory>
    ensures base { IfOk result (λ base. IsBase text.now base.tokens.items base.fault) }
    ensures stand { IfOk result (λ base. AllStand text.now base.tokens.items) }
{
    let Some(fault) = find_fault(text) else {
        let tokens = front(alloc, text, text.len())?;
        return Ok(Base {
            tokens,
            fault: None,
        });
    };
    let at = place(fault);
    let tokens = front(alloc, text, at)?;
    Ok(Base {
        tokens,
        fault: Some(at),
    })
}

/// The bytes of a token.
pub(crate) fn bytes_of(text: &[u8], token: Token) -> &[u8]
    requires { Stands text.now token }
    ensures { result.now ≡ bytes_in text.now token }
{
    &text[token.start..token.end]
}

/// Numbers a word.
fn number_word(alloc: Global, names: &mut Names, bytes: &[u8]) -> Result<(), Memory>
    requires { IsUtf8 bytes.now }
    ensures ok { OnOk result (names.new ≡ with_word names.old bytes.now) }
    ensures err { OnErr result (names.new ≡ names.old) }
{
    let Ok(word) = std::str::from_utf8(bytes) else {
        unreachable!();
    };
    names.number(alloc, word)?;
    Ok(())
}

/// Numbers a token, where it is a word.
fn number_token(alloc: Global, names: &mut Names, text: &[u8], token: Token) -> Result<(), Memory>
    requires { Stands text.now token }
    ensures ok { OnOk result (names.new ≡ with_token text.now names.old token) }
    ensures err { OnErr result (names.new ≡ names.old) }
{
    match token.kind {
        Kind::Word => number_word(alloc, names, bytes_of(text, token)),
        Kind::Int | Kind::Str | Kind::Mark => Ok(()),
    }
}

/// Adds the words among tokens to the names, in their order, on `Err` some of them.
pub fn number_tokens(
    alloc: Global,
    names: &mut Names,
    text: &[u8],
    tokens: &[Token],
) -> Result<(), Memory>
    requires { AllStand text.now tokens.now }
    ensures ok { OnOk result (names.new ≡ with_tokens text.now names.old tokens.now) }
    ensures err { OnErr result (GoesOn names.old names.new) }
{
    for token in tokens {
        number_token(alloc, names, text, *token)?;
    }
    Ok(())
}
