//! The tokens of a whole text.
ghost use Rattle.std.specs.Prelude.{◌≡◌, ◌+◌, ◌^◌, ◌<◌, ◌≤◌, ◌++◌, List, length, slice_index, IfOk, IfErr, MatchOption, MatchResult, false, ◌⊎◌};
ghost use Rattle.std.specs.Str.{IsUtf8, IsValidUpTo};
ghost use Rattle.k_lexer.specs.declared.token.Token.{Token};
ghost use Rattle.k_lexer.specs.declared.fault.LexFault.{LexFault};
ghost use Rattle.k_lexer.specs.declared.fault.LexFault.TheVariants.{Memory};
ghost use Rattle.k_lexer.specs.Characters.{is_blank as blank};
ghost use Rattle.k_lexer.specs.Tokens.{opens_comment};
ghost use Rattle.k_lexer.specs.Fronts.{IsTaken, made};
ghost use Rattle.k_lexer.specs.Laws.{IsReached, HasTokens};
ghost use Rattle.k_lexer.specs.Before.{AreBefore};
ghost use Rattle.k_lexer.specs.Lexing.{Reaches, AreTokens, Stops, IsStop, IsFault, place as place_of};

use crate::fault::LexFault;
use crate::front::{
    block_comment_size, first_char, is_blank, is_block_comment, is_line_comment, kind_of,
    line_comment_size, tail_size,
};
use crate::token::{Kind, Token};
use std::alloc::Global;

/// What is taken from the front of a text: a token of a kind, or a blank or a comment, and its number of bytes.
#[derive(Clone, Copy, Debug)]
struct Piece {
    kind: Option<Kind>,
    size: usize,
}

/// The longest token at the front of a text that begins with no blank and no comment.
fn next_token(rest: &[u8], at: usize) -> Result<Piece, LexFault>
    requires some { 0 < length rest.now }
    requires no_blank { blank (slice_index rest.now 0) ≡ false }
    requires no_comment { opens_comment rest.now ≡ false }
    ensures { MatchResult result (λ piece. IsTaken rest.now piece.kind piece.size × (0 < piece.size) × (piece.size ≤ length rest.now))
        (λ fault. Stops rest.now fault × (place_of fault ≡ at)) }
{
    let Some((first, width)) = first_char(rest) else {
        return Err(LexFault::BadByte { at });
    };
    let Some(kind) = kind_of(first) else {
        return Err(LexFault::BadByte { at });
    };
    let (_, tail) = rest.split_at(width);
    let Some(size) = tail_size(kind, tail) else {
        return Err(LexFault::OpenString { at });
    };
    Ok(Piece {
        kind: Some(kind),
        size: width + size,
    })
}

/// What is taken from the front of a text that isn't empty.
fn next_piece(rest: &[u8], at: usize) -> Result<Piece, LexFault>
    requires { 0 < length rest.now }
    ensures { MatchResult result (λ piece. IsTaken rest.now piece.kind piece.size × (0 < piece.size) × (piece.size ≤ length rest.now))
        (λ fault. Stops rest.now fault × (place_of fault ≡ at)) }
{
    if is_blank(rest) {
        return Ok(Piece {
            kind: None,
            size: 1,
        });
    }
    if is_line_comment(rest) {
        return Ok(Piece {
            kind: None,
            size: line_comment_size(rest),
        });
    }
    if is_block_comment(rest) {
        let Some(size) = block_comment_size(rest) else {
            return Err(LexFault::OpenComment { at });
        };
        return Ok(Piece { kind: None, size });
    }
    next_token(rest, at)
}

/// Adds the token that a piece is, if it is one.
fn add_token(found: &mut Vec<Token>, piece: Piece, at: usize) -> Result<(), LexFault>
    requires { at + piece.size < 2 ^ 63 }
    ensures added { IfOk result (λ _. found.new.items ≡ found.old.items ++ made piece.kind at piece.size) }
    ensures fault { IfErr result (λ fault. fault ≡ Memory) }
{
    let Some(kind) = piece.kind else {
        return Ok(());
    };
    let token = Token {
        kind,
        start: at,
        end: at + piece.size,
    };
    if found.push(token).is_err() {
        return Err(LexFault::Memory);
    }
    Ok(())
}

/// The tokens up to the end of the text, or where nothing can be taken. Comments may hold any bytes.
fn scan(alloc: Global, text: &[u8]) -> Result<Vec<Token>, LexFault>
    ensures { MatchResult result (λ found. Reaches text.now found.items (length text.now))
        (λ fault. (fault ≡ Memory) ⊎ IsStop text.now fault) }
{
    let mut found = Vec::new(alloc);
    let mut at = 0;
    while at < text.len() {
        let (_, rest) = text.split_at(at);
        let piece = match next_piece(rest, at) {
            Ok(piece) => piece,
            Err(fault) => return Err(fault),
        };
        if let Err(fault) = add_token(&mut found, piece, at) {
            return Err(fault);
        }
        at += piece.size;
    }
    Ok(found)
}

/// The place of the first byte that is no UTF-8.
fn bad_place(text: &[u8]) -> Option<usize>
    ensures { MatchOption result (IsUtf8 text.now) (λ at. IsValidUpTo text.now at) }
{
    match std::str::from_utf8(text) {
        Ok(_) => None,
        Err(error) => Some(error.valid_up_to()),
    }
}

/// The place of a fault, and 0 of want of memory.
fn place(fault: LexFault) -> usize
    ensures { result ≡ place_of fault }
{
    match fault {
        LexFault::BadByte { at } => at,
        LexFault::OpenString { at } => at,
        LexFault::OpenComment { at } => at,
        LexFault::Memory => 0,
    }
}

/// The tokens of a text, or its fault: of several the one with the least place. Want of memory may come in place of
/// either.
pub fn tokens(alloc: Global, text: &[u8]) -> Result<Vec<Token>, LexFault>
    ensures ok { IfOk result (λ found. AreTokens text.now found.items) }
    ensures fault { IfErr result (λ fault. (fault ≡ Memory) ⊎ IsFault text.now fault) }
    ensures exact { (found : List Token) → AreTokens text.now found → MatchResult result (λ it. it.items ≡ found) (λ fault. fault ≡ Memory) }
    ensures exact_fault { (fault : LexFault) → IsFault text.now fault
        → MatchResult result (λ it. ⊥) (λ other. (other ≡ Memory) ⊎ (other ≡ fault)) }
{
    let bad = bad_place(text);
    let scanned = scan(alloc, text);
    let Some(at) = bad else {
        return scanned;
    };
    let Err(fault) = scanned else {
        return Err(LexFault::BadByte { at });
    };
    if place(fault) < at {
        return Err(fault);
    }
    Err(LexFault::BadByte { at })
}

/// What stops at the place where nothing can be taken, if there is one before the end.
fn find_stop(text: &[u8]) -> Option<LexFault>
    ensures { MatchOption result (IsReached text.now (length text.now)) (λ fault. IsStop text.now fault) }
{
    let mut at = 0;
    while at < text.len() {
        let (_, rest) = text.split_at(at);
        match next_piece(rest, at) {
            Ok(piece) => at += piece.size,
            Err(fault) => return Some(fault),
        }
    }
    None
}

/// The fault of a text, or `None` where the text has tokens. No memory is wanted, so each text has tokens or a fault.
pub fn find_fault(text: &[u8]) -> Option<LexFault>
    ensures { MatchOption result (HasTokens text.now) (λ fault. IsFault text.now fault) }
{
    let bad = bad_place(text);
    let stop = find_stop(text);
    let Some(at) = bad else {
        return stop;
    };
    let Some(fault) = stop else {
        return Some(LexFault::BadByte { at });
    };
    if place(fault) < at {
        return Some(fault);
    }
    Some(LexFault::BadByte { at })
}

/// The tokens before a place: the longest list of those that lead to a place not past it. For a text with tokens these are
/// all at its end, and for a text with a fault those before the fault at the fault's place.
pub fn tokens_before(alloc: Global, text: &[u8], at: usize) -> Result<Vec<Token>, LexFault>
    ensures ok { IfOk result (λ found. AreBefore text.now at found.items) }
    ensures fault { IfErr result (λ fault. fault ≡ Memory) }
{
    let mut found = Vec::new(alloc);
    let mut from = 0;
    while from < text.len() {
        let (_, rest) = text.split_at(from);
        let piece = match next_piece(rest, from) {
            Ok(piece) => piece,
            Err(_) => return Ok(found),
        };
        if at - from < piece.size {
            return Ok(found);
        }
        if let Err(fault) = add_token(&mut found, piece, from) {
            return Err(fault);
        }
        from += piece.size;
    }
    Ok(found)
}
