//! What can stand at a place of a configuration, beside terminals.
ghost use Rattle.std.specs.Prelude.{◌≡◌, ◌≤◌, ◌^◌, ◌&&◌, ◌∷◌, [], length, drop, IfOk};
ghost use Rattle.k_lexer.specs.Before.{Stands, AllStand};
ghost use Rattle.production_reader.specs.Allowed.{same_text};
ghost use Rattle.cell_tokens.specs.Signs.{fits as fit, bytes_at as bytes_in_place};
ghost use Rattle.cell_tokens.specs.Forms.{in_place, signs_at as at_signs, symbol_at as at_symbol, open_at as at_open, close_at as at_close, program_at as at_program, input_at as at_input, empty_sort as sort_of_empty, empty_at as at_empty, list_item_at as at_list_item, longer as longer_of};

use crate::signs::{Sign, behind, bytes_at, end_at, fits};
use crate::tags::attributes;
use crate::token::{CellKind, CellToken};
use grammar_terms::Grammar;
use k_lexer::Token;
use k_terms::{Memory, Text, sort};
use std::alloc::Global;

/// The longer of two, and the first where they are as long.
pub(crate) fn longer(one: Option<CellToken>, other: Option<CellToken>) -> Option<CellToken>
    ensures { result ≡ longer_of one other }
{
    let Some(first) = one else {
        return other;
    };
    let Some(second) = other else {
        return Some(first);
    };
    if first.size < second.size {
        return Some(second);
    }
    Some(first)
}

/// Adjacent base tokens as this token, where they are of these signs.
fn signs_at(
    text: &[u8],
    signs: &[Sign],
    kind: CellKind,
    at: usize,
    tokens: &[Token],
) -> Option<CellToken>
    ensures { result ≡ at_signs text.now signs.now kind at tokens.now }
{
    if !fits(text, signs, at, tokens) {
        return None;
    }
    Some(CellToken {
        kind,
        size: signs.len(),
    })
}

/// `~>`, `|->`, `.`, `(` or `)`, the longest of them that stands here.
pub(crate) fn symbol_at(text: &[u8], at: usize, tokens: &[Token]) -> Option<CellToken>
    ensures { result ≡ at_symbol text.now at tokens.now }
{
    let right = signs_at(
        text,
        &[Sign::Mark(b')')],
        CellKind::RightBracket,
        at,
        tokens,
    );
    let left = signs_at(text, &[Sign::Mark(b'(')], CellKind::LeftBracket, at, tokens);
    let dot = signs_at(text, &[Sign::Mark(b'.')], CellKind::Dot(None), at, tokens);
    let maps_to = signs_at(
        text,
        &[Sign::Mark(b'|'), Sign::Mark(b'-'), Sign::Mark(b'>')],
        CellKind::MapsTo,
        at,
        tokens,
    );
    let then = signs_at(
        text,
        &[Sign::Mark(b'~'), Sign::Mark(b'>')],
        CellKind::Then,
        at,
        tokens,
    );
    longer(then, longer(maps_to, longer(dot, longer(left, right))))
}

/// An opening tag, with attributes or not.
pub(crate) fn open_at(
    alloc: Global,
    text: &[u8],
    at: usize,
    tokens: &[Token],
) -> Result<Option<CellToken>, Memory>
    requires { AllStand text.now tokens.now }
    ensures { IfOk result (λ found. found ≡ at_open text.now at tokens.now) }
{
    if !fits(text, &[Sign::Mark(b'<'), Sign::Word], at, tokens) {
        return Ok(None);
    }
    let Some((many, size)) = attributes(text, end_at(tokens, 1), behind(tokens, 2)) else {
        return Ok(None);
    };
    let name = Text::from_vec(Vec::from_slice(alloc, bytes_at(text, tokens, 1))?);
    Ok(Some(CellToken {
        kind: CellKind::Open { name, many },
        size: 2 + size,
    }))
}

/// A closing tag.
pub(crate) fn close_at(
    alloc: Global,
    text: &[u8],
    at: usize,
    tokens: &[Token],
) -> Result<Option<CellToken>, Memory>
    requires { AllStand text.now tokens.now }
    ensures { IfOk result (λ found. found ≡ at_close text.now at tokens.now) }
{
    let signs = [
        Sign::Mark(b'<'),
        Sign::Mark(b'/'),
        Sign::Word,
        Sign::Mark(b'>'),
    ];
    if !fits(text, &signs, at, tokens) {
        return Ok(None);
    }
    let name = Text::from_vec(Vec::from_slice(alloc, bytes_at(text, tokens, 2))?);
    Ok(Some(CellToken {
        kind: CellKind::Close { name },
        size: 4,
    }))
}

/// Whether `$`, this word, `:` and a word stand here.
fn is_in_place(text: &[u8], word: &[u8], at: usize, tokens: &[Token]) -> bool
    requires { AllStand text.now tokens.now }
    ensures { result ≡ (fit text.now in_place at tokens.now && same_text (bytes_in_place text.now tokens.now 1) word.now) }
{
    let signs = [Sign::Mark(b'$'), Sign::Word, Sign::Mark(b':'), Sign::Word];
    if !fits(text, &signs, at, tokens) {
        return false;
    }
    bytes_at(text, tokens, 1) == word
}

/// `$PGM:S` with a sort S.
pub(crate) fn program_at(
    grammar: &Grammar,
    text: &[u8],
    at: usize,
    tokens: &[Token],
) -> Option<CellToken>
    requires { AllStand text.now tokens.now }
    ensures { result ≡ at_program grammar.now.names text.now at tokens.now }
{
    if !is_in_place(text, b"PGM".as_slice(), at, tokens) {
        return None;
    }
    let Some(sort) = grammar.sort_of_bytes(bytes_at(text, tokens, 3)) else {
        return None;
    };
    Some(CellToken {
        kind: CellKind::Program(sort),
        size: 4,
    })
}

/// `$IN:List`.
pub(crate) fn input_at(text: &[u8], at: usize, tokens: &[Token]) -> Option<CellToken>
    requires { AllStand text.now tokens.now }
    ensures { result ≡ at_input text.now at tokens.now }
{
    if !is_in_place(text, b"IN".as_slice(), at, tokens) {
        return None;
    }
    if bytes_at(text, tokens, 3) != b"List".as_slice() {
        return None;
    }
    Some(CellToken {
        kind: CellKind::Input,
        size: 4,
    })
}

/// The sort of which an empty content is written with this word.
fn empty_sort(word: &[u8]) -> Option<u32>
    ensures { result ≡ sort_of_empty word.now }
{
    if word == b"K".as_slice() {
        return Some(sort::K);
    }
    if word == b"Map".as_slice() {
        return Some(sort::MAP);
    }
    if word == b"List".as_slice() {
        return Some(sort::LIST);
    }
    None
}

/// `.K`, `.Map` or `.List`.
pub(crate) fn empty_at(text: &[u8], at: usize, tokens: &[Token]) -> Option<CellToken>
    requires { AllStand text.now tokens.now }
    ensures { result ≡ at_empty text.now at tokens.now }
{
    if !fits(text, &[Sign::Mark(b'.'), Sign::Word], at, tokens) {
        return None;
    }
    let Some(sort) = empty_sort(bytes_at(text, tokens, 1)) else {
        return None;
    };
    Some(CellToken {
        kind: CellKind::Dot(Some(sort)),
        size: 2,
    })
}

/// `ListItem`.
pub(crate) fn list_item_at(text: &[u8], at: usize, tokens: &[Token]) -> Option<CellToken>
    requires { AllStand text.now tokens.now }
    ensures { result ≡ at_list_item text.now at tokens.now }
{
    if !fits(text, &[Sign::Word], at, tokens) {
        return None;
    }
    if bytes_at(text, tokens, 0) != b"ListItem".as_slice() {
        return None;
    }
    Some(CellToken {
        kind: CellKind::ListItem,
        size: 1,
    })
}
