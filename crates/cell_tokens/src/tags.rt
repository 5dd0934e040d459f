//! The attributes of an opening tag.
ghost use Rattle.std.specs.Prelude.{◌≡◌, ◌≤◌, ◌<◌, ◌+◌, ◌^◌, ◌&&◌, ◌||◌, ◌==◌, length, slice_index, IfSome};
ghost use Rattle.std.specs.List.{list_all};
ghost use Rattle.k_lexer.specs.Before.{Stands, AllStand};
ghost use Rattle.k_lexer.specs.Characters.{is_blank as blank};
ghost use Rattle.production_reader.specs.Lexemes.{span};
ghost use Rattle.cell_tokens.specs.Tags.{is_string as string_kind, is_mark_at as mark_at, is_multiplicity as multiplicity, is_allowed as allowed, is_name_behind as name_behind, is_attribute as an_attribute, three_first as first_three, attributes as attributes_behind};

use crate::signs::{behind, bytes_of, is_mark, is_word, span_of};
use k_lexer::{Kind, Token};

fn is_string(kind: Kind) -> bool
    ensures { result ≡ string_kind kind }
{
    match kind {
        Kind::Str => true,
        Kind::Word | Kind::Int | Kind::Mark => false,
    }
}

/// Whether this mark stands directly behind a place.
fn is_mark_at(text: &[u8], byte: u8, at: usize, token: Token) -> bool
    ensures { result ≡ mark_at text.now byte at token }
{
    token.start == at && is_mark(text, byte, token)
}

fn is_multiplicity(name: &[u8]) -> bool
    ensures { result ≡ multiplicity name.now }
{
    name == b"multiplicity".as_slice()
}

/// Whether an attribute of this name may have this value.
fn is_allowed(name: &[u8], value: &[u8]) -> bool
    ensures { result ≡ allowed name.now value.now }
{
    name == b"color".as_slice() || (is_multiplicity(name) && value == b"\"*\"".as_slice())
}

fn is_blank(byte: u8) -> bool
    ensures { result ≡ blank byte }
{
    byte == b' ' || byte == b'\t' || byte == b'\n' || byte == b'\r'
}

/// Whether bytes are blanks alone.
fn are_blanks(bytes: &[u8]) -> bool
    ensures { result ≡ list_all blank bytes.now }
{
    for byte in bytes {
        if !is_blank(*byte) {
            return false;
        }
    }
    true
}

/// Whether a word stands behind a place, with blanks alone between.
fn is_name_behind(text: &[u8], at: usize, token: Token) -> bool
    requires { Stands text.now token }
    ensures { result ≡ name_behind text.now at token }
{
    if token.start < at {
        return false;
    }
    if !is_word(token.kind) {
        return false;
    }
    are_blanks(span_of(text, at, token.start))
}

/// Whether these are an attribute behind a place.
fn is_attribute(text: &[u8], at: usize, name: Token, equals: Token, value: Token) -> bool
    requires name { Stands text.now name }
    requires value { Stands text.now value }
    ensures { result ≡ an_attribute text.now at name equals value }
{
    if !is_name_behind(text, at, name) {
        return false;
    }
    if !is_mark_at(text, b'=', name.end, equals) {
        return false;
    }
    if value.start != equals.end {
        return false;
    }
    if !is_string(value.kind) {
        return false;
    }
    is_allowed(bytes_of(text, name), bytes_of(text, value))
}

/// The first three tokens.
fn three_first(tokens: &[Token]) -> Option<(Token, Token, Token)>
    ensures { result ≡ first_three tokens.now }
{
    let Some((first, others)) = tokens.split_first() else {
        return None;
    };
    let Some((second, others)) = others.split_first() else {
        return None;
    };
    let Some((third, _)) = others.split_first() else {
        return None;
    };
    Some((*first, *second, *third))
}

/// Whether a tag whose attributes so far say this, and that has one more of this name, is of a cell that occurs many times.
fn is_many(many: bool, name: &[u8]) -> bool
    ensures { result ≡ (many || multiplicity name.now) }
{
    many || is_multiplicity(name)
}

/// The attributes of a tag and its `>` behind a place, by the base tokens from there on: whether one is `multiplicity="*"`,
/// and of how many base tokens they are.
pub(crate) fn attributes(text: &[u8], start: usize, tokens: &[Token]) -> Option<(bool, usize)>
    requires { AllStand text.now tokens.now }
    ensures found { result ≡ attributes_behind text.now start tokens.now }
    ensures few { IfSome result (λ rest. rest.1 < 2 ^ 63) }
{
    let mut many = false;
    let mut end = start;
    let mut at = 0;
    while at < tokens.len() {
        let Some(token) = tokens.get(at) else {
            return None;
        };
        if is_mark_at(text, b'>', end, *token) {
            return Some((many, at + 1));
        }
        let Some((name, equals, value)) = three_first(behind(tokens, at)) else {
            return None;
        };
        if !is_attribute(text, end, name, equals, value) {
            return None;
        }
        many = is_many(many, bytes_of(text, name));
        end = value.end;
        at += 3;
    }
    None
}
