//! The places at which the text of a configuration is none.
ghost use Rattle.std.specs.Prelude.{◌≡◌, ◌≤◌, ◌+◌, ◌==◌, ◌&&◌, IfOk, drop, take, length, option_copied, slice_index};
ghost use Rattle.k_lexer.specs.Before.{Stands, AllStand};
ghost use Rattle.program_tokens.specs.Base.{bytes_of as bytes_in};
ghost use Rattle.program_tokens.specs.Words.{is_mark as mark_kind};
ghost use Rattle.cell_tokens.specs.Signs.{is_word as word_kind};
ghost use Rattle.cell_config.specs.Divisions.{between as part_of, base_behind as behind_tokens, is_begun as begins_tag, begun_name as name_begun, cell_at as cell_in, name_in as name_of_cell, begun_in as begun_inside, content_place as place_of_content, stop_place as place_of_stop};

use crate::division::Place;
use cell_forms::{CellForm, Stop};
use cell_tokens::CellToken;
use k_lexer::{Kind, Token};
use k_terms::{Many, Memory, Text, copy_text};
use std::alloc::Global;

/// What stands behind the first items of so many.
fn behind<T>(items: &[T], first: usize) -> &[T]
    ensures { result.now ≡ drop first items.now }
{
    match items.split_at_checked(first) {
        Some((_, rest)) => rest,
        None => &[],
    }
}

/// The first items of so many, or all.
fn first<T>(items: &[T], count: usize) -> &[T]
    ensures { result.now ≡ take count items.now }
{
    match items.split_at_checked(count) {
        Some((part, _)) => part,
        None => items,
    }
}

/// The items from one up to another; as many of them as there are.
pub(crate) fn between<T>(items: &[T], start: usize, past: usize) -> &[T]
    ensures { result.now ≡ part_of items.now start past }
{
    first(behind(items, start), past.saturating_sub(start))
}

/// The items up to one, with it; or all.
fn up_to(tokens: &[CellToken], number: usize) -> &[CellToken]
    ensures { result.now ≡ take (number + 1) tokens.now }
{
    if number < tokens.len() {
        return first(tokens, number + 1);
    }
    tokens
}

/// The base tokens behind tokens.
fn base_behind<'a>(base: &'a [Token], tokens: &[CellToken]) -> &'a [Token]
    ensures { result.now ≡ behind_tokens base.now tokens.now }
{
    let mut rest = base;
    for token in tokens {
        rest = behind(rest, token.size);
    }
    rest
}

fn is_word(token: Token) -> bool
    ensures { result ≡ word_kind token.kind }
{
    match token.kind {
        Kind::Word => true,
        Kind::Int | Kind::Str | Kind::Mark => false,
    }
}

/// The byte at a place, and 0 past the end.
fn byte_at(text: &[u8], at: usize) -> u8
    ensures { result ≡ slice_index text.now at }
{
    match text.get(at) {
        Some(byte) => *byte,
        None => 0,
    }
}

/// Whether a token is `<`.
fn is_less(text: &[u8], token: Token) -> bool
    ensures { result ≡ (mark_kind token.kind && (slice_index text.now token.start == 60)) }
{
    match token.kind {
        Kind::Mark => byte_at(text, token.start) == b'<',
        Kind::Word | Kind::Int | Kind::Str => false,
    }
}

/// Whether two tokens are a `<` and a word directly behind.
fn is_begun(text: &[u8], mark: Token, word: Token) -> bool
    ensures { result ≡ begins_tag text.now mark word }
{
    if !is_less(text, mark) {
        return false;
    }
    if word.start != mark.end {
        return false;
    }
    is_word(word)
}

/// The bytes of a text from one place up to another.
fn span_of(text: &[u8], start: usize, end: usize) -> &[u8]
    requires order { start ≤ end }
    requires within { end ≤ length text.now }
    ensures { result.now ≡ part_of text.now start end }
{
    &text[start..end]
}

/// The text of a token.
fn text_of(alloc: Global, text: &[u8], token: Token) -> Result<Text, Memory>
    requires { Stands text.now token }
    ensures { IfOk result (λ name. name ≡ bytes_in text.now token) }
{
    Ok(Text::from_vec(Vec::from_slice(alloc, span_of(text, token.start, token.end))?))
}

/// The name in an opening tag, whole or not, with which base tokens begin.
fn begun_name(alloc: Global, text: &[u8], base: &[Token]) -> Result<Option<Text>, Memory>
    requires { AllStand text.now base.now }
    ensures { IfOk result (λ name. name ≡ name_begun text.now base.now) }
{
    let [mark, word, ..] = base else {
        return Ok(None);
    };
    if !is_begun(text, *mark, *word) {
        return Ok(None);
    }
    Ok(Some(text_of(alloc, text, *word)?))
}

/// The cell of a number.
fn cell_at(forms: &[CellForm], inside: Option<usize>) -> Option<&CellForm>
    ensures { option_copied result ≡ cell_in forms.now inside }
{
    match inside {
        Some(number) => forms.get(number),
        None => None,
    }
}

/// The name of a cell, empty where there is none.
fn name_in(alloc: Global, forms: &[CellForm], inside: Option<usize>) -> Result<Text, Memory>
    ensures { IfOk result (λ name. name ≡ name_of_cell (cell_in forms.now inside)) }
{
    match cell_at(forms, inside) {
        Some(form) => copy_text(alloc, &form.name),
        None => Ok(Many::new(alloc)),
    }
}

/// The name that is begun where the content of a cell begins.
fn begun_in(
    alloc: Global,
    text: &[u8],
    base: &[Token],
    tokens: &[CellToken],
    forms: &[CellForm],
    inside: Option<usize>,
) -> Result<Option<Text>, Memory>
    requires { AllStand text.now base.now }
    ensures { IfOk result (λ name. name ≡ begun_inside text.now base.now tokens.now (cell_in forms.now inside)) }
{
    match cell_at(forms, inside) {
        Some(form) => begun_name(alloc, text, base_behind(base, up_to(tokens, form.tag))),
        None => Ok(None),
    }
}

/// The place of a content.
pub(crate) fn content_place(
    alloc: Global,
    text: &[u8],
    base: &[Token],
    tokens: &[CellToken],
    forms: &[CellForm],
    inside: Option<usize>,
) -> Result<Place, Memory>
    requires { AllStand text.now base.now }
    ensures { IfOk result (λ place. place ≡ place_of_content text.now base.now tokens.now (cell_in forms.now inside)) }
{
    Ok(Place {
        inside: name_in(alloc, forms, inside)?,
        begun: begun_in(alloc, text, base, tokens, forms, inside)?,
    })
}

/// The place at which cells stop.
pub(crate) fn stop_place(
    alloc: Global,
    text: &[u8],
    base: &[Token],
    tokens: &[CellToken],
    stop: &Stop,
) -> Result<Place, Memory>
    requires { AllStand text.now base.now }
    ensures { IfOk result (λ place. place ≡ place_of_stop text.now base.now tokens.now stop.now) }
{
    let forms = stop.cells.as_slice();
    if !stop.takes_cell {
        return content_place(alloc, text, base, tokens, forms, stop.inside);
    }
    let rest = base_behind(base, first(tokens, stop.at));
    Ok(Place {
        inside: name_in(alloc, forms, stop.inside)?,
        begun: begun_name(alloc, text, rest)?,
    })
}
