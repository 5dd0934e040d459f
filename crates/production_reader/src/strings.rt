//! The words and strings of productions.
ghost use Rattle.std.specs.Prelude.{◌≡◌, ◌==◌, if◌then◌else◌, ◌↔◌, ◌<◌, [], ◌∷◌, IsTrue, IfSome, MatchOption, length, slice_index};
ghost use Rattle.std.specs.List.{list_any, list_all};
ghost use Rattle.k_lexer.specs.Characters.{is_mark as mark};
ghost use Rattle.k_lexer.specs.Tokens.{opens_comment as opens};
ghost use Rattle.production_reader.specs.Allowed.{same_text, is_among as among, reserved, is_sort as sort, is_item_sort as item_sort, has_comment as comment, AreMarks, IsTerminal, unescaped, text_of_string as meant};

use k_lexer::{is_mark, is_word};
use k_terms::Text;
use std::alloc::Global;

/// Whether a text is one of these.
fn is_among(texts: &[&str], text: &[u8]) -> bool
    ensures { result ≡ list_any (λ t. same_text text.now t.now) texts.now }
{
    texts.iter().any(|other| text == other.as_bytes())
}

/// Whether a text is a word of the files, which no terminal may be.
pub(crate) fn is_reserved(text: &[u8]) -> bool
    ensures { result ≡ among reserved text.now }
{
    is_among(
        &[
            "module",
            "endmodule",
            "imports",
            "syntax",
            "configuration",
            "rule",
            "when",
            "requires",
            "true",
            "false",
            "=>",
            "~>",
            "|->",
            "...",
        ],
        text,
    )
}

fn is_sort(text: &[u8]) -> bool
    ensures { result ≡ sort text.now }
{
    match text.first() {
        Some(byte) => b'A' <= *byte && *byte <= b'Z',
        None => false,
    }
}

/// Whether a word is a sort that may stand in a production.
pub(crate) fn is_item_sort(text: &[u8]) -> bool
    ensures { result ≡ item_sort text.now }
{
    is_sort(text) && text != b"Bag".as_slice()
}

/// The byte at a place, and 0 past the end.
fn byte_at(text: &[u8], at: usize) -> u8
    ensures { result ≡ slice_index text.now at }
{
    match text.get(at) {
        Some(byte) => *byte,
        None => 0,
    }
}

fn opens_comment(text: &[u8]) -> bool
    ensures { result ≡ opens text.now }
{
    byte_at(text, 0) == b'/' && (byte_at(text, 1) == b'/' || byte_at(text, 1) == b'*')
}

/// Whether a comment begins somewhere.
fn has_comment(text: &[u8]) -> bool
    ensures { result ≡ comment text.now }
{
    for at in 0..text.len() {
        let (_, rest) = text.split_at(at);
        if opens_comment(rest) {
            return true;
        }
    }
    false
}

fn are_all_marks(text: &[u8]) -> bool
    ensures { result ≡ list_all mark text.now }
{
    text.iter().all(|byte| is_mark(*byte))
}

fn are_marks(text: &[u8]) -> bool
    ensures { IsTrue result ↔ AreMarks text.now }
{
    1 <= text.len() && text.len() <= 8 && are_all_marks(text)
}

/// Whether a text may be a terminal.
pub(crate) fn is_terminal(text: &[u8]) -> bool
    ensures { IsTrue result ↔ IsTerminal text.now }
{
    if is_reserved(text) {
        return false;
    }
    if has_comment(text) {
        return false;
    }
    if is_word(text) {
        return true;
    }
    are_marks(text)
}

/// What an escape with this letter stands for.
fn meaning_of(letter: u8) -> u8
    ensures { result ≡ (if letter == 110 then 10 else (if letter == 116 then 9 else letter)) }
{
    match letter {
        b'n' => b'\n',
        b't' => b'\t',
        _ => letter,
    }
}

/// The first byte that a string says from here on, and where it goes on.
fn next_byte(rest: &[u8]) -> Option<(u8, &[u8])>
    ensures { MatchOption result (unescaped rest.now ≡ []) (λ next. (unescaped rest.now ≡ next.0 ∷ unescaped next.1.now) × (length next.1.now < length rest.now)) }
{
    let Some((byte, tail)) = rest.split_first() else {
        return None;
    };
    if *byte == b'"' {
        return None;
    }
    if *byte != b'\\' {
        return Some((*byte, tail));
    }
    let Some((letter, after)) = tail.split_first() else {
        return None;
    };
    Some((meaning_of(*letter), after))
}

/// What a string says that is given with its quotes.
pub(crate) fn text_of_string(alloc: Global, string: &[u8]) -> Option<Text>
    ensures { IfSome result (λ text. text ≡ meant string.now) }
{
    let Some((_, tail)) = string.split_first() else {
        return Some(Text::new(alloc));
    };
    let mut rest = tail;
    let mut found = Text::new(alloc);
    while let Some((byte, after)) = next_byte(rest) {
        if found.push(byte).is_err() {
            return None;
        }
        rest = after;
    }
    Some(found)
}

/// A text of its own with these bytes; none where memory is wanting.
pub(crate) fn text_of(alloc: Global, bytes: &[u8]) -> Option<Text>
    ensures { IfSome result (λ text. text ≡ bytes.now) }
{
    match Vec::from_slice(alloc, bytes) {
        Ok(items) => Some(Text::from_vec(items)),
        Err(_) => None,
    }
}
