//! The attributes of a production.
ghost use Rattle.std.specs.Prelude.{◌≡◌, ◌+◌, ◌<◌, ◌^◌, ◌≤◌, Bool, false, [], codes, drop, MatchOption, MatchResult, IfSome, length};
ghost use Rattle.std.specs.List.{AllByRecursion};
ghost use Rattle.production_reader.specs.declared.attributes.Key.{Key};
ghost use Rattle.production_reader.specs.Allowed.{IsAttribute, same_text};
ghost use Rattle.production_reader.specs.Attributes.{AreAttributes, NoParenthesis, attr_of, key_word, places_with, signs_of_list, with_attr};
ghost use Rattle.production_reader.specs.Heads.{Begin, Stands, ends_production, heads, is_mark_of, is_word_of};
ghost use Rattle.production_reader.specs.Meaning.{attrs_of};
ghost use Rattle.production_reader.specs.Reading.{IsRead, IsReadAs, Stops};
ghost use Rattle.std.specs.Bool.{OnTrue, OnFalse};
ghost use Rattle.production_reader.specs.Lexemes.{word};
ghost use Rattle.production_reader.specs.Written.Attribute.{NonAssoc};
ghost use Rattle.production_reader.specs.Written.{signs_of_attribute, signs_of_attributes};

use crate::numbers::read_places;
use crate::prod::{Attrs, Strict};
use crate::signs::{is_mark, word_at};
use crate::source::Source;
use crate::stop::Stop;
use k_terms::Numbers;
use std::alloc::Global;

/// An attribute.
#[derive(Debug, Drop)]
pub(crate) enum Attr {
    Left,
    Right,
    NonAssoc,
    Bracket,
    SeqStrict,
    Strict,
    StrictAt(Numbers),
}

/// The word with which an attribute begins.
#[derive(Clone, Copy, Debug)]
pub(crate) enum Key {
    Left,
    Right,
    Non,
    Bracket,
    SeqStrict,
    Strict,
}

fn key_of(word: &[u8]) -> Option<Key>
    ensures { MatchOption result ((key : Key) → key_word key ≡ word.now → ⊥) (λ key. key_word key ≡ word.now) }
{
    if word == b"left".as_slice() {
        return Some(Key::Left);
    }
    if word == b"right".as_slice() {
        return Some(Key::Right);
    }
    if word == b"non".as_slice() {
        return Some(Key::Non);
    }
    if word == b"bracket".as_slice() {
        return Some(Key::Bracket);
    }
    if word == b"seqstrict".as_slice() {
        return Some(Key::SeqStrict);
    }
    if word == b"strict".as_slice() {
        return Some(Key::Strict);
    }
    None
}

fn is_assoc(source: &Source<'_>, at: usize) -> bool
    ensures yes { OnTrue result (Stands (word (codes "assoc")) source.now at × (at + 1 < 2 ^ 64)) }
    ensures no { OnFalse result (heads (is_word_of (λ t. same_text t (codes "assoc"))) (drop at source.now) ≡ false) }
{
    let Some(text) = word_at(source, at) else {
        return false;
    };
    text == b"assoc".as_slice()
}

/// Reads `-` and `assoc` behind `non`, and gives the place after them.
fn read_assoc(source: &Source<'_>, from: usize) -> Result<usize, Stop>
    requires there { Stands (word (codes "non")) source.now from }
    requires within { from ≤ length source.now }
    requires small { from + 1 < 2 ^ 64 }
    ensures { MatchResult result
        (λ next. (b : Bool) → IsRead (IsAttribute b) signs_of_attribute NoParenthesis source.now from NonAssoc next)
        (λ stop. (b : Bool) → Stops (IsAttribute b) signs_of_attribute NoParenthesis source.now from stop) }
{
    let dash = from + 1;
    if !is_mark(source, dash, b'-') {
        return Err(Stop::Expected { at: dash });
    }
    if !is_assoc(source, dash + 1) {
        return Err(Stop::Expected { at: dash + 1 });
    }
    Ok(dash + 1 + 1)
}

/// Reads what may follow `strict`.
fn read_strict(alloc: Global, source: &Source<'_>, from: usize) -> Result<(Attr, usize), Stop>
    requires there { Stands (word (codes "strict")) source.now from }
    requires within { from ≤ length source.now }
    requires small { from + 1 < 2 ^ 64 }
    ensures { MatchResult result
        (λ found. (b : Bool) → IsReadAs (IsAttribute b) signs_of_attribute NoParenthesis attr_of source.now from found.0 found.1)
        (λ stop. (b : Bool) → Stops (IsAttribute b) signs_of_attribute NoParenthesis source.now from stop) }
{
    if !is_mark(source, from + 1, b'(') {
        return Ok((Attr::Strict, from + 1));
    }
    let (numbers, at) = match read_places(alloc, source, from + 1 + 1) {
        Ok(read) => read,
        Err(stop) => return Err(stop),
    };
    if !is_mark(source, at, b')') {
        return Err(Stop::Expected { at });
    }
    Ok((Attr::StrictAt(numbers), at + 1))
}

/// Reads one attribute; `brackets` says whether `bracket` may be one.
fn read_attribute(
    alloc: Global,
    source: &Source<'_>,
    from: usize,
    brackets: bool,
) -> Result<(Attr, usize), Stop>
    requires { from ≤ length source.now }
    ensures { MatchResult result
        (λ found. IsReadAs (IsAttribute brackets) signs_of_attribute NoParenthesis attr_of source.now from found.0 found.1)
        (λ stop. Stops (IsAttribute brackets) signs_of_attribute NoParenthesis source.now from stop) }
{
    let Some(word) = word_at(source, from) else {
        return Err(Stop::Expected { at: from });
    };
    let Some(key) = key_of(word) else {
        return Err(Stop::Expected { at: from });
    };
    match key {
        Key::Left => Ok((Attr::Left, from + 1)),
        Key::Right => Ok((Attr::Right, from + 1)),
        Key::SeqStrict => Ok((Attr::SeqStrict, from + 1)),
        Key::Bracket => {
            if !brackets {
                return Err(Stop::Expected { at: from });
            }
            Ok((Attr::Bracket, from + 1))
        }
        Key::Non => match read_assoc(source, from) {
            Ok(next) => Ok((Attr::NonAssoc, next)),
            Err(stop) => Err(stop),
        },
        Key::Strict => match read_strict(alloc, source, from) {
            Ok(found) => Ok(found),
            Err(stop) => Err(stop),
        },
    }
}

/// Places beside those before; none where memory is wanting.
fn with_places(strict: Strict, numbers: Numbers) -> Option<Strict>
    ensures { IfSome result (λ strict_then. strict_then ≡ places_with strict numbers) }
{
    match strict {
        Strict::No => Some(Strict::Places(numbers)),
        Strict::All => Some(Strict::All),
        Strict::Places(before) => {
            let mut found = before;
            for number in numbers.as_slice() {
                if found.push(*number).is_err() {
                    return None;
                }
            }
            Some(Strict::Places(found))
        }
    }
}

/// One attribute more; none where memory is wanting.
fn add(attrs: Attrs, attr: Attr) -> Option<Attrs>
    ensures { IfSome result (λ more. more ≡ with_attr attrs attr) }
{
    match attr {
        Attr::Left => Some(Attrs {
            left: true,
            ..attrs
        }),
        Attr::Right => Some(Attrs {
            right: true,
            ..attrs
        }),
        Attr::NonAssoc => Some(Attrs {
            non_assoc: true,
            ..attrs
        }),
        Attr::Bracket => Some(Attrs {
            bracket: true,
            ..attrs
        }),
        Attr::SeqStrict => Some(Attrs {
            seqstrict: true,
            ..attrs
        }),
        Attr::Strict => Some(Attrs {
            strict: Strict::All,
            ..attrs
        }),
        Attr::StrictAt(numbers) => {
            let Attrs {
                left,
                right,
                non_assoc,
                bracket,
                strict,
                seqstrict,
            } = attrs;
            let Some(strict) = with_places(strict, numbers) else {
                return None;
            };
            Some(Attrs {
                left,
                right,
                non_assoc,
                bracket,
                strict,
                seqstrict,
            })
        }
    }
}

/// No attributes.
pub(crate) fn no_attrs() -> Attrs
    ensures { result ≡ attrs_of [] }
{
    Attrs {
        left: false,
        right: false,
        non_assoc: false,
        bracket: false,
        strict: Strict::No,
        seqstrict: false,
    }
}

/// Reads one attribute or more, with commas between.
fn read_list(
    alloc: Global,
    source: &Source<'_>,
    from: usize,
    brackets: bool,
) -> Result<(Attrs, usize), Stop>
    requires { from ≤ length source.now }
    ensures { MatchResult result
        (λ found. IsReadAs (AreAttributes brackets) signs_of_list (Begin (is_mark_of 93)) attrs_of source.now from found.0 found.1)
        (λ stop. Stops (AreAttributes brackets) signs_of_list (Begin (is_mark_of 93)) source.now from stop) }
{
    let mut attrs = no_attrs();
    let mut at = from;
    'attributes: loop {
        let (attr, next) = match read_attribute(alloc, source, at, brackets) {
            Ok(read) => read,
            Err(stop) => return Err(stop),
        };
        let Some(more) = add(attrs, attr) else {
            return Err(Stop::Memory);
        };
        if !is_mark(source, next, b',') {
            return Ok((more, next));
        }
        attrs = more;
        at = next + 1;
    }
}

/// Reads the attributes in brackets, where a bracket stands.
pub(crate) fn read_attributes(
    alloc: Global,
    source: &Source<'_>,
    from: usize,
    brackets: bool,
) -> Result<(Attrs, usize), Stop>
    requires { from ≤ length source.now }
    ensures { MatchResult result
        (λ found. IsReadAs (AllByRecursion (IsAttribute brackets)) signs_of_attributes (Begin ends_production) attrs_of source.now from found.0 found.1)
        (λ stop. Stops (AllByRecursion (IsAttribute brackets)) signs_of_attributes (Begin ends_production) source.now from stop) }
{
    if !is_mark(source, from, b'[') {
        return Ok((no_attrs(), from));
    }
    let (attrs, at) = match read_list(alloc, source, from + 1, brackets) {
        Ok(read) => read,
        Err(stop) => return Err(stop),
    };
    if !is_mark(source, at, b']') {
        return Err(Stop::Expected { at });
    }
    Ok((attrs, at + 1))
}
