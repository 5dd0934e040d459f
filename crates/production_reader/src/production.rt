//! One production.
ghost use Rattle.std.specs.Prelude.{◌≡◌, ◌+◌, ◌<◌, ◌≤◌, ◌^◌, IsTrue, MatchResult, drop, false, length};
ghost use Rattle.production_reader.specs.Heads.{Begin, Stands, ends_production, heads, is_any_word};
ghost use Rattle.production_reader.specs.Lexemes.{word as word_sign};
ghost use Rattle.production_reader.specs.Meaning.{prod_of};
ghost use Rattle.production_reader.specs.Next.{Goes, IsFree, IsNext, IsSub, begins_list as opens_list};
ghost use Rattle.production_reader.specs.Reading.{IsReadAs, Stops};
ghost use Rattle.production_reader.specs.Written.{signs_of_production};

use crate::attributes::no_attrs;
use crate::items::read_rest;
use crate::lists::{one_sort, read_user_list};
use crate::prefixes::{read_call, read_sort};
use crate::prod::{Form, Item, Prod};
use crate::signs::{is_mark, text_at, word_at};
use crate::source::Source;
use crate::stop::Stop;
use crate::strings::{is_item_sort, is_reserved, is_terminal, text_of, text_of_string};
use std::alloc::Global;

/// Reads a production of KResult: a sort alone.
fn read_subsort(alloc: Global, source: &Source<'_>, from: usize) -> Result<(Prod, usize), Stop>
    requires { from ≤ length source.now }
    ensures { MatchResult result
        (λ found. IsReadAs IsSub signs_of_production (Begin ends_production) prod_of source.now from found.0 found.1)
        (λ stop. Stops IsSub signs_of_production (Begin ends_production) source.now from stop) }
{
    let (sort, next) = match read_sort(alloc, source, from) {
        Ok(read) => read,
        Err(stop) => return Err(stop),
    };
    let Some(items) = one_sort(alloc, sort) else {
        return Err(Stop::Memory);
    };
    let production = Prod {
        items,
        attrs: no_attrs(),
        form: Form::Plain,
    };
    Ok((production, next))
}

/// Whether a list production begins with this word, behind which `at` is.
fn begins_list(source: &Source<'_>, at: usize, word: &[u8], had: Option<bool>) -> bool
    ensures is { result ≡ opens_list had word.now source.now at }
    ensures small { IsTrue result → at + 1 < 2 ^ 64 }
{
    if had.is_some() {
        return false;
    }
    if word != b"List".as_slice() {
        return false;
    }
    is_mark(source, at, b'{')
}

/// Reads a production that begins with this word.
fn read_by_word(
    alloc: Global,
    source: &Source<'_>,
    from: usize,
    word: &[u8],
    had: Option<bool>,
) -> Result<(Prod, usize), Stop>
    requires within { from ≤ length source.now }
    requires there { Stands (word_sign word.now) source.now from }
    requires small { from + 1 < 2 ^ 64 }
    requires goes { Goes had }
    ensures { MatchResult result
        (λ found. IsReadAs (IsFree had) signs_of_production (Begin ends_production) prod_of source.now from found.0 found.1)
        (λ stop. Stops (IsFree had) signs_of_production (Begin ends_production) source.now from stop) }
{
    if is_reserved(word) {
        return Err(Stop::Expected { at: from });
    }
    if is_mark(source, from + 1, b'(') {
        return match read_call(alloc, source, from + 1 + 1, word) {
            Ok(found) => Ok(found),
            Err(stop) => Err(stop),
        };
    }
    if begins_list(source, from + 1, word, had) {
        return match read_user_list(alloc, source, from + 1 + 1) {
            Ok(found) => Ok(found),
            Err(stop) => Err(stop),
        };
    }
    if !is_item_sort(word) {
        return Err(Stop::Expected { at: from + 1 });
    }
    let Some(sort) = text_of(alloc, word) else {
        return Err(Stop::Memory);
    };
    match read_rest(alloc, source, from + 1, Item::Sort(sort)) {
        Ok(found) => Ok(found),
        Err(stop) => Err(stop),
    }
}

/// Reads a production that begins with no word.
fn read_by_text(
    alloc: Global,
    source: &Source<'_>,
    from: usize,
    had: Option<bool>,
) -> Result<(Prod, usize), Stop>
    requires within { from ≤ length source.now }
    requires no_word { heads is_any_word (drop from source.now) ≡ false }
    requires goes { Goes had }
    ensures { MatchResult result
        (λ found. IsReadAs (IsFree had) signs_of_production (Begin ends_production) prod_of source.now from found.0 found.1)
        (λ stop. Stops (IsFree had) signs_of_production (Begin ends_production) source.now from stop) }
{
    let Some(string) = text_at(source, from) else {
        return Err(Stop::Expected { at: from });
    };
    let Some(text) = text_of_string(alloc, string) else {
        return Err(Stop::Memory);
    };
    if !is_terminal(text.as_slice()) {
        return Err(Stop::Expected { at: from });
    }
    match read_rest(alloc, source, from + 1, Item::Terminal(text)) {
        Ok(found) => Ok(found),
        Err(stop) => Err(stop),
    }
}

/// Reads the next production of a sort.
pub(crate) fn read_production(
    alloc: Global,
    source: &Source<'_>,
    from: usize,
    sort: &[u8],
    had: Option<bool>,
) -> Result<(Prod, usize), Stop>
    requires within { from ≤ length source.now }
    requires goes { Goes had }
    ensures { MatchResult result
        (λ found. IsReadAs (IsNext sort.now had) signs_of_production (Begin ends_production) prod_of source.now from found.0 found.1)
        (λ stop. Stops (IsNext sort.now had) signs_of_production (Begin ends_production) source.now from stop) }
{
    if sort == b"KResult".as_slice() {
        return match read_subsort(alloc, source, from) {
            Ok(found) => Ok(found),
            Err(stop) => Err(stop),
        };
    }
    if let Some(word) = word_at(source, from) {
        return match read_by_word(alloc, source, from, word, had) {
            Ok(found) => Ok(found),
            Err(stop) => Err(stop),
        };
    }
    match read_by_text(alloc, source, from, had) {
        Ok(found) => Ok(found),
        Err(stop) => Err(stop),
    }
}
