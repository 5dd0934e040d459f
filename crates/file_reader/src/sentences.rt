//! The sentences of modules.
ghost use Rattle.std.specs.Prelude.{◌≡◌, ◌↔◌, ◌≤◌, ℕ, List, IsTrue, length, drop, codes, MatchResult, OnOk};
ghost use Rattle.production_reader.specs.Lexemes.{word};
ghost use Rattle.production_reader.specs.Written.{Production};
ghost use Rattle.production_reader.specs.Allowed.{EndsSentence, AreGroups, in_groups, had_after};
ghost use Rattle.production_reader.specs.Meaning.{groups_of};
ghost use Rattle.production_reader.specs.Reading.{Stops};
ghost use Rattle.file_reader.specs.Heads.{Begins};
ghost use Rattle.file_reader.specs.Written.{signs_of_sentence};
ghost use Rattle.file_reader.specs.Files.{IsSentence, IsDeclared, had, noted};
ghost use Rattle.file_reader.specs.Meaning.{start_of};
ghost use Rattle.file_reader.specs.Reads.{IsSentenceRead};

use crate::names::read_name;
use crate::passages::{counted_past, is_among, read_text};
use crate::read::Read;
use crate::sentence::Sentence;
use crate::sorts::Sorts;
use crate::words::{has_word, past, word_at};
use k_lexer::Token;
use k_terms::{Many, Memory};
use production_reader::{Form, Prod, Source, Stop, read_groups};
use std::alloc::Global;

/// Whether a word is a sort that a file may declare.
fn is_declared(word: &[u8]) -> bool
    ensures { IsTrue result ↔ IsDeclared word.now }
{
    let capital = match word.first() {
        Some(first) => first.is_ascii_uppercase(),
        None => false,
    };
    if !capital {
        return false;
    }
    !is_among(
        &[
            "K", "KItem", "Int", "Bool", "String", "Id", "Map", "List", "Bag",
        ],
        word,
    )
}

/// What a sort has after these groups: what it had, or by their first production, since a list production stands alone.
fn standing(had: Option<bool>, groups: &Many<Many<Prod>>) -> Option<bool>
    ensures { (sort : List ℕ) (written : List (List Production)) → AreGroups sort had written → groups.now ≡ groups_of written
        → result ≡ had_after had (in_groups written) }
{
    let Some(group) = groups.get(0) else {
        return had;
    };
    let Some(first) = group.get(0) else {
        return had;
    };
    match &first.form {
        Form::UserList { .. } => Some(true),
        _ => Some(false),
    }
}

/// The place of the first byte of a token.
fn start_at(tokens: &[Token], at: usize) -> usize
    ensures { result ≡ start_of tokens.now at }
{
    match tokens.get(at).copied() {
        Some(token) => token.start,
        None => 0,
    }
}

/// Reads the import that begins at a place.
fn read_import(
    alloc: Global,
    source: &Source<'_>,
    tokens: &[Token],
    from: usize,
    sorts: &Sorts,
) -> Result<(Read, usize), Stop>
    requires { Begins (word (codes "imports")) (drop from source.now) }
    ensures { MatchResult result (λ found. IsSentenceRead tokens.now source.now from sorts.now sorts.now found.0 found.1)
        (λ stop. Stops (IsSentence sorts.now) signs_of_sentence EndsSentence source.now from stop) }
{
    match read_name(alloc, source, past(source, from)) {
        Ok((name, next)) => Ok((Read::Import(name), next)),
        Err(stop) => Err(stop),
    }
}

/// Reads the configuration that begins at a place.
fn read_configuration(
    source: &Source<'_>,
    tokens: &[Token],
    from: usize,
    sorts: &Sorts,
) -> Result<(Read, usize), Stop>
    requires { Begins (word (codes "configuration")) (drop from source.now) }
    ensures { MatchResult result (λ found. IsSentenceRead tokens.now source.now from sorts.now sorts.now found.0 found.1)
        (λ stop. Stops (IsSentence sorts.now) signs_of_sentence EndsSentence source.now from stop) }
{
    let first = past(source, from);
    match read_text(source, first) {
        Ok(past) => Ok((Read::Other(Sentence::Config { first, past }), past)),
        Err(stop) => Err(stop),
    }
}

/// Reads the rule that begins at a place.
fn read_rule(
    source: &Source<'_>,
    tokens: &[Token],
    from: usize,
    sorts: &Sorts,
) -> Result<(Read, usize), Stop>
    requires { Begins (word (codes "rule")) (drop from source.now) }
    ensures { MatchResult result (λ found. IsSentenceRead tokens.now source.now from sorts.now sorts.now found.0 found.1)
        (λ stop. Stops (IsSentence sorts.now) signs_of_sentence EndsSentence source.now from stop) }
{
    let first = past(source, from);
    match read_text(source, first) {
        Ok(next) => {
            let rule = Sentence::Rule {
                at: start_at(tokens, from),
                first,
                past: counted_past(source, first, next),
            };
            Ok((Read::Other(rule), next))
        }
        Err(stop) => Err(stop),
    }
}

/// Notes what a sort has now.
fn note_sort(alloc: Global, sorts: &mut Sorts, sort: &[u8], now: Option<bool>) -> Result<(), Memory>
    ensures { OnOk result ((other : List ℕ) → had sorts.new other ≡ had (noted sorts.old sort.now now) other) }
{
    let Some(is_list) = now else {
        return Ok(());
    };
    let owned = Vec::from_slice(alloc, sort)?;
    sorts.note(owned, is_list)
}

/// Reads the productions that begin at a place.
fn read_syntax(
    alloc: Global,
    source: &Source<'_>,
    tokens: &[Token],
    from: usize,
    sorts: &mut Sorts,
) -> Result<(Read, usize), Stop>
    requires { Begins (word (codes "syntax")) (drop from source.now) }
    ensures { MatchResult result (λ found. IsSentenceRead tokens.now source.now from sorts.old sorts.new found.0 found.1)
        (λ stop. Stops (IsSentence sorts.old) signs_of_sentence EndsSentence source.now from stop) }
{
    let at = past(source, from);
    let Some(sort) = word_at(source, at) else {
        return Err(Stop::Expected { at });
    };
    if !is_declared(sort) {
        return Err(Stop::Expected { at });
    }
    let before = sorts.find(sort);
    let (groups, next) = match read_groups(alloc, source, past(source, at), sort, before) {
        Ok((groups, next)) => (groups, next),
        Err(stop) => return Err(stop),
    };
    let Ok(()) = note_sort(alloc, sorts, sort, standing(before, &groups)) else {
        return Err(Stop::Memory);
    };
    let Ok(name) = Vec::from_slice(alloc, sort) else {
        return Err(Stop::Memory);
    };
    let sentence = Sentence::Syntax {
        sort: Many::from_vec(name),
        groups,
    };
    Ok((Read::Other(sentence), next))
}

/// Reads the sentence that begins at a place.
pub(crate) fn read_sentence(
    alloc: Global,
    source: &Source<'_>,
    tokens: &[Token],
    from: usize,
    sorts: &mut Sorts,
) -> Result<(Read, usize), Stop>
    requires { from ≤ length source.now }
    ensures { MatchResult result (λ found. IsSentenceRead tokens.now source.now from sorts.old sorts.new found.0 found.1)
        (λ stop. Stops (IsSentence sorts.old) signs_of_sentence EndsSentence source.now from stop) }
{
    if has_word(source, from, "imports") {
        return read_import(alloc, source, tokens, from, sorts);
    }
    if has_word(source, from, "syntax") {
        return read_syntax(alloc, source, tokens, from, sorts);
    }
    if has_word(source, from, "configuration") {
        return read_configuration(source, tokens, from, sorts);
    }
    if has_word(source, from, "rule") {
        return read_rule(source, tokens, from, sorts);
    }
    Err(Stop::Expected { at: from })
}
