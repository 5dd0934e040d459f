//! The one reading of a content, by the values of its items.
ghost use Rattle.std.specs.Prelude.{◌≡◌, ◌↔◌, length, IfOk, IsTrue, MatchOption};
ghost use Rattle.std.specs.List.{AllByRecursion};
ghost use Rattle.k_terms.specs.declared.value.Content.{Content as ContentOf};
ghost use Rattle.grammar_terms.specs.Grammar.{Syntax};
ghost use Rattle.cell_contents.specs.Readings.{IsShallow, IsContent};
ghost use Rattle.cell_contents.specs.Tails.{AreMembers};
ghost use Rattle.cell_contents.specs.Tables.{Finds, IsTable};
ghost use Rattle.cell_contents.specs.Choices.{chosen_of, values_in, Makes, IsChosen};

use crate::found::Found;
use crate::maps::map_of;
use crate::marks::behind_opening;
use crate::table::{Table, found_at};
use crate::tails::{found_from, table_of};
use crate::ways::Way;
use grammar_terms::{Grammar, Word};
use k_terms::{Content, Memory, Value, Values, copy_values, depth};
use std::alloc::Global;

/// The greatest depth of a value.
const DEEPEST: u32 = 400;

/// The values of the one reading: items of a sequence, keys and values of a map in turn, or members of a list.
#[derive(Debug, Drop)]
pub(crate) enum Chosen {
    Sequence(Values),
    Entries(Values),
    Members(Values),
}

/// The only reading of the three ways together.
fn choose(sequence: Found, entries: Found, members: Found) -> Option<Chosen>
    ensures { result ≡ chosen_of sequence entries members }
{
    match sequence {
        Found::Many => None,
        Found::One(values) => match entries {
            Found::Zero => match members {
                Found::Zero => Some(Chosen::Sequence(values)),
                _ => None,
            },
            _ => None,
        },
        Found::Zero => match entries {
            Found::Many => None,
            Found::One(values) => match members {
                Found::Zero => Some(Chosen::Entries(values)),
                _ => None,
            },
            Found::Zero => match members {
                Found::One(values) => Some(Chosen::Members(values)),
                _ => None,
            },
        },
    }
}

fn copy_found(alloc: Global, found: &Found) -> Result<Found, Memory>
    ensures { IfOk result (λ copy. copy ≡ found.now) }
{
    match found {
        Found::Zero => Ok(Found::Zero),
        Found::One(values) => {
            let copy = copy_values(alloc, values.as_slice())?;
            Ok(Found::One(copy))
        }
        Found::Many => Ok(Found::Many),
    }
}

/// What is found of members of a list.
fn found_members(alloc: Global, table: &Table, words: &[Word]) -> Result<Found, Memory>
    ensures { (g : Syntax) → IsTable g words.now (length words.now) table.now → IfOk result (Finds g (AreMembers g words.now)) }
{
    let Some(rest) = behind_opening(words) else {
        return Ok(Found::Zero);
    };
    let found = copy_found(alloc, found_at(table, Way::Member, rest))?;
    Ok(found)
}

/// The values of the one reading of words, where they have one.
fn chosen_in(alloc: Global, grammar: &Grammar, words: &[Word]) -> Result<Option<Chosen>, Memory>
    ensures { IfOk result (IsChosen grammar.now words.now) }
{
    let table = table_of(alloc, grammar, words)?;
    let sequence = found_from(alloc, grammar, &table, Way::Item, words)?;
    let entries = found_from(alloc, grammar, &table, Way::Key, words)?;
    let members = found_members(alloc, &table, words)?;
    Ok(choose(sequence, entries, members))
}

fn values_of(chosen: &Chosen) -> &[Value]
    ensures { result.now ≡ values_in chosen.now }
{
    match chosen {
        Chosen::Sequence(values) => values.as_slice(),
        Chosen::Entries(values) => values.as_slice(),
        Chosen::Members(values) => values.as_slice(),
    }
}

/// Whether no value is too deep.
fn are_shallow(values: &[Value]) -> bool
    ensures { IsTrue result ↔ AllByRecursion IsShallow values.now }
{
    for value in values {
        if depth(value) > DEEPEST {
            return false;
        }
    }
    true
}

/// The content of values, none where a key stands twice.
fn content_of(alloc: Global, chosen: Chosen) -> Result<Option<Content>, Memory>
    ensures { IfOk result (Makes chosen) }
{
    match chosen {
        Chosen::Sequence(values) => Ok(Some(Content::Seq(values))),
        Chosen::Members(values) => Ok(Some(Content::List(values))),
        Chosen::Entries(values) => {
            let Some(entries) = map_of(alloc, values)? else {
                return Ok(None);
            };
            Ok(Some(Content::Map(entries)))
        }
    }
}

/// The content of the one reading of words, where they have one, no value in it is too deep, and no key stands twice.
pub(crate) fn content_in(
    alloc: Global,
    grammar: &Grammar,
    words: &[Word],
) -> Result<Option<Content>, Memory>
    ensures { IfOk result (λ found. MatchOption found ((content : ContentOf) → IsContent grammar.now words.now content → ⊥) (IsContent grammar.now words.now)) }
{
    let only = chosen_in(alloc, grammar, words)?;
    let Some(chosen) = only else {
        return Ok(None);
    };
    if !are_shallow(values_of(&chosen)) {
        return Ok(None);
    }
    let found = content_of(alloc, chosen)?;
    Ok(found)
}
