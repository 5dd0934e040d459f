//! The readings of each end of a content.
ghost use Rattle.std.specs.Prelude.{◌≡◌, ℕ, ◌+◌, ◌<◌, ◌++◌, List, length};
ghost use Rattle.grammar_terms.specs.declared.word.Word.{Word as WordOf};
ghost use Rattle.grammar_terms.specs.Grammar.{Syntax};
ghost use Rattle.cell_contents.specs.declared.ways.Way.TheVariants as way_of;
ghost use Rattle.cell_contents.specs.Tables.{Finds, IsTable, found_in};
ghost use Rattle.cell_contents.specs.Tails.{IsTail, Begins, Follows};

use crate::found::Found;
use crate::marks::{behind_mark, behind_opening};
use crate::ways::Way;
use grammar_terms::Word;
use k_terms::Many;

/// What is found from a place on, in each way.
#[derive(Debug, Drop)]
pub(crate) struct Entry {
    pub(crate) item: Found,
    pub(crate) key: Found,
    pub(crate) value: Found,
    pub(crate) member: Found,
}

fn of_way(entry: &Entry, way: Way) -> &Found
    ensures { result.now ≡ found_in way entry.now }
{
    match way {
        Way::Item => &entry.item,
        Way::Key => &entry.key,
        Way::Value => &entry.value,
        Way::Member => &entry.member,
    }
}

/// What is found from each place on, by how many words are left there. And what is found at the end, and where nothing is.
#[derive(Debug, Drop)]
pub(crate) struct Table {
    pub(crate) entries: Many<Entry>,
    pub(crate) end: Found,
    pub(crate) none: Found,
}

/// What is found where these words are left.
pub(crate) fn found_at<'a>(table: &'a Table, way: Way, words: &[Word]) -> &'a Found
    ensures { (g : Syntax) (before : List WordOf) (size : ℕ) → Begins way before → length words.now < size → IsTable g (before ++ words.now) size table.now → Finds g (IsTail g way words.now) result.now }
{
    match table.entries.get(words.len()) {
        Some(entry) => of_way(entry, way),
        None => &table.none,
    }
}

/// What is found behind an item of a sequence.
fn behind_item<'a>(table: &'a Table, words: &[Word]) -> &'a Found
    ensures { (g : Syntax) → IsTable g words.now (length words.now + 1) table.now → Finds g (Follows g way_of.Item words.now) result.now }
{
    if words.is_empty() {
        return &table.end;
    }
    match behind_mark(words, b"~>".as_slice()) {
        Some(rest) => found_at(table, Way::Item, rest),
        None => &table.none,
    }
}

/// What is found behind a key.
fn behind_key<'a>(table: &'a Table, words: &[Word]) -> &'a Found
    ensures { (g : Syntax) → IsTable g words.now (length words.now + 1) table.now → Finds g (Follows g way_of.Key words.now) result.now }
{
    match behind_mark(words, b"|->".as_slice()) {
        Some(rest) => found_at(table, Way::Value, rest),
        None => &table.none,
    }
}

/// What is found behind a value of a map.
fn behind_value<'a>(table: &'a Table, words: &[Word]) -> &'a Found
    ensures { (g : Syntax) → IsTable g words.now (length words.now + 1) table.now → Finds g (Follows g way_of.Value words.now) result.now }
{
    if words.is_empty() {
        return &table.end;
    }
    found_at(table, Way::Key, words)
}

/// What is found behind a member of a list.
fn behind_member<'a>(table: &'a Table, words: &[Word]) -> &'a Found
    ensures { (g : Syntax) → IsTable g words.now (length words.now + 1) table.now → Finds g (Follows g way_of.Member words.now) result.now }
{
    let Some(further) = behind_mark(words, b")".as_slice()) else {
        return &table.none;
    };
    if further.is_empty() {
        return &table.end;
    }
    match behind_opening(further) {
        Some(rest) => found_at(table, Way::Member, rest),
        None => &table.none,
    }
}

/// What is found behind an item.
pub(crate) fn found_behind<'a>(table: &'a Table, way: Way, words: &[Word]) -> &'a Found
    ensures { (g : Syntax) → IsTable g words.now (length words.now + 1) table.now → Finds g (Follows g way words.now) result.now }
{
    match way {
        Way::Item => behind_item(table, words),
        Way::Key => behind_key(table, words),
        Way::Value => behind_value(table, words),
        Way::Member => behind_member(table, words),
    }
}
