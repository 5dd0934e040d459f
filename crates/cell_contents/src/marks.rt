//! The marks between the items of a content.
ghost use Rattle.std.specs.Prelude.{◌≡◌, ◌↔◌, List, [], ◌∷◌, ◌++◌, MatchOption, IsTrue, IsFalse};
ghost use Rattle.grammar_terms.specs.declared.word.Word.{Word as WordOf};
ghost use Rattle.grammar_terms.specs.declared.word.WordKind.TheVariants.{Terminal as TerminalKind};
ghost use Rattle.cell_contents.specs.Marks.{terminal};
ghost use Rattle.cell_contents.specs.Tails.{Begins, OpensList};

use crate::ways::Way;
use grammar_terms::{Word, WordKind};

fn is_of_kind(kind: &WordKind, mark: &[u8]) -> bool
    ensures { IsTrue result ↔ (kind.now ≡ TerminalKind mark.now) }
{
    match kind {
        WordKind::Terminal(text) => text.as_slice() == mark,
        WordKind::Literal(_) => false,
        WordKind::Variable => false,
        WordKind::Wild => false,
        WordKind::EmptyList => false,
    }
}

/// Whether a word is the terminal that a mark of a content is.
fn is_mark(word: &Word, mark: &[u8]) -> bool
    ensures { IsTrue result ↔ (word.now ≡ terminal mark.now) }
{
    if !is_of_kind(&word.kind, mark) {
        return false;
    }
    if word.sort != 0 {
        return false;
    }
    if word.start != 0 {
        return false;
    }
    word.end == 0
}

/// The words behind a mark, where they begin with it.
pub(crate) fn behind_mark<'a>(words: &'a [Word], mark: &[u8]) -> Option<&'a [Word]>
    ensures { MatchOption result ((rest : List WordOf) → words.now ≡ terminal mark.now ∷ rest → ⊥) (λ rest. words.now ≡ terminal mark.now ∷ rest.now) }
{
    let Some((word, rest)) = words.split_first() else {
        return None;
    };
    if is_mark(word, mark) {
        return Some(rest);
    }
    None
}

/// The words behind `ListItem` and `(`, where they begin with these.
pub(crate) fn behind_opening(words: &[Word]) -> Option<&[Word]>
    ensures { MatchOption result ((rest : List WordOf) → OpensList words.now rest → ⊥) (λ rest. OpensList words.now rest.now) }
{
    let Some(bracket) = behind_mark(words, b"ListItem".as_slice()) else {
        return None;
    };
    let Some(rest) = behind_mark(bracket, b"(".as_slice()) else {
        return None;
    };
    Some(rest)
}

/// Whether words end with a mark.
fn ends_with(words: &[Word], mark: &[u8]) -> bool
    ensures { IsFalse result → (before : List WordOf) → words.now ≡ before ++ terminal mark.now ∷ [] → ⊥ }
{
    let Some((word, _)) = words.split_last() else {
        return false;
    };
    is_mark(word, mark)
}

/// Whether an item of a way can begin behind words.
pub(crate) fn begins(way: Way, words: &[Word]) -> bool
    ensures { IsFalse result → Begins way words.now → ⊥ }
{
    match way {
        Way::Item => ends_with(words, b"~>".as_slice()),
        Way::Key => true,
        Way::Value => ends_with(words, b"|->".as_slice()),
        Way::Member => ends_with(words, b"(".as_slice()),
    }
}
