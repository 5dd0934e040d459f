//! Which token stands at a place.
ghost use Rattle.std.specs.Prelude.{◌≡◌, ◌↔◌, IsTrue};
ghost use Rattle.grammar_terms.specs.declared.word.WordKind.TheVariants.{Terminal as TerminalKind, Variable as VariableKind, EmptyList as EmptyKind};
ghost use Rattle.grammar_terms.specs.Reading.{is_leaf as leaf_kind, is_wild as wild_kind, is_wild_at as wild_at, IsTerminalAt, IsWordAt};

use crate::word::{Word, WordKind};

/// The token at a place is this terminal.
pub fn is_terminal_at(tokens: &[Word], at: usize, text: &[u8]) -> bool
    ensures { IsTrue result ↔ IsTerminalAt tokens.now at text.now }
{
    match tokens.get(at) {
        Some(word) => is_terminal(&word.kind, text),
        None => false,
    }
}

fn is_terminal(kind: &WordKind, text: &[u8]) -> bool
    ensures { IsTrue result ↔ (kind.now ≡ TerminalKind text.now) }
{
    match kind {
        WordKind::Terminal(other) => other.as_slice() == text,
        WordKind::Literal(_) => false,
        WordKind::Variable => false,
        WordKind::Wild => false,
        WordKind::EmptyList => false,
    }
}

fn is_variable(kind: &WordKind) -> bool
    ensures { IsTrue result ↔ (kind.now ≡ VariableKind) }
{
    match kind {
        WordKind::Terminal(_) => false,
        WordKind::Literal(_) => false,
        WordKind::Variable => true,
        WordKind::Wild => false,
        WordKind::EmptyList => false,
    }
}

/// The token at a place is a variable of a sort.
pub fn is_variable_at(tokens: &[Word], at: usize, sort: u32) -> bool
    ensures { IsTrue result ↔ IsWordAt tokens.now at VariableKind sort }
{
    let Some(word) = tokens.get(at) else {
        return false;
    };
    if !is_variable(&word.kind) {
        return false;
    }
    word.sort == sort
}

/// A token that is a reading of its own sort.
pub fn is_leaf(kind: &WordKind) -> bool
    ensures { result ≡ leaf_kind kind.now }
{
    match kind {
        WordKind::Terminal(_) => false,
        WordKind::Literal(_) => true,
        WordKind::Variable => true,
        WordKind::Wild => false,
        WordKind::EmptyList => false,
    }
}

fn is_wild(kind: &WordKind) -> bool
    ensures { result ≡ wild_kind kind.now }
{
    match kind {
        WordKind::Terminal(_) => false,
        WordKind::Literal(_) => false,
        WordKind::Variable => false,
        WordKind::Wild => true,
        WordKind::EmptyList => false,
    }
}

/// The token at a place is a variable without a sort.
pub fn is_wild_at(tokens: &[Word], at: usize) -> bool
    ensures { result ≡ wild_at tokens.now at }
{
    match tokens.get(at) {
        Some(word) => is_wild(&word.kind),
        None => false,
    }
}

/// A token that is an empty list, or the empty sequence.
pub fn is_empty(kind: &WordKind) -> bool
    ensures { IsTrue result ↔ (kind.now ≡ EmptyKind) }
{
    match kind {
        WordKind::Terminal(_) => false,
        WordKind::Literal(_) => false,
        WordKind::Variable => false,
        WordKind::Wild => false,
        WordKind::EmptyList => true,
    }
}

/// The token at a place is the empty list of a sort, or the empty sequence, of sort K.
pub fn is_empty_at(tokens: &[Word], at: usize, sort: u32) -> bool
    ensures { IsTrue result ↔ IsWordAt tokens.now at EmptyKind sort }
{
    let Some(word) = tokens.get(at) else {
        return false;
    };
    if !is_empty(&word.kind) {
        return false;
    }
    word.sort == sort
}
