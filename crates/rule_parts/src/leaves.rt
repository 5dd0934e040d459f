//! What the tokens of a rule are where they stand for parts of terms.
ghost use Rattle.std.specs.Prelude.{◌≡◌, ◌≤◌, map, drop, length, unwrap_or, slice_get, IfOk};
ghost use Rattle.std.specs.List.{position_from};
ghost use Rattle.rule_parts.specs.Leaves.{is_of_name, home_of, named_home, leaf_kind as kind_of_leaf, leaf_of, leaves_of as all_leaves};

use grammar_terms::{Word, WordKind};
use k_terms::{Memory, Symbol, Value, copy};
use rule_tokens::{RuleKind, RuleToken};
use std::alloc::Global;

/// What a token is. A variable is told by its first token, and has the sort that is written of it, where one is.
#[derive(Debug, Drop)]
pub enum LeafKind {
    Variable { home: usize, sort: Option<u32> },
    Literal(Value),
    Other,
}

/// A token by its place, and what it is.
#[derive(Debug, Drop)]
pub struct Leaf {
    pub at: usize,
    pub kind: LeafKind,
}

/// Whether a token is a variable of a name.
fn is_named(name: Symbol, token: &RuleToken) -> bool
    ensures { result ≡ is_of_name name token.now }
{
    match &token.kind {
        RuleKind::Variable {
            name: Some(other),
            ..
        } => other.0 == name.0,
        _ => false,
    }
}

/// The first token of a name, and `at` where there is none.
fn first_named(tokens: &[RuleToken], name: Symbol, at: usize) -> usize
    ensures { result ≡ named_home tokens.now name at }
{
    for (index, token) in tokens.iter().enumerate() {
        if is_named(name, token) {
            return index;
        }
    }
    at
}

/// The first token of the variable at a place.
fn home(tokens: &[RuleToken], at: usize) -> usize
    ensures { result ≡ home_of tokens.now at }
{
    let Some(token) = tokens.get(at) else {
        return at;
    };
    match &token.kind {
        RuleKind::Variable {
            name: Some(name),
            ..
        } => first_named(tokens, *name, at),
        _ => at,
    }
}

/// What the token of a word is.
fn leaf_kind(
    alloc: Global,
    tokens: &[RuleToken],
    at: usize,
    word: &Word,
) -> Result<LeafKind, Memory>
    ensures { IfOk result (λ kind. kind ≡ kind_of_leaf tokens.now at word.now) }
{
    Ok(match &word.kind {
        WordKind::Variable => LeafKind::Variable {
            home: home(tokens, at),
            sort: Some(word.sort),
        },
        WordKind::Wild => LeafKind::Variable {
            home: home(tokens, at),
            sort: None,
        },
        WordKind::Literal(value) => LeafKind::Literal(copy(alloc, value)?),
        WordKind::Terminal(_) | WordKind::EmptyList => LeafKind::Other,
    })
}

/// What each token is.
pub fn read_leaves(alloc: Global, tokens: &[RuleToken], words: &[Word]) -> Result<Vec<Leaf>, Memory>
    ensures { IfOk result (λ leaves. leaves.items ≡ all_leaves tokens.now words.now) }
{
    let mut leaves = Vec::with_capacity(alloc, words.len())?;
    for (at, word) in words.iter().enumerate() {
        leaves.push(Leaf {
            at,
            kind: leaf_kind(alloc, tokens, at, word)?,
        })?;
    }
    Ok(leaves)
}

/// The tokens from a place on.
pub fn leaves_from(leaves: &[Leaf], first: usize) -> &[Leaf]
    ensures { result.now ≡ drop first leaves.now }
{
    if first <= leaves.len() {
        leaves.split_at(first).1
    } else {
        &[]
    }
}
