//! The tokens of a rule as words of a content or a condition.
ghost use Rattle.std.specs.Prelude.{◌≡◌, IfOk, map};
ghost use Rattle.grammar_terms.specs.declared.word.WordKind.TheVariants.{Literal as LiteralKind};
ghost use Rattle.rule_contents.specs.Words.{nowhere as no_word, place_of_text as number_of_text, terminal as terminal_word, literal_sort as sort_of_value, sort_of_name, named as named_word, variable_meant as word_of_variable, dot_meant as word_of_dot, meant as meaning, word_of as word_by};

use grammar_terms::{CLOSE_PLACE, OPEN_PLACE, REWRITE_PLACE, Word, WordKind};
use k_terms::{Many, Memory, Symbol, Text, Value, copy, sort};
use rule_tokens::{RuleKind, RuleToken};
use std::alloc::Global;

/// What a token is in a content: its kind as a word, and its sort.
#[derive(Debug, Drop)]
pub struct Meant {
    /// The kind.
    pub kind: WordKind,
    /// The sort.
    pub sort: u32,
}

/// The number of the places that ask for a terminal, or 0.
fn place_of_text(text: &[u8]) -> u32
    ensures { result ≡ number_of_text text.now }
{
    if text == b"=>".as_slice() {
        return REWRITE_PLACE;
    }
    if text == b"(".as_slice() {
        return OPEN_PLACE;
    }
    if text == b")".as_slice() {
        return CLOSE_PLACE;
    }
    0
}

fn terminal(alloc: Global, text: &[u8]) -> Result<Meant, Memory>
    ensures { IfOk result (λ it. it ≡ terminal_word text.now) }
{
    Ok(Meant {
        kind: WordKind::Terminal(Text::from_vec(Vec::from_slice(alloc, text)?)),
        sort: place_of_text(text),
    })
}

/// What stands in no content.
fn nowhere(alloc: Global) -> Meant
    ensures { result ≡ no_word }
{
    Meant {
        kind: WordKind::Terminal(Many::new(alloc)),
        sort: 0,
    }
}

/// The sort of a literal.
fn literal_sort(value: &Value) -> u32
    ensures { result ≡ sort_of_value value.now }
{
    match value {
        Value::Int(_) => sort::INT,
        Value::Bool(_) => sort::BOOL,
        Value::Str(_) => sort::STRING,
        Value::Id(_) => sort::ID,
        Value::Seq(_) => sort::K,
        Value::Node(..) => sort::KITEM,
        Value::Items(..) => sort::KITEM,
        Value::Map(_) => sort::KITEM,
        Value::List(_) => sort::KITEM,
        Value::Freezer(..) => sort::KITEM,
    }
}

/// The sort of a named variable.
fn sort_of(sorts: &[(Symbol, u32)], name: Symbol) -> Option<u32>
    ensures { result ≡ sort_of_name sorts.now name.0 }
{
    for (other, sort) in sorts {
        if other.0 == name.0 {
            return Some(*sort);
        }
    }
    None
}

fn named(alloc: Global, sorts: &[(Symbol, u32)], name: Symbol) -> Meant
    ensures { result ≡ named_word sorts.now name.0 }
{
    match sort_of(sorts, name) {
        Some(sort) => Meant {
            kind: WordKind::Variable,
            sort,
        },
        None => nowhere(alloc),
    }
}

fn variable_meant(
    alloc: Global,
    sorts: &[(Symbol, u32)],
    name: Option<Symbol>,
    sort: Option<u32>,
) -> Meant
    ensures { result ≡ word_of_variable sorts.now name sort }
{
    if let Some(name) = name {
        return named(alloc, sorts, name);
    }
    match sort {
        Some(sort) => Meant {
            kind: WordKind::Variable,
            sort,
        },
        None => Meant {
            kind: WordKind::Wild,
            sort: 0,
        },
    }
}

fn dot_meant(sort: Option<u32>) -> Meant
    ensures { result ≡ word_of_dot sort }
{
    match sort {
        Some(sort) => Meant {
            kind: WordKind::EmptyList,
            sort,
        },
        None => Meant {
            kind: WordKind::EmptyList,
            sort: sort::K,
        },
    }
}

fn literal(alloc: Global, value: &Value) -> Result<Meant, Memory>
    ensures { IfOk result (λ it. it ≡ record { kind = LiteralKind value.now; sort = sort_of_value value.now }) }
{
    Ok(Meant {
        kind: WordKind::Literal(copy(alloc, value)?),
        sort: literal_sort(value),
    })
}

/// What a token is in a content.
fn meaning_of(alloc: Global, sorts: &[(Symbol, u32)], kind: &RuleKind) -> Result<Meant, Memory>
    ensures { IfOk result (λ it. it ≡ meaning sorts.now kind.now) }
{
    match kind {
        RuleKind::Open(_) => Ok(nowhere(alloc)),
        RuleKind::Close(_) => Ok(nowhere(alloc)),
        RuleKind::Rewrite => terminal(alloc, b"=>"),
        RuleKind::Then => terminal(alloc, b"~>"),
        RuleKind::MapsTo => terminal(alloc, b"|->"),
        RuleKind::Dots => Ok(nowhere(alloc)),
        RuleKind::Dot(sort) => Ok(dot_meant(*sort)),
        RuleKind::ListItem => terminal(alloc, b"ListItem"),
        RuleKind::Terminal(text) => terminal(alloc, text.as_slice()),
        RuleKind::Literal(value) => literal(alloc, value),
        RuleKind::Variable { name, sort } => Ok(variable_meant(alloc, sorts, *name, *sort)),
    }
}

/// The word of a token.
fn word_of(alloc: Global, sorts: &[(Symbol, u32)], token: &RuleToken) -> Result<Word, Memory>
    ensures { IfOk result (λ word. word ≡ word_by sorts.now token.now) }
{
    let it = meaning_of(alloc, sorts, &token.kind)?;
    Ok(Word {
        kind: it.kind,
        sort: it.sort,
        start: token.start,
        end: token.end,
    })
}

/// The words of tokens, one for each, where these are the sorts of the named variables. A tag and `...` stand in no content, nor
/// does a named variable without a sort: they are words that no production has.
pub fn words_of(
    alloc: Global,
    tokens: &[RuleToken],
    sorts: &[(Symbol, u32)],
) -> Result<Many<Word>, Memory>
    ensures { IfOk result (λ words. words ≡ map (word_by sorts.now) tokens.now) }
{
    let mut words = Vec::with_capacity(alloc, tokens.len())?;
    for token in tokens {
        words.push(word_of(alloc, sorts, token)?)?;
    }
    Ok(Many::from_vec(words))
}
