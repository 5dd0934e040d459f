//! The text of a rule as tokens.
ghost use Rattle.std.specs.Prelude.{◌≡◌, ◌≤◌, ◌<◌, ◌^◌, ◌&&◌, ◌==◌, ℕ, List, length, map, drop, IfOk, Some, None};
ghost use Rattle.std.specs.List.{AllByRecursion};
ghost use Rattle.k_lexer.specs.Before.{Stands, AllStand};
ghost use Rattle.program_tokens.specs.Base.{AllNumbered, with_tokens, GoesOn};
ghost use Rattle.program_tokens.specs.Splits.{first_place};
ghost use Rattle.program_tokens.specs.Terminals.{AreSame, terminals as terminals_of_grammar};
ghost use Rattle.rule_tokens.specs.RuleTokens.{AllWhole, AreRuleTokens, first_token as token_first, is_integer as integer, is_number as number_kind, is_wide as wide, first_wide as wide_first, IsInside};
ghost use Rattle.rule_tokens.specs.Splits.{IsRuleSplit, lexicon_with};

use crate::first::first_token;
use crate::literals::are_wide;
use crate::terminals::Terminals;
use crate::token::{RuleKind, RuleToken};
use grammar_terms::Grammar;
use k_lexer::Token;
use k_terms::{Many, Memory, Names, Value};
use program_tokens::number_tokens;
use rule_terms::CellShape;
use std::alloc::Global;

/// The text of a rule as tokens.
#[derive(Debug, Drop, PartialEq, Eq)]
pub struct RuleSplit {
    /// The tokens before the bad place, or all where there is none.
    pub tokens: Many<RuleToken>,
    /// The first place at which no token can stand.
    pub bad: Option<usize>,
    /// The place of the first of the tokens that is a number above the greatest. It stands among the tokens as the
    /// greatest.
    pub wide: Option<usize>,
}

fn is_integer(value: &Value) -> bool
    ensures { result ≡ integer value.now }
{
    match value {
        Value::Int(_) => true,
        _ => false,
    }
}

fn is_number(kind: &RuleKind) -> bool
    ensures { result ≡ number_kind kind.now }
{
    match kind {
        RuleKind::Literal(value) => is_integer(value),
        _ => false,
    }
}

/// Whether a token is a number above the greatest.
fn is_wide(text: &[u8], token: &RuleToken) -> bool
    requires { IsInside text.now token.now }
    ensures { result ≡ wide text.now token.now }
{
    is_number(&token.kind) && are_wide(&text[token.start..token.end])
}

/// Where the first number above the greatest stands.
fn first_wide(text: &[u8], tokens: &[RuleToken]) -> Option<usize>
    requires { AllByRecursion (IsInside text.now) tokens.now }
    ensures { result ≡ wide_first text.now tokens.now }
{
    for token in tokens {
        if is_wide(text, token) {
            return Some(token.start);
        }
    }
    None
}

/// The place of the first token from a place among tokens on.
fn place_at(tokens: &[Token], at: usize) -> Option<usize>
    ensures { result ≡ first_place (drop at tokens.now) }
{
    match tokens.get(at) {
        Some(token) => Some(token.start),
        None => None,
    }
}

/// The tokens up to a place at which none can stand, and the number of their base tokens.
fn read_tokens(
    alloc: Global,
    terminals: &Terminals<'_>,
    grammar: &Grammar,
    cells: &[CellShape],
    names: &Names,
    text: &[u8],
    tokens: &[Token],
) -> Result<(Many<RuleToken>, usize), Memory>
    requires few { length cells.now ≤ 2 ^ 32 }
    requires stand { AllStand text.now tokens.now }
    requires whole { AllWhole text.now tokens.now }
    requires numbered { AllNumbered text.now names.now tokens.now }
    ensures tokens { IfOk result (λ read. AreRuleTokens (lexicon_with terminals.now grammar.now cells.now names.now) text.now read.0 tokens.now (drop read.1 tokens.now)) }
    ensures ends { IfOk result (λ read. token_first (lexicon_with terminals.now grammar.now cells.now names.now) text.now (drop read.1 tokens.now) ≡ None) }
{
    let mut found = Many::new(alloc);
    let mut at = 0;
    while at < tokens.len() {
        let (_, rest) = tokens.split_at(at);
        let next = first_token(alloc, terminals, grammar, cells, names, text, rest)?;
        let Some((token, size)) = next else {
            return Ok((found, at));
        };
        found.push(token)?;
        at += size;
    }
    Ok((found, at))
}

/// The tokens of base tokens whose words are numbered.
fn split_numbered(
    alloc: Global,
    terminals: &Terminals<'_>,
    grammar: &Grammar,
    cells: &[CellShape],
    names: &Names,
    text: &[u8],
    tokens: &[Token],
) -> Result<RuleSplit, Memory>
    requires same { AreSame terminals.now (terminals_of_grammar grammar.now) }
    requires few { length cells.now ≤ 2 ^ 32 }
    requires stand { AllStand text.now tokens.now }
    requires whole { AllWhole text.now tokens.now }
    requires numbered { AllNumbered text.now names.now tokens.now }
    ensures split { IfOk result (λ found. (before : List (List ℕ)) → names.now ≡ with_tokens text.now before tokens.now → IsRuleSplit grammar.now cells.now before text.now tokens.now names.now found) }
    ensures inside { IfOk result (λ found. AllByRecursion (IsInside text.now) found.tokens) }
{
    let (found, at) = read_tokens(alloc, terminals, grammar, cells, names, text, tokens)?;
    let wide = first_wide(text, found.as_slice());
    Ok(RuleSplit {
        tokens: found,
        bad: place_at(tokens, at),
        wide,
    })
}

/// The text of a rule, given by its base tokens, as tokens, with the terminals of the grammar at hand. Its words are
/// added to
/// the names, on `Err` some of them.
pub fn split_rule_by(
    alloc: Global,
    terminals: &Terminals<'_>,
    grammar: &Grammar,
    cells: &[CellShape],
    names: &mut Names,
    text: &[u8],
    tokens: &[Token],
) -> Result<RuleSplit, Memory>
    requires same { AreSame terminals.now (terminals_of_grammar grammar.now) }
    requires few { length cells.now ≤ 2 ^ 32 }
    requires stand { AllStand text.now tokens.now }
    requires whole { AllWhole text.now tokens.now }
    ensures ok { IfOk result (λ found. IsRuleSplit grammar.now cells.now names.old text.now tokens.now names.new found) }
    ensures inside { IfOk result (λ found. AllByRecursion (IsInside text.now) found.tokens) }
    ensures names { GoesOn names.old names.new }
{
    number_tokens(alloc, names, text, tokens)?;
    split_numbered(alloc, terminals, grammar, cells, names, text, tokens)
}

/// The text of a rule, given by its base tokens, as tokens. Its words are added to the names, on `Err` some of them.
/// For many
/// rules of one grammar take `split_rule_by`.
pub fn split_rule(
    alloc: Global,
    grammar: &Grammar,
    cells: &[CellShape],
    names: &mut Names,
    text: &[u8],
    tokens: &[Token],
) -> Result<RuleSplit, Memory>
    requires few { length cells.now ≤ 2 ^ 32 }
    requires stand { AllStand text.now tokens.now }
    requires whole { AllWhole text.now tokens.now }
    ensures ok { IfOk result (λ found. IsRuleSplit grammar.now cells.now names.old text.now tokens.now names.new found) }
    ensures inside { IfOk result (λ found. AllByRecursion (IsInside text.now) found.tokens) }
    ensures names { GoesOn names.old names.new }
{
    let terminals = Terminals::new(alloc, grammar)?;
    split_rule_by(alloc, &terminals, grammar, cells, names, text, tokens)
}
