//! The body and the condition of a rule.
ghost use Rattle.std.specs.Prelude.{◌≡◌, ◌<◌, length, true, IfSome, MatchResult};
ghost use Rattle.std.specs.List.{AllByRecursion, list_any};
ghost use Rattle.rule_tokens.specs.RuleTokens.{IsInside};
ghost use Rattle.rule_cells.specs.Marks.{marks};
ghost use Rattle.rule_cells.specs.Forms.{is_identifier as identifies, is_word as is_of_word, is_when as says_when, begins_condition as condition_begins, condition_word as word_of_condition, is_of_bag as of_bag, end_of as end_in, IsBody, IsBodyFault, IsForm, IsFormFault};
ghost use Rattle.rule_cells.specs.Reading.{IsReadTo, IsReadFault, IsSideRead};

use crate::form::{FormFault, Inside, RuleForm, Side};
use crate::mark::{Mark, kind_mark};
use crate::state::{State, nothing, side_read, step};
use k_terms::Value;
use rule_terms::CellShape;
use rule_tokens::{RuleKind, RuleToken};
use std::alloc::Global;

fn is_identifier(value: &Value) -> bool
    ensures { result ≡ identifies value.now }
{
    match value {
        Value::Id(_) => true,
        _ => false,
    }
}

fn is_word(kind: &RuleKind) -> bool
    ensures { result ≡ is_of_word kind.now }
{
    match kind {
        RuleKind::Literal(value) => is_identifier(value),
        _ => false,
    }
}

fn is_when(word: &[u8]) -> bool
    ensures { result ≡ says_when word.now }
{
    word == b"when".as_slice() || word == b"requires".as_slice()
}

/// Whether a token is the word `when` or `requires`.
fn begins_condition(text: &[u8], token: &RuleToken) -> bool
    requires { IsInside text.now token.now }
    ensures { result ≡ condition_begins text.now token.now }
{
    is_word(&token.kind) && is_when(&text[token.start..token.end])
}

/// The number of the first such token, if there is one.
fn condition_word(text: &[u8], tokens: &[RuleToken]) -> Option<usize>
    requires { AllByRecursion (IsInside text.now) tokens.now }
    ensures value { result ≡ word_of_condition text.now tokens.now }
    ensures within { IfSome result (λ word. word < length tokens.now) }
{
    for (at, token) in tokens.iter().enumerate() {
        if begins_condition(text, token) {
            return Some(at);
        }
    }
    None
}

fn is_of_bag(mark: Mark) -> bool
    ensures { result ≡ of_bag mark }
{
    match mark {
        Mark::Open(_) => true,
        Mark::Close(_) => true,
        Mark::Bag => true,
        _ => false,
    }
}

/// Whether tokens have a tag or `.Bag`.
fn has_bag(tokens: &[RuleToken]) -> bool
    ensures { result ≡ list_any of_bag (marks tokens.now) }
{
    for token in tokens {
        if is_of_bag(kind_mark(&token.kind)) {
            return true;
        }
    }
    false
}

/// What is read of a body of cells.
fn read_tokens(alloc: Global, cells: &[CellShape], tokens: &[RuleToken]) -> Result<State, FormFault>
    ensures { MatchResult result (IsReadTo cells.now tokens.now) (IsReadFault cells.now tokens.now) }
{
    let mut state = nothing(alloc);
    for (at, token) in tokens.iter().enumerate() {
        let Ok(next) = step(alloc, cells, state, at, kind_mark(&token.kind)) else {
            return Err(FormFault::Memory);
        };
        let Some(next) = next else {
            return Err(FormFault::NoReading { at: token.start });
        };
        state = next;
    }
    Ok(state)
}

/// Where the last token ends.
fn end_of(tokens: &[RuleToken]) -> usize
    ensures { result ≡ end_in tokens.now }
{
    match tokens.last() {
        Some(token) => token.end,
        None => 0,
    }
}

/// Reads a body of cells.
fn read_cells(alloc: Global, cells: &[CellShape], tokens: &[RuleToken]) -> Result<Side, FormFault>
    requires { list_any of_bag (marks tokens.now) ≡ true }
    ensures { MatchResult result (IsSideRead cells.now (marks tokens.now)) (IsBodyFault cells.now tokens.now) }
{
    let state = match read_tokens(alloc, cells, tokens) {
        Ok(state) => state,
        Err(fault) => return Err(fault),
    };
    let Some(side) = side_read(state) else {
        return Err(FormFault::NoReading { at: end_of(tokens) });
    };
    Ok(side)
}

/// Reads a body.
fn read_body(alloc: Global, cells: &[CellShape], tokens: &[RuleToken]) -> Result<Inside, FormFault>
    ensures { MatchResult result (IsBody cells.now (marks tokens.now)) (IsBodyFault cells.now tokens.now) }
{
    if !has_bag(tokens) {
        return Ok(Inside::Content {
            first: 0,
            past: tokens.len(),
        });
    }
    match read_cells(alloc, cells, tokens) {
        Ok(side) => Ok(Inside::Cells(side)),
        Err(fault) => Err(fault),
    }
}

/// Divides the text of a rule, given by its tokens. The first word `when` or `requires` begins the condition, and what
/// stands before it is the body: cells where it has a tag or `.Bag`, else one content. Cells nest as deep as the text;
/// the time is linear in the tokens.
pub fn read_form(
    alloc: Global,
    cells: &[CellShape],
    text: &[u8],
    tokens: &[RuleToken],
) -> Result<RuleForm, FormFault>
    requires { AllByRecursion (IsInside text.now) tokens.now }
    ensures { MatchResult result (IsForm cells.now text.now tokens.now) (IsFormFault cells.now text.now tokens.now) }
{
    let Some(word) = condition_word(text, tokens) else {
        return match read_body(alloc, cells, tokens) {
            Ok(body) => Ok(RuleForm {
                body,
                condition: None,
            }),
            Err(fault) => Err(fault),
        };
    };
    let (before, _) = tokens.split_at(word);
    match read_body(alloc, cells, before) {
        Ok(body) => Ok(RuleForm {
            body,
            condition: Some((word + 1, tokens.len())),
        }),
        Err(fault) => Err(fault),
    }
}
