//! What the faults of the phases are told as.
ghost use Rattle.std.specs.Prelude.{◌≡◌, ◌⊎◌, IfOk, codes};
ghost use Rattle.rule_tokens.specs.declared.sorts.VariableFault.TheVariants.{SortClash as TwoSorts};
ghost use Rattle.rule_reader.specs.declared.refusal.RuleFault.TheVariants.{Memory as WantOfMemory};
ghost use Rattle.rule_reader.specs.Told.{word_of as word_in, sort_text as text_of_sort, split_fault as fault_of_split, told_variable, told_form, told_content, told_unbound, told_draft};

use crate::places::place_of;
use crate::refusal::RuleFault;
use grammar_terms::Grammar;
use k_terms::{Memory, Names, Symbol, Text};
use rule_cells::FormFault;
use rule_contents::ContentFault;
use rule_drafts::{DraftFault, Unbound};
use rule_tokens::{RuleSplit, RuleToken, VariableFault};
use sorted_grammar::What;
use std::alloc::Global;

/// The most tokens that a rule may have.
const TOKEN_LIMIT: usize = 512;

/// A text of its own with these bytes.
fn text_of(alloc: Global, bytes: &[u8]) -> Result<Text, Memory>
    ensures { IfOk result (λ text. text ≡ bytes.now) }
{
    Ok(Text::from_vec(Vec::from_slice(alloc, bytes)?))
}

/// The word of a symbol.
fn word_of(alloc: Global, names: &Names, symbol: Symbol) -> Result<Text, Memory>
    ensures { IfOk result (λ text. text ≡ word_in names.now symbol) }
{
    match names.word(symbol) {
        Some(word) => text_of(alloc, word.as_bytes()),
        None => text_of(alloc, b""),
    }
}

/// The name of a sort.
fn sort_text(alloc: Global, rules: &Grammar, sort: u32) -> Result<Text, Memory>
    ensures { IfOk result (λ text. text ≡ text_of_sort rules.now sort) }
{
    match rules.sort_name(sort) {
        Some(name) => text_of(alloc, name.as_slice()),
        None => text_of(alloc, b""),
    }
}

/// What is wrong with the tokens themselves.
pub(crate) fn split_fault(split: &RuleSplit) -> Option<RuleFault>
    ensures { result ≡ fault_of_split split.now }
{
    let count = split.tokens.len();
    if TOKEN_LIMIT < count {
        return Some(RuleFault::TooMany {
            what: What::RuleTokens,
            n: count as u64,
        });
    }
    if let Some(at) = split.bad {
        return Some(RuleFault::BadToken { at });
    }
    match split.wide {
        Some(at) => Some(RuleFault::WideNumber { at }),
        None => None,
    }
}

fn clash(
    alloc: Global,
    rules: &Grammar,
    names: &Names,
    name: Symbol,
    first: u32,
    second: u32,
) -> Result<RuleFault, Memory>
    ensures { IfOk result (λ fault. fault ≡ told_variable rules.now names.now (TwoSorts name first second)) }
{
    Ok(RuleFault::SortClash {
        var: word_of(alloc, names, name)?,
        first: sort_text(alloc, rules, first)?,
        second: sort_text(alloc, rules, second)?,
    })
}

/// A fault of the named variables, or want of memory.
pub(crate) fn variable_fault(
    alloc: Global,
    rules: &Grammar,
    names: &Names,
    fault: VariableFault,
) -> RuleFault
    ensures { (result ≡ WantOfMemory) ⊎ (result ≡ told_variable rules.now names.now fault) }
{
    match fault {
        VariableFault::Unsorted { name } => match word_of(alloc, names, name) {
            Ok(var) => RuleFault::Unsorted { var },
            Err(_) => RuleFault::Memory,
        },
        VariableFault::SortClash {
            name,
            first,
            second,
        } => match clash(alloc, rules, names, name, first, second) {
            Ok(fault) => fault,
            Err(_) => RuleFault::Memory,
        },
        VariableFault::Memory => RuleFault::Memory,
    }
}

/// A fault of the cells.
pub(crate) fn form_fault(fault: FormFault) -> RuleFault
    ensures { result ≡ told_form fault }
{
    match fault {
        FormFault::NoReading { at } => RuleFault::NoReading { at },
        FormFault::Memory => RuleFault::Memory,
    }
}

/// A fault of a content or a condition that begins at a place.
pub(crate) fn content_fault(at: usize, fault: ContentFault) -> RuleFault
    ensures { result ≡ told_content at fault }
{
    match fault {
        ContentFault::NoReading => RuleFault::NoReading { at },
        ContentFault::Ambiguous => RuleFault::AmbiguousAt { at },
        ContentFault::Memory => RuleFault::Memory,
    }
}

/// How a variable is told that doesn't stand on the left side.
fn unbound_text(alloc: Global, names: &Names, var: Unbound) -> Result<Text, Memory>
    ensures { IfOk result (λ text. text ≡ told_unbound names.now var) }
{
    match var {
        Unbound::Named(name) => word_of(alloc, names, name),
        Unbound::Wild => text_of(alloc, b"_"),
        Unbound::Dots => text_of(alloc, b"..."),
    }
}

/// A fault of the draft, or want of memory.
pub(crate) fn draft_fault(
    alloc: Global,
    names: &Names,
    tokens: &[RuleToken],
    behind: usize,
    fault: DraftFault,
) -> RuleFault
    ensures { (result ≡ WantOfMemory) ⊎ (result ≡ told_draft names.now tokens.now behind fault) }
{
    match fault {
        DraftFault::PatternForm { token } => RuleFault::PatternForm {
            at: place_of(tokens, behind, token),
        },
        DraftFault::NotBoundLeft { var } => match unbound_text(alloc, names, var) {
            Ok(var) => RuleFault::NotBoundLeft { var },
            Err(_) => RuleFault::Memory,
        },
        DraftFault::Memory => RuleFault::Memory,
    }
}
