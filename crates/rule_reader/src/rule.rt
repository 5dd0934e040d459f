//! The text of a rule: its draft, or why it is none.
ghost use Rattle.std.specs.Prelude.{◌≡◌, ◌⊎◌, ◌≤◌, ◌^◌, IfOk, IfErr, length};
ghost use Rattle.std.specs.List.{AllByRecursion};
ghost use Rattle.k_lexer.specs.Lexing.{AreTokens};
ghost use Rattle.program_tokens.specs.Base.{GoesOn};
ghost use Rattle.rule_tokens.specs.RuleTokens.{IsInside};
ghost use Rattle.rule_tokens.specs.Splits.{IsRuleSplit};
ghost use Rattle.rule_reader.specs.declared.refusal.RuleFault.TheVariants.{Memory as WantOfMemory};
ghost use Rattle.rule_reader.specs.Rules.{IsReadDraft, HasReadFault, IsFormedDraft, HasFormedFault, IsTokensDraft, HasTokensFault, IsSplitDraft, HasSplitFault, IsRuleSentence, IsRule, IsRefused, IsWant};

use crate::contents::cell_k;
use crate::grammar::RuleGrammar;
use crate::places::{base_place, between};
use crate::readings::read_parts;
use crate::refusal::{RuleFault, RuleRefusal};
use crate::told::{draft_fault, form_fault, split_fault, variable_fault};
use file_reader::Sentence;
use k_lexer::Token;
use k_terms::{Names, Symbol};
use rule_cells::{RuleForm, read_form};
use rule_contents::words_of;
use rule_drafts::read_draft;
use rule_terms::{CellShape, Draft};
use rule_tokens::{RuleSplit, RuleToken, split_rule_by, variable_sorts};
use std::alloc::Global;

/// The draft of a rule of a form.
fn draft_of_form(
    alloc: Global,
    grammar: &RuleGrammar<'_>,
    cells: &[CellShape],
    names: &Names,
    text: &[u8],
    tokens: &[RuleToken],
    at: usize,
    behind: usize,
    sorts: &[(Symbol, u32)],
    form: RuleForm,
) -> Result<Draft, RuleFault>
    ensures ok { IfOk result (IsReadDraft grammar.now cells.now names.now text.now tokens.now at behind sorts.now form) }
    ensures fault { IfErr result (λ fault. (fault ≡ WantOfMemory)
        ⊎ HasReadFault grammar.now cells.now names.now text.now tokens.now at behind sorts.now form fault) }
{
    let words = words_of(alloc, tokens, sorts)?;
    let words = words.as_slice();
    let reading = match read_parts(alloc, grammar, cells, tokens, words, behind, at, form) {
        Ok(reading) => reading,
        Err(fault) => return Err(fault),
    };
    let k = cell_k(cells)?;
    match read_draft(
        alloc,
        k,
        &grammar.productions,
        cells,
        tokens,
        words,
        &reading,
    ) {
        Ok(draft) => Ok(draft),
        Err(fault) => Err(draft_fault(alloc, names, tokens, behind, fault)),
    }
}

/// The draft of a rule whose named variables have these sorts.
fn draft_of_sorts(
    alloc: Global,
    grammar: &RuleGrammar<'_>,
    cells: &[CellShape],
    names: &Names,
    text: &[u8],
    tokens: &[RuleToken],
    at: usize,
    behind: usize,
    sorts: &[(Symbol, u32)],
) -> Result<Draft, RuleFault>
    requires inside { AllByRecursion (IsInside text.now) tokens.now }
    ensures ok { IfOk result (IsFormedDraft grammar.now cells.now names.now text.now tokens.now at behind sorts.now) }
    ensures fault { IfErr result (λ fault. (fault ≡ WantOfMemory)
        ⊎ HasFormedFault grammar.now cells.now names.now text.now tokens.now at behind sorts.now fault) }
{
    let form = match read_form(alloc, cells, text, tokens) {
        Ok(form) => form,
        Err(fault) => return Err(form_fault(fault)),
    };
    match draft_of_form(
        alloc, grammar, cells, names, text, tokens, at, behind, sorts, form,
    ) {
        Ok(draft) => Ok(draft),
        Err(fault) => Err(fault),
    }
}

/// The draft of the tokens of a rule.
fn draft_of_tokens(
    alloc: Global,
    grammar: &RuleGrammar<'_>,
    cells: &[CellShape],
    names: &Names,
    text: &[u8],
    tokens: &[RuleToken],
    at: usize,
    behind: usize,
) -> Result<Draft, RuleFault>
    requires inside { AllByRecursion (IsInside text.now) tokens.now }
    ensures ok { IfOk result (IsTokensDraft grammar.now cells.now names.now text.now tokens.now at behind) }
    ensures fault { IfErr result (λ fault. (fault ≡ WantOfMemory)
        ⊎ HasTokensFault grammar.now cells.now names.now text.now tokens.now at behind fault) }
{
    let sorts = match variable_sorts(alloc, tokens) {
        Ok(sorts) => sorts,
        Err(fault) => return Err(variable_fault(alloc, grammar.rules, names, fault)),
    };
    let sorts = sorts.as_slice();
    match draft_of_sorts(
        alloc, grammar, cells, names, text, tokens, at, behind, sorts,
    ) {
        Ok(draft) => Ok(draft),
        Err(fault) => Err(fault),
    }
}

/// The draft of what a rule's text was split into.
fn draft_of_split(
    alloc: Global,
    grammar: &RuleGrammar<'_>,
    cells: &[CellShape],
    names: &Names,
    text: &[u8],
    split: &RuleSplit,
    at: usize,
    behind: usize,
) -> Result<Draft, RuleFault>
    requires inside { AllByRecursion (IsInside text.now) split.now.tokens }
    ensures ok { IfOk result (IsSplitDraft grammar.now cells.now names.now text.now split.now at behind) }
    ensures fault { IfErr result (λ fault. (fault ≡ WantOfMemory)
        ⊎ HasSplitFault grammar.now cells.now names.now text.now split.now at behind fault) }
{
    if let Some(fault) = split_fault(split) {
        return Err(fault);
    }
    let tokens = split.tokens.as_slice();
    match draft_of_tokens(alloc, grammar, cells, names, text, tokens, at, behind) {
        Ok(draft) => Ok(draft),
        Err(fault) => Err(fault),
    }
}

/// The draft of a rule sentence of a text, whose base tokens are `tokens`, over a grammar for rules and declared cells; or its
/// refusal. Each word of the rule's text has a number among the names then.
pub fn read_rule(
    alloc: Global,
    grammar: &RuleGrammar<'_>,
    cells: &[CellShape],
    names: &mut Names,
    text: &[u8],
    tokens: &[Token],
    rule: &Sentence,
) -> Result<Draft, RuleRefusal>
    requires few { length cells.now ≤ 2 ^ 32 }
    requires tokens { AreTokens text.now tokens.now }
    requires rule { IsRuleSentence rule.now }
    ensures ok { IfOk result (IsRule grammar.now cells.now names.old text.now tokens.now rule.now names.new) }
    ensures fault { IfErr result (λ refusal. IsWant rule.now refusal
        ⊎ IsRefused grammar.now cells.now names.old text.now tokens.now rule.now names.new refusal) }
    ensures names { GoesOn names.old names.new }
{
    let Sentence::Rule { at, first, past } = rule else {
        unreachable!()
    };
    let (at, first, past) = (*at, *first, *past);
    let base = between(tokens, first, past);
    let behind = base_place(text, tokens, past);
    let rules = grammar.rules;
    let split = match split_rule_by(alloc, &grammar.terminals, rules, cells, names, text, base) {
        Ok(split) => split,
        Err(_) => {
            return Err(RuleRefusal {
                at,
                fault: RuleFault::Memory,
            });
        }
    };
    match draft_of_split(alloc, grammar, cells, names, text, &split, at, behind) {
        Ok(draft) => Ok(draft),
        Err(fault) => Err(RuleRefusal { at, fault }),
    }
}
