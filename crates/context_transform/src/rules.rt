//! The rules of a definition over its declared cells.
ghost use Rattle.std.specs.Prelude.{◌≡◌, ◌⊎◌, ◌+◌, ◌++◌, ◌≤◌, List, IfOk, IfErr, length};
ghost use Rattle.std.specs.List.{AllByRecursion};
ghost use Rattle.k_lexer.specs.Lexing.{AreTokens};
ghost use Rattle.rule_reader.specs.Rules.{IsRuleSentence};
ghost use Rattle.grammar_terms.specs.Builtins.{with_builtins};
ghost use Rattle.rule_terms.specs.declared.rule.Rule.{Rule as RuleOf};
ghost use Rattle.rule_completion.specs.Rules.{IsWrittenDraft};
ghost use Rattle.context_transform.specs.declared.fault.CellsUnclear.{CellsUnclear as Unclear};
ghost use Rattle.context_transform.specs.declared.fault.DefFault.TheVariants.{Memory as WantOfMemory, Complete as OfCells};
ghost use Rattle.context_transform.specs.WrittenRules.{IsWrittenRule, AreWrittenRules, IsBadRule, IsFirstBad, AreCompleted, IsFirstUnclear, AreAllRules, IsFirstFault};

use crate::completion::complete;
use crate::fault::DefFault;
use crate::told::{rule_fault, unclear_fault};
use cell_trees::CellTree;
use draft_laws::laws::written_rules;
use grammar_terms::Grammar;
use k_lexer::Token;
use k_terms::Names;
use module_reader::Sentence;
use rule_reader::{RuleGrammar, read_rule};
use rule_terms::{Draft, Rule};
use std::alloc::Global;

/// The rule of the sentence with a number.
fn read_one(
    alloc: Global,
    grammar: &RuleGrammar<'_>,
    tree: &CellTree,
    names: &mut Names,
    text: &[u8],
    tokens: &[Token],
    sentence: &Sentence,
    number: u32,
) -> Result<Rule, DefFault>
    requires tokens { AreTokens text.now tokens.now }
    requires rule { IsRuleSentence sentence.now }
    ensures ok { IfOk result (λ rule. IsWrittenRule grammar.now tree.now text.now tokens.now names.old sentence.now rule names.new) }
    ensures fault { IfErr result (λ fault. (fault ≡ WantOfMemory)
        ⊎ IsBadRule grammar.now tree.now text.now tokens.now names.old number sentence.now fault) }
{
    tree.sound();
    written_rules();
    let draft = match read_rule(alloc, grammar, tree.shapes(), names, text, tokens, sentence) {
        Ok(draft) => draft,
        Err(refusal) => return Err(rule_fault(refusal)),
    };
    match complete(alloc, tree, &draft, number) {
        Ok(rule) => Ok(rule),
        Err(refusal) => Err(unclear_fault(refusal)),
    }
}

/// The rules of rule sentences, over a grammar for rules.
fn read_rules(
    alloc: Global,
    grammar: &RuleGrammar<'_>,
    tree: &CellTree,
    names: &mut Names,
    text: &[u8],
    tokens: &[Token],
    sentences: &[Sentence],
) -> Result<Vec<Rule>, DefFault>
    requires tokens { AreTokens text.now tokens.now }
    requires rules { AllByRecursion IsRuleSentence sentences.now }
    requires few { length sentences.now ≤ 1024 }
    ensures ok { IfOk result (λ rules. AreWrittenRules grammar.now tree.now text.now tokens.now names.old sentences.now rules.items names.new) }
    ensures fault { IfErr result (λ fault. (fault ≡ WantOfMemory)
        ⊎ IsFirstBad grammar.now tree.now text.now tokens.now names.old 1 sentences.now fault) }
{
    let mut rules = Vec::new(alloc);
    let mut number = 0;
    for sentence in sentences {
        number += 1;
        let rule = match read_one(alloc, grammar, tree, names, text, tokens, sentence, number) {
            Ok(rule) => rule,
            Err(fault) => return Err(fault),
        };
        let Ok(()) = rules.push(rule) else {
            return Err(DefFault::Memory);
        };
    }
    Ok(rules)
}

/// Adds the rules that drafts are completed to.
fn complete_all(
    alloc: Global,
    tree: &CellTree,
    drafts: &[Draft],
    rules: &mut Vec<Rule>,
) -> Result<(), DefFault>
    requires written { AllByRecursion (IsWrittenDraft tree.now) drafts.now }
    requires few { length rules.old.items + length drafts.now ≤ 1024 }
    ensures ok { IfOk result (λ _. (found : List RuleOf) × AreCompleted tree.now drafts.now found × (rules.new.items ≡ rules.old.items ++ found)) }
    ensures fault { IfErr result (λ fault. (fault ≡ WantOfMemory)
        ⊎ ((why : Unclear) × (fault ≡ OfCells why) × IsFirstUnclear tree.now (length rules.old.items + 1) drafts.now why)) }
{
    let mut number = rules.len() as u32;
    for draft in drafts {
        number += 1;
        let rule = match complete(alloc, tree, draft, number) {
            Ok(rule) => rule,
            Err(refusal) => return Err(unclear_fault(refusal)),
        };
        let Ok(()) = rules.push(rule) else {
            return Err(DefFault::Memory);
        };
    }
    Ok(())
}

/// The rules of rule sentences over a grammar for rules, and behind them those of drafts.
fn rules_by(
    alloc: Global,
    grammar: &RuleGrammar<'_>,
    tree: &CellTree,
    names: &mut Names,
    text: &[u8],
    tokens: &[Token],
    sentences: &[Sentence],
    drafts: &[Draft],
) -> Result<Vec<Rule>, DefFault>
    requires tokens { AreTokens text.now tokens.now }
    requires rules { AllByRecursion IsRuleSentence sentences.now }
    requires written { AllByRecursion (IsWrittenDraft tree.now) drafts.now }
    requires few { length sentences.now + length drafts.now ≤ 1024 }
    ensures ok { IfOk result (λ rules. AreAllRules grammar.now tree.now text.now tokens.now names.old sentences.now drafts.now rules.items names.new) }
    ensures fault { IfErr result (λ fault. (fault ≡ WantOfMemory)
        ⊎ IsFirstFault grammar.now tree.now text.now tokens.now names.old sentences.now drafts.now fault) }
{
    let mut rules = match read_rules(alloc, grammar, tree, names, text, tokens, sentences) {
        Ok(rules) => rules,
        Err(fault) => return Err(fault),
    };
    match complete_all(alloc, tree, drafts, &mut rules) {
        Ok(()) => Ok(rules),
        Err(fault) => Err(fault),
    }
}

/// The same over the grammar of a definition.
pub(crate) fn all_rules(
    alloc: Global,
    grammar: &Grammar,
    tree: &CellTree,
    names: &mut Names,
    text: &[u8],
    tokens: &[Token],
    sentences: &[Sentence],
    drafts: &[Draft],
) -> Result<Vec<Rule>, DefFault>
    requires tokens { AreTokens text.now tokens.now }
    requires rules { AllByRecursion IsRuleSentence sentences.now }
    requires written { AllByRecursion (IsWrittenDraft tree.now) drafts.now }
    requires few { length sentences.now + length drafts.now ≤ 1024 }
    ensures ok { IfOk result (λ rules. AreAllRules (with_builtins grammar.now) tree.now text.now tokens.now names.old sentences.now drafts.now rules.items names.new) }
    ensures fault { IfErr result (λ fault. (fault ≡ WantOfMemory)
        ⊎ IsFirstFault (with_builtins grammar.now) tree.now text.now tokens.now names.old sentences.now drafts.now fault) }
{
    let Ok(for_rules) = grammar.for_rules(alloc) else {
        return Err(DefFault::Memory);
    };
    let Ok(reader) = RuleGrammar::new(alloc, &for_rules) else {
        return Err(DefFault::Memory);
    };
    match rules_by(alloc, &reader, tree, names, text, tokens, sentences, drafts) {
        Ok(rules) => Ok(rules),
        Err(fault) => Err(fault),
    }
}
