//! The grammar for rules, with what is read by it made once.
ghost use Rattle.std.specs.Prelude.{◌≡◌, ◌⊎◌, IfOk, IfErr, cond};
ghost use Rattle.rule_contents.specs.declared.reading.ContentFault.TheVariants.{Memory as WantOfMemory};
ghost use Rattle.rule_contents.specs.Contents.{with_content};
ghost use Rattle.rule_contents.specs.Readings.{IsContent, IsContentFault};
ghost use Rattle.rule_parts.specs.Productions.{productions_of};

use grammar_terms::{Grammar, Shape, Word};
use k_terms::Memory;
use rule_contents::{ContentFault, ContentGrammar, Form, read_content};
use rule_parts::{Productions, productions};
use rule_terms::Kind;
use rule_tokens::Terminals;
use std::alloc::Global;
use std::marker::Model;

/// A grammar for rules, to read rules by.
#[derive(Drop)]
pub struct RuleGrammar<'g> {
    pub(crate) rules: &'g Grammar,
    pub(crate) terminals: Terminals<'g>,
    pub(crate) productions: Productions,
    sequences: ContentGrammar,
    maps: ContentGrammar,
    lists: ContentGrammar,
}

impl<'g> Model for RuleGrammar<'g> {
    ghost use Rattle.std.specs.Prelude.{◌≡◌};
    ghost use Rattle.grammar_terms.specs.Grammar.{Syntax};
    ghost use Rattle.program_tokens.specs.Terminals.{AreSame, terminals as terminals_of_grammar};
    ghost use Rattle.rule_terms.specs.declared.defs.Kind.TheVariants.{Seq, Map, List as Listed};
    ghost use Rattle.rule_contents.specs.Contents.{with_content};
    ghost use Rattle.rule_parts.specs.Productions.{productions_of};

    ghost Value = { Syntax };

    ghost view = { λ grammar. grammar.rules.now };

    ghost invariant = { λ grammar. AreSame grammar.terminals (terminals_of_grammar grammar.rules.now)
        × (grammar.productions ≡ productions_of grammar.rules.now)
        × (grammar.sequences ≡ record { grammar = with_content grammar.rules.now Seq; kind = Seq })
        × (grammar.maps ≡ record { grammar = with_content grammar.rules.now Map; kind = Map })
        × (grammar.lists ≡ record { grammar = with_content grammar.rules.now Listed; kind = Listed }) };
}

impl<'g> RuleGrammar<'g> {
    /// What rules are read by, over a grammar for rules. The time is linear in the grammar.
    pub fn new(alloc: Global, rules: &'g Grammar) -> Result<RuleGrammar<'g>, Memory>
        ensures { IfOk result (λ grammar. grammar ≡ rules.now) }
    {
        Ok(RuleGrammar {
            rules,
            terminals: Terminals::new(alloc, rules)?,
            productions: productions(alloc, rules)?,
            sequences: ContentGrammar::new(alloc, rules, Kind::Seq)?,
            maps: ContentGrammar::new(alloc, rules, Kind::Map)?,
            lists: ContentGrammar::new(alloc, rules, Kind::List)?,
        })
    }

    /// The one reading of a content of a cell of a kind that has no grammar at hand.
    fn read_other(
        &self,
        alloc: Global,
        kind: Kind,
        is_new: bool,
        words: &[Word],
    ) -> Result<(Form, Shape), ContentFault>
        ensures ok { IfOk result (λ read. IsContent (with_content self.now kind) kind is_new words.now read.0 read.1) }
        ensures fault { IfErr result (λ fault. (fault ≡ WantOfMemory) ⊎ IsContentFault (with_content self.now kind) kind is_new words.now fault) }
    {
        let Ok(grammar) = ContentGrammar::new(alloc, self.rules, kind) else {
            return Err(ContentFault::Memory);
        };
        read_content(alloc, &grammar, is_new, words)
    }

    /// The one reading of a content of a cell of a kind.
    pub(crate) fn read_content(
        &self,
        alloc: Global,
        kind: Kind,
        is_new: bool,
        words: &[Word],
    ) -> Result<(Form, Shape), ContentFault>
        ensures ok { IfOk result (λ read. IsContent (with_content self.now kind) kind is_new words.now read.0 read.1) }
        ensures fault { IfErr result (λ fault. (fault ≡ WantOfMemory) ⊎ IsContentFault (with_content self.now kind) kind is_new words.now fault) }
    {
        match kind {
            Kind::Seq => read_content(alloc, &self.sequences, is_new, words),
            Kind::Map => read_content(alloc, &self.maps, is_new, words),
            Kind::List => read_content(alloc, &self.lists, is_new, words),
            Kind::Cells => self.read_other(alloc, kind, is_new, words),
            Kind::One(_) => self.read_other(alloc, kind, is_new, words),
        }
    }
}
