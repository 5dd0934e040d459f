ghost use Rattle.std.specs.Prelude.{◌≡◌, IfOk};
ghost use Rattle.rule_contents.specs.Contents.{with_content};

use crate::contents::content_prods;
use crate::numbers::numbers_of;
use grammar_terms::Grammar;
use k_terms::Memory;
use rule_terms::Kind;
use std::alloc::Global;

/// The grammar of the contents of a kind of cell.
#[derive(Debug, Drop)]
pub struct ContentGrammar {
    /// The grammar for rules, and the productions of contents behind it.
    pub grammar: Grammar,
    /// The kind of the cells.
    pub kind: Kind,
}

/// The grammar for rules with the productions of contents of a kind behind it.
pub fn content_grammar(alloc: Global, rules: &Grammar, kind: Kind) -> Result<Grammar, Memory>
    ensures { IfOk result (λ grammar. grammar ≡ with_content rules.now kind) }
{
    let numbers = numbers_of(rules)?;
    let prods = content_prods(alloc, numbers, kind)?;
    rules.with_more(alloc, prods.as_slice())
}

impl ContentGrammar {
    /// The grammar of the contents of a kind of cell, over a grammar for rules.
    pub fn new(alloc: Global, rules: &Grammar, kind: Kind) -> Result<ContentGrammar, Memory>
        ensures { IfOk result (λ it. it ≡ record { grammar = with_content rules.now kind; kind = kind }) }
    {
        Ok(ContentGrammar {
            grammar: content_grammar(alloc, rules, kind)?,
            kind,
        })
    }
}
