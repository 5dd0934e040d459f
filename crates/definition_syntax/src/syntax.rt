//! The definition that a text is, before its configuration and its rules are read.
ghost use Rattle.std.specs.Prelude.{◌≡◌, ◌⊎◌, IfOk, IfErr, List, ℕ, []};
ghost use Rattle.std.specs.List.{AllByRecursion};
ghost use Rattle.k_lexer.specs.Lexing.{AreTokens};
ghost use Rattle.grammar_terms.specs.Grammar.{Syntax};
ghost use Rattle.sorted_grammar.specs.Sorting.{IsGrammar, IsFault as IsSortFault};
ghost use Rattle.sorted_grammar.specs.declared.fault.SortFault.{SortFault as FaultOfSorts};
ghost use Rattle.program_tokens.specs.Base.{with_tokens};
ghost use Rattle.definition_syntax.specs.declared.fault.SyntaxFault.TheVariants.{Memory as WantOfMemory};
ghost use Rattle.definition_syntax.specs.Syntaxes.{AreOnlySentences, IsOnlyFault, IsOnlyDefinition};

use crate::fault::{SyntaxFault, sort_fault};
use crate::sentences::{Sentences, sentences_of};
use k_lexer::Token;
use k_terms::{Many, Memory, Names};
use module_reader::Sentence;
use program_tokens::number_tokens;
use sorted_grammar::{Grammar, read_grammar};
use std::alloc::Global;

/// A definition, before its configuration and its rules are read.
#[derive(Debug, Drop)]
pub struct Definition {
    /// The tokens of its text.
    pub tokens: Many<Token>,
    /// Its sentences: those of the modules that its last one imports, and its own.
    pub sentences: Many<Sentence>,
    /// Its sorts and productions.
    pub grammar: Grammar,
    /// The words of its text by their numbers.
    pub names: Names,
}

/// The words of a text by their numbers.
fn words_of(alloc: Global, text: &[u8], tokens: &[Token]) -> Result<Names, Memory>
    requires { AreTokens text.now tokens.now }
    ensures { IfOk result (λ names. names ≡ with_tokens text.now [] tokens.now) }
{
    let mut names = Names::new(alloc);
    number_tokens(alloc, &mut names, text, tokens)?;
    Ok(names)
}

/// The definition of sentences with this grammar.
fn definition_of(
    alloc: Global,
    text: &[u8],
    sentences: Sentences,
    grammar: Grammar,
) -> Result<Definition, SyntaxFault>
    requires are { AreOnlySentences text.now sentences.tokens.items sentences.sentences.items }
    requires grammar { IsGrammar sentences.sentences.items grammar }
    requires only { (other : Syntax) → IsGrammar sentences.sentences.items other → other ≡ grammar }
    requires no_fault { (fault : FaultOfSorts) → IsSortFault sentences.sentences.items fault → ⊥ }
    ensures ok { IfOk result (IsOnlyDefinition text.now) }
    ensures fault { IfErr result (λ fault. (fault ≡ WantOfMemory) ⊎ IsOnlyFault text.now fault) }
{
    let Ok(names) = words_of(alloc, text, sentences.tokens.as_slice()) else {
        return Err(SyntaxFault::Memory);
    };
    let Sentences { tokens, sentences } = sentences;
    Ok(Definition {
        tokens: Many::from_vec(tokens),
        sentences: Many::from_vec(sentences),
        grammar,
        names,
    })
}

/// The definition of a text, or its fault, of several the first in this order: that of its tokens, of its modules, of its
/// sorts and productions.
pub fn read_definition(alloc: Global, text: &[u8]) -> Result<Definition, SyntaxFault>
    ensures ok { IfOk result (IsOnlyDefinition text.now) }
    ensures fault { IfErr result (λ fault. (fault ≡ WantOfMemory) ⊎ IsOnlyFault text.now fault) }
{
    let sentences = match sentences_of(alloc, text) {
        Ok(sentences) => sentences,
        Err(fault) => return Err(fault),
    };
    match read_grammar(alloc, sentences.sentences.as_slice()) {
        Ok(grammar) => definition_of(alloc, text, sentences, grammar),
        Err(fault) => Err(sort_fault(fault)),
    }
}
