//! The sentences of a definition.
ghost use Rattle.std.specs.Prelude.{◌≡◌, ◌⊎◌, IfOk, IfErr};
ghost use Rattle.k_lexer.specs.Lexing.{AreTokens};
ghost use Rattle.definition_syntax.specs.declared.fault.SyntaxFault.TheVariants.{Memory as WantOfMemory};
ghost use Rattle.definition_syntax.specs.Syntaxes.{AreOnlySentences, IsOnlyFault};

use crate::fault::{SyntaxFault, lex_fault, module_fault};
use k_lexer::{Token, tokens};
use module_reader::{Sentence, read_modules};
use std::alloc::Global;

/// The sentences of a definition, with the tokens of its text.
#[derive(Drop)]
pub(crate) struct Sentences {
    pub tokens: Vec<Token>,
    pub sentences: Vec<Sentence>,
}

/// The sentences of the modules of a text.
fn closed(alloc: Global, text: &[u8], tokens: Vec<Token>) -> Result<Sentences, SyntaxFault>
    requires { AreTokens text.now tokens.items }
    ensures ok { IfOk result (λ it. AreOnlySentences text.now it.tokens.items it.sentences.items) }
    ensures fault { IfErr result (λ fault. (fault ≡ WantOfMemory) ⊎ IsOnlyFault text.now fault) }
{
    let modules = match read_modules(alloc, text, tokens.as_slice()) {
        Ok(modules) => modules,
        Err(fault) => return Err(module_fault(fault)),
    };
    let Ok(sentences) = modules.sentences(alloc) else {
        return Err(SyntaxFault::Memory);
    };
    Ok(Sentences { tokens, sentences })
}

/// The sentences of a text.
pub(crate) fn sentences_of(alloc: Global, text: &[u8]) -> Result<Sentences, SyntaxFault>
    ensures ok { IfOk result (λ it. AreOnlySentences text.now it.tokens.items it.sentences.items) }
    ensures fault { IfErr result (λ fault. (fault ≡ WantOfMemory) ⊎ IsOnlyFault text.now fault) }
{
    match tokens(alloc, text) {
        Ok(tokens) => closed(alloc, text, tokens),
        Err(fault) => Err(lex_fault(fault)),
    }
}
