//! The text of a configuration as tokens.
ghost use Rattle.std.specs.Prelude.{◌≡◌, ℕ, List, drop, IfOk};
ghost use Rattle.k_lexer.specs.Before.{AllStand};
ghost use Rattle.program_tokens.specs.Base.{AllNumbered, with_tokens, GoesOn};
ghost use Rattle.program_tokens.specs.Terminals.{AreSame, terminals as terminals_of_grammar};
ghost use Rattle.cell_tokens.specs.Lookup.{AllWhole};
ghost use Rattle.cell_tokens.specs.CellTokens.{AreCellTokens, IsCellSplit, lexicon_with};

use crate::first::first_token;
use crate::terminals::Terminals;
use crate::token::CellToken;
use grammar_terms::Grammar;
use k_lexer::Token;
use k_terms::{Many, Memory, Names};
use program_tokens::number_tokens;
use std::alloc::Global;

/// The tokens of base tokens whose words are numbered.
fn read_tokens(
    alloc: Global,
    terminals: &Terminals<'_>,
    grammar: &Grammar,
    names: &Names,
    text: &[u8],
    tokens: &[Token],
) -> Result<Many<CellToken>, Memory>
    requires stand { AllStand text.now tokens.now }
    requires whole { AllWhole text.now tokens.now }
    requires numbered { AllNumbered text.now names.now tokens.now }
    ensures { IfOk result (λ found. AreCellTokens (lexicon_with terminals.now grammar.now names.now) text.now found tokens.now) }
{
    let mut found = Many::new(alloc);
    let mut at = 0;
    while at < tokens.len() {
        let (_, rest) = tokens.split_at(at);
        let next = first_token(alloc, terminals, grammar, names, text, rest)?;
        let Some(token) = next else {
            return Ok(found);
        };
        let size = token.size;
        found.push(token)?;
        at += size;
    }
    Ok(found)
}

/// The text of a configuration, given by its base tokens, as tokens, with the terminals of the grammar at hand. Its words are
/// added to the names, on `Err` some of them.
pub fn split_cells_by(
    alloc: Global,
    terminals: &Terminals<'_>,
    grammar: &Grammar,
    names: &mut Names,
    text: &[u8],
    tokens: &[Token],
) -> Result<Many<CellToken>, Memory>
    requires same { AreSame terminals.now (terminals_of_grammar grammar.now) }
    requires stand { AllStand text.now tokens.now }
    requires whole { AllWhole text.now tokens.now }
    ensures ok { IfOk result (IsCellSplit grammar.now names.old text.now tokens.now names.new) }
    ensures names { GoesOn names.old names.new }
{
    number_tokens(alloc, names, text, tokens)?;
    let found = read_tokens(alloc, terminals, grammar, names, text, tokens)?;
    Ok(found)
}

/// The text of a configuration, given by its base tokens, as tokens. Its words are added to the names, on `Err` some of
/// them. For many configurations of one grammar take `split_cells_by`.
pub fn split_cells(
    alloc: Global,
    grammar: &Grammar,
    names: &mut Names,
    text: &[u8],
    tokens: &[Token],
) -> Result<Many<CellToken>, Memory>
    requires stand { AllStand text.now tokens.now }
    requires whole { AllWhole text.now tokens.now }
    ensures ok { IfOk result (IsCellSplit grammar.now names.old text.now tokens.now names.new) }
    ensures names { GoesOn names.old names.new }
{
    let terminals = Terminals::new(alloc, grammar)?;
    split_cells_by(alloc, &terminals, grammar, names, text, tokens)
}
