//! What the tokens of a content declare.
ghost use Rattle.std.specs.Prelude.{IfOk, MatchOption, MatchResult};
ghost use Rattle.cell_trees.specs.declared.declared.Declared.{Declared as DeclaredOf};
ghost use Rattle.cell_contents.specs.Contents.{IsDeclared, IsContentFault};

use crate::alone::alone;
use crate::chosen::content_in;
use crate::fault::ContentFault;
use crate::words::words_of;
use cell_tokens::CellToken;
use cell_trees::Declared;
use grammar_terms::Grammar;
use k_terms::Memory;
use std::alloc::Global;

/// What tokens declare, where they have a form of a content.
fn declared_in(
    alloc: Global,
    grammar: &Grammar,
    tokens: &[CellToken],
) -> Result<Option<Declared>, Memory>
    ensures { IfOk result (λ found. MatchOption found ((declared : DeclaredOf) → IsDeclared grammar.now tokens.now declared → ⊥) (IsDeclared grammar.now tokens.now)) }
{
    if let Some(declared) = alone(alloc, tokens)? {
        return Ok(Some(declared));
    }
    let words = words_of(alloc, tokens)?;
    match content_in(alloc, grammar, words.as_slice())? {
        Some(content) => Ok(Some(Declared::Fixed(content))),
        None => Ok(None),
    }
}

/// Reads the content of a cell, given by its tokens: `$PGM:S`, `$IN:List`, an empty content, one literal; or items, entries or
/// members that have just one reading, over the declared productions of a grammar, where no key stands twice and no value is
/// deeper than 400. The time is that of `all_readings` for each run of tokens that can be an item.
pub fn read_content(
    alloc: Global,
    grammar: &Grammar,
    tokens: &[CellToken],
) -> Result<Declared, ContentFault>
    ensures { MatchResult result (IsDeclared grammar.now tokens.now) (IsContentFault grammar.now tokens.now) }
{
    match declared_in(alloc, grammar, tokens) {
        Ok(Some(declared)) => Ok(declared),
        Ok(None) => Err(ContentFault::NoContent),
        Err(Memory) => Err(ContentFault::Memory),
    }
}
