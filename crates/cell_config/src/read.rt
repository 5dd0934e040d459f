//! The configurations of a definition.
ghost use Rattle.std.specs.Prelude.{◌≡◌, ◌⊎◌, ◌++◌, ℕ, map, IfOk, IfErr};
ghost use Rattle.k_lexer.specs.Lexing.{AreTokens};
ghost use Rattle.k_lexer.specs.Before.{AllStand};
ghost use Rattle.program_tokens.specs.Base.{GoesOn};
ghost use Rattle.program_tokens.specs.Terminals.{AreSame, terminals as terminals_of_grammar};
ghost use Rattle.cell_tokens.specs.Lookup.{AllWhole};
ghost use Rattle.cell_config.specs.declared.refusal.CellRefusal.TheVariants.{Memory as WantOfMemory};
ghost use Rattle.cell_config.specs.Divisions.{between as part_of};
ghost use Rattle.cell_config.specs.Cells.{range_of as range_in, ranges_of as ranges_in, IsDivided, AreDivided, IsCells, IsCellRefusal};

use crate::divide::divide;
use crate::division::Division;
use crate::places::between;
use crate::refusal::CellRefusal;
use crate::refusals::refusal_of;
use crate::tree::only_tree;
use cell_forms::laws::tree as forms_are_trees;
use cell_tokens::{Terminals, split_cells_by};
use cell_trees::CellTree;
use file_reader::Sentence;
use grammar_terms::Grammar;
use k_lexer::Token;
use k_terms::{Many, Memory, Names};
use std::alloc::Global;

/// Adds the tokens of a configuration; another sentence has none.
fn add_range(sentence: &Sentence, ranges: &mut Vec<(usize, usize)>) -> Result<(), Memory>
    ensures { IfOk result (λ _. ranges.new.items ≡ ranges.old.items ++ range_in sentence.now) }
{
    match sentence {
        Sentence::Config { first, past } => {
            ranges.push((*first, *past))?;
            Ok(())
        }
        _ => Ok(()),
    }
}

/// The tokens of the configurations, each from one number up to another.
fn ranges_of(alloc: Global, sentences: &[Sentence]) -> Result<Vec<(usize, usize)>, Memory>
    ensures { IfOk result (λ ranges. ranges.items ≡ ranges_in sentences.now) }
{
    let mut ranges = Vec::new(alloc);
    for sentence in sentences {
        add_range(sentence, &mut ranges)?;
    }
    Ok(ranges)
}

/// What a configuration with these base tokens is.
fn read_one(
    alloc: Global,
    terminals: &Terminals<'_>,
    grammar: &Grammar,
    names: &mut Names,
    text: &[u8],
    base: &[Token],
) -> Result<Division, Memory>
    requires same { AreSame terminals.now (terminals_of_grammar grammar.now) }
    requires stand { AllStand text.now base.now }
    requires whole { AllWhole text.now base.now }
    ensures ok { IfOk result (IsDivided grammar.now text.now names.old base.now names.new) }
    ensures names { GoesOn names.old names.new }
{
    let tokens = split_cells_by(alloc, terminals, grammar, names, text, base)?;
    let division = divide(alloc, grammar, text, base, tokens.as_slice())?;
    Ok(division)
}

/// What the configurations with these tokens are.
fn read_ranges(
    alloc: Global,
    terminals: &Terminals<'_>,
    grammar: &Grammar,
    names: &mut Names,
    text: &[u8],
    tokens: &[Token],
    ranges: &[(usize, usize)],
) -> Result<Many<Division>, Memory>
    requires same { AreSame terminals.now (terminals_of_grammar grammar.now) }
    requires tokens { AreTokens text.now tokens.now }
    ensures ok { IfOk result (AreDivided grammar.now text.now names.old (map (λ range. part_of tokens.now range.0 range.1) ranges.now) names.new) }
    ensures names { GoesOn names.old names.new }
{
    let mut divisions = Many::new(alloc);
    for range in ranges {
        let base = between(tokens, range.0, range.1);
        let division = read_one(alloc, terminals, grammar, names, text, base)?;
        divisions.push(division)?;
    }
    Ok(divisions)
}

/// What the configurations among sentences are.
fn read_divisions(
    alloc: Global,
    grammar: &Grammar,
    names: &mut Names,
    text: &[u8],
    tokens: &[Token],
    sentences: &[Sentence],
) -> Result<Many<Division>, Memory>
    requires { AreTokens text.now tokens.now }
    ensures ok { IfOk result (AreDivided grammar.now text.now names.old (map (λ range. part_of tokens.now range.0 range.1) (ranges_in sentences.now)) names.new) }
    ensures names { GoesOn names.old names.new }
{
    let ranges = ranges_of(alloc, sentences)?;
    let terminals = Terminals::new(alloc, grammar)?;
    let divisions = read_ranges(alloc, &terminals, grammar, names, text, tokens, &ranges)?;
    Ok(divisions)
}

/// The declared cells of a definition's text, whose base tokens are `tokens`, by the configurations among its sentences; or why
/// there are none. Each word of the configurations has a number among the names then, on want of memory some of them. The time
/// is that of `read_content` for each cell with a content, and quadratic in the number of cells.
pub fn read_cells(
    alloc: Global,
    grammar: &Grammar,
    names: &mut Names,
    text: &[u8],
    tokens: &[Token],
    sentences: &[Sentence],
) -> Result<CellTree, CellRefusal>
    requires { AreTokens text.now tokens.now }
    ensures ok { IfOk result (IsCells grammar.now names.old text.now tokens.now sentences.now names.new) }
    ensures fault { IfErr result (λ refusal. (refusal ≡ WantOfMemory)
        ⊎ IsCellRefusal grammar.now names.old text.now tokens.now sentences.now names.new refusal) }
    ensures names { GoesOn names.old names.new }
{
    let Ok(divisions) = read_divisions(alloc, grammar, names, text, tokens, sentences) else {
        return Err(CellRefusal::Memory);
    };
    match refusal_of(alloc, divisions.as_slice()) {
        Ok(Some(refusal)) => return Err(refusal),
        Ok(None) => {}
        Err(Memory) => return Err(CellRefusal::Memory),
    }
    forms_are_trees();
    match only_tree(alloc, divisions) {
        Ok(tree) => Ok(tree),
        Err(Memory) => Err(CellRefusal::Memory),
    }
}
