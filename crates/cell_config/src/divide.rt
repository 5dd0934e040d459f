//! What the text of a configuration is.
ghost use Rattle.std.specs.Prelude.{IfOk};
ghost use Rattle.k_lexer.specs.Before.{AllStand};
ghost use Rattle.cell_forms.specs.Forms.{IsForm, IsStop};
ghost use Rattle.cell_config.specs.Divisions.{signs_of as signs_in, IsDivision};

use crate::contents::read_contents;
use crate::division::Division;
use crate::places::{content_place, stop_place};
use crate::signs::signs_of;
use cell_forms::{CellForm, FormFault, Stop, read_form};
use cell_tokens::CellToken;
use grammar_terms::Grammar;
use k_lexer::Token;
use k_terms::Memory;
use std::alloc::Global;

/// Where the tokens have these cells.
fn divide_whole(
    alloc: Global,
    grammar: &Grammar,
    text: &[u8],
    base: &[Token],
    tokens: &[CellToken],
    forms: &[CellForm],
) -> Result<Division, Memory>
    requires stand { AllStand text.now base.now }
    requires form { IsForm (signs_in tokens.now) forms.now }
    ensures { IfOk result (IsDivision grammar.now text.now base.now tokens.now) }
{
    let (cells, bad) = read_contents(alloc, grammar, tokens, forms)?;
    let Some(number) = bad else {
        return Ok(Division { cells, place: None });
    };
    let place = content_place(alloc, text, base, tokens, forms, Some(number))?;
    Ok(Division {
        cells,
        place: Some(place),
    })
}

/// Where the cells of the tokens stop.
fn divide_stopped(
    alloc: Global,
    grammar: &Grammar,
    text: &[u8],
    base: &[Token],
    tokens: &[CellToken],
    stop: &Stop,
) -> Result<Division, Memory>
    requires stand { AllStand text.now base.now }
    requires stop { IsStop (signs_in tokens.now) stop.now }
    ensures { IfOk result (IsDivision grammar.now text.now base.now tokens.now) }
{
    let forms = stop.cells.as_slice();
    let (cells, bad) = read_contents(alloc, grammar, tokens, forms)?;
    let Some(number) = bad else {
        let place = stop_place(alloc, text, base, tokens, stop)?;
        return Ok(Division {
            cells,
            place: Some(place),
        });
    };
    let place = content_place(alloc, text, base, tokens, forms, Some(number))?;
    Ok(Division {
        cells,
        place: Some(place),
    })
}

/// What the text of a configuration with these base tokens is, which are split into these tokens.
pub(crate) fn divide(
    alloc: Global,
    grammar: &Grammar,
    text: &[u8],
    base: &[Token],
    tokens: &[CellToken],
) -> Result<Division, Memory>
    requires { AllStand text.now base.now }
    ensures { IfOk result (IsDivision grammar.now text.now base.now tokens.now) }
{
    let signs = signs_of(alloc, tokens)?;
    match read_form(alloc, signs.as_slice()) {
        Ok(forms) => divide_whole(alloc, grammar, text, base, tokens, forms.as_slice()),
        Err(FormFault::Stop(stop)) => divide_stopped(alloc, grammar, text, base, tokens, &stop),
        Err(FormFault::Memory) => Err(Memory),
    }
}
