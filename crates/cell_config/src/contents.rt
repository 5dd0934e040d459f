//! What the cells of a configuration declare.
ghost use Rattle.std.specs.Prelude.{◌≡◌, IfOk, MatchResult};
ghost use Rattle.cell_config.specs.Divisions.{Holds, cell_of as cell_with};
ghost use Rattle.cell_config.specs.Reading.{IsHeldFault, AreRead};

use crate::division::ConfigCell;
use crate::places::between;
use cell_contents::{ContentFault, read_content};
use cell_forms::CellForm;
use cell_tokens::CellToken;
use cell_trees::Declared;
use grammar_terms::Grammar;
use k_terms::{Many, Memory, copy_text};
use std::alloc::Global;

/// What a cell declares, nothing where it holds cells.
fn read_held(
    alloc: Global,
    grammar: &Grammar,
    tokens: &[CellToken],
    form: &CellForm,
) -> Result<Option<Declared>, ContentFault>
    ensures { MatchResult result (Holds grammar.now tokens.now form.now.content) (IsHeldFault grammar.now tokens.now form.now) }
{
    let Some((first, past)) = form.content else {
        return Ok(None);
    };
    match read_content(alloc, grammar, between(tokens, first, past)) {
        Ok(declared) => Ok(Some(declared)),
        Err(fault) => Err(fault),
    }
}

/// The cell of a form that declares this.
fn cell_of(alloc: Global, form: &CellForm, held: Option<Declared>) -> Result<ConfigCell, Memory>
    ensures { IfOk result (λ cell. cell ≡ cell_with form.now held) }
{
    Ok(ConfigCell {
        name: copy_text(alloc, &form.name)?,
        parent: form.parent,
        many: form.many,
        held,
    })
}

/// The cells of forms, up to the first whose content is none, and the number of that one.
pub(crate) fn read_contents(
    alloc: Global,
    grammar: &Grammar,
    tokens: &[CellToken],
    forms: &[CellForm],
) -> Result<(Many<ConfigCell>, Option<usize>), Memory>
    ensures { IfOk result (λ read. AreRead grammar.now tokens.now forms.now read.0 read.1) }
{
    let mut cells = Many::new(alloc);
    for (number, form) in forms.iter().enumerate() {
        match read_held(alloc, grammar, tokens, form) {
            Ok(held) => cells.push(cell_of(alloc, form, held)?)?,
            Err(ContentFault::NoContent) => {
                cells.push(cell_of(alloc, form, None)?)?;
                return Ok((cells, Some(number)));
            }
            Err(ContentFault::Memory) => return Err(Memory),
        }
    }
    Ok((cells, None))
}
