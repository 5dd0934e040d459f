//! The cells of a configuration.
ghost use Rattle.std.specs.Prelude.{◌≡◌, ◌≤◌, ℕ, List, length, MatchResult, IfOk, is_some};
ghost use Rattle.cell_forms.specs.Forms.{IsForm, IsFormFault};
ghost use Rattle.cell_forms.specs.Steps.{shown as cells_shown, inside_of as inside_in, takes_cell as takes_one, is_whole as whole_is, open_step as step_open, close_step as step_close, other_step as step_other, step as stepped};
ghost use Rattle.cell_forms.specs.Reading.{IsReadUpTo, IsToldAt, stop_at};

use crate::form::{CellForm, FormFault, Sign, Stop};
use crate::state::{Level, State, form_of, nothing, same_name, step};
use k_terms::{Many, Memory, Text};
use std::alloc::Global;

/// The number of the innermost open cell.
fn inside_of(state: &State) -> Option<usize>
    ensures { result ≡ inside_in state.now }
{
    match &state.level {
        Level::Opened { .. } => Some(state.cells.len()),
        _ => state.around.innermost(),
    }
}

/// Whether an opening tag can follow.
fn takes_cell(state: &State) -> bool
    ensures { result ≡ takes_one state.now }
{
    match &state.level {
        Level::Start => true,
        Level::Opened { content, .. } => !*content,
        Level::Among => true,
        Level::End => false,
    }
}

fn is_whole(state: &State) -> bool
    ensures { result ≡ whole_is state.now }
{
    match &state.level {
        Level::End => true,
        _ => false,
    }
}

/// The cells whose opening tags are read.
fn shown(state: State) -> Result<Many<CellForm>, Memory>
    ensures { IfOk result (λ cells. cells ≡ cells_shown state) }
{
    let State {
        mut cells,
        level,
        ..
    } = state;
    match level {
        Level::Opened { tag, .. } => {
            cells.push(form_of(tag, None))?;
            Ok(cells)
        }
        _ => Ok(cells),
    }
}

/// Whether an opening tag can follow, of a cell that may occur more than once or not.
fn can_open(state: &State, many: bool) -> bool
    ensures { (name : List ℕ) (at : ℕ) → result ≡ is_some (step_open state.now name many at) }
{
    match &state.level {
        Level::Start => !many,
        Level::Opened { content, .. } => !*content,
        Level::Among => true,
        Level::End => false,
    }
}

/// Whether a closing tag of this name can follow.
fn can_close(state: &State, name: &Text) -> bool
    ensures { (at : ℕ) → result ≡ is_some (step_close state.now name.now at) }
{
    match &state.level {
        Level::Opened { tag, content } => {
            if !*content {
                return false;
            }
            same_name(&tag.name, name)
        }
        Level::Among => state.around.is_within(name),
        _ => false,
    }
}

/// Whether any other token can follow.
fn takes_other(state: &State) -> bool
    ensures { result ≡ is_some (step_other state.now) }
{
    match &state.level {
        Level::Opened { .. } => true,
        _ => false,
    }
}

/// Whether a token can follow.
fn can_follow(state: &State, sign: &Sign) -> bool
    ensures { (at : ℕ) → result ≡ is_some (stepped state.now at sign.now) }
{
    match sign {
        Sign::Open { many, .. } => can_open(state, *many),
        Sign::Close { name } => can_close(state, name),
        Sign::Other => takes_other(state),
    }
}

/// How far tokens are read, and what is read there.
fn read_signs(alloc: Global, signs: &[Sign]) -> Result<(usize, State), Memory>
    ensures { IfOk result (λ read. IsReadUpTo signs.now read.0 read.1) }
{
    let mut state = nothing(alloc);
    for (at, sign) in signs.iter().enumerate() {
        if !can_follow(&state, sign) {
            return Ok((at, state));
        }
        let Some(next) = step(alloc, state, at, sign)? else {
            return Err(Memory);
        };
        state = next;
    }
    Ok((signs.len(), state))
}

/// Where no configuration goes on, by what is read there.
fn stop_of(at: usize, state: State) -> Result<Stop, Memory>
    ensures { IfOk result (λ stop. stop ≡ stop_at at state) }
{
    let inside = inside_of(&state);
    let takes_cell = takes_cell(&state);
    Ok(Stop {
        at,
        cells: shown(state)?,
        inside,
        takes_cell,
    })
}

fn fault_of(at: usize, state: State) -> FormFault
    ensures { IsToldAt at state result }
{
    match stop_of(at, state) {
        Ok(stop) => FormFault::Stop(stop),
        Err(Memory) => FormFault::Memory,
    }
}

/// Reads a configuration, given by what its tokens are to cells: one cell that occurs once, in which each cell holds cells, or
/// a content of one token or more. Cells nest as deep as the tokens; the time is linear in the tokens, and in the bytes of the
/// names of the cells.
pub fn read_form(alloc: Global, signs: &[Sign]) -> Result<Many<CellForm>, FormFault>
    ensures { MatchResult result (IsForm signs.now) (IsFormFault signs.now) }
{
    let Ok((at, state)) = read_signs(alloc, signs) else {
        return Err(FormFault::Memory);
    };
    if at < signs.len() {
        return Err(fault_of(at, state));
    }
    if is_whole(&state) {
        return Ok(state.cells);
    }
    Err(fault_of(at, state))
}
