//! What was read of a configuration, token by token.
ghost use Rattle.std.specs.Prelude.{◌≡◌, ◌<◌, ◌^◌, ◌-◌, ◌++◌, ◌∷◌, [], None, IfOk};
ghost use Rattle.std.specs.Str.{bytes_eq};
ghost use Rattle.cell_forms.specs.Steps.{IsInRange, nothing as nothing_read, form_of as form_in, closed as closed_behind, opened as opened_in, entered, left as left_in, leave as left_to, close_content as closed_content, open_step as step_open, close_step as step_close, other_step as step_other, step as stepped};

use crate::form::{CellForm, Sign};
use crate::stack::{Opening, Stack};
use k_terms::{Many, Memory, Text, copy_text};
use std::alloc::Global;

/// An opening tag, by its number among the tokens, with the number of the cell around it.
#[derive(Debug, Drop)]
pub(crate) struct Tag {
    pub(crate) name: Text,
    pub(crate) many: bool,
    pub(crate) at: usize,
    pub(crate) parent: Option<usize>,
}

/// Where the reader stands.
#[derive(Debug, Drop)]
pub(crate) enum Level {
    /// Nothing is read.
    Start,
    /// Behind an opening tag, and behind a token of a content or not.
    Opened { tag: Tag, content: bool },
    /// Behind a cell in another.
    Among,
    /// Behind all.
    End,
}

/// The cells that are read, but for the one at whose tag or in whose content the reader stands, and those open around.
#[derive(Debug, Drop)]
pub(crate) struct State {
    pub(crate) cells: Many<CellForm>,
    pub(crate) level: Level,
    pub(crate) around: Stack,
}

/// Nothing is read.
pub(crate) fn nothing(alloc: Global) -> State
    ensures { result ≡ nothing_read }
{
    State {
        cells: Many::new(alloc),
        level: Level::Start,
        around: Stack::new(alloc),
    }
}

/// The cell of a tag, with this content.
pub(crate) fn form_of(tag: Tag, content: Option<(usize, usize)>) -> CellForm
    ensures { result ≡ form_in tag content }
{
    let Tag {
        name,
        many,
        at,
        parent,
    } = tag;
    CellForm {
        name,
        many,
        tag: at,
        parent,
        content,
    }
}

/// Where the reader stands behind a cell.
fn closed(around: &Stack) -> Level
    ensures { result ≡ closed_behind around.now }
{
    match around.innermost() {
        Some(_) => Level::Among,
        None => Level::End,
    }
}

/// What is read behind an opening tag in these open cells.
fn opened(cells: Many<CellForm>, around: Stack, name: Text, many: bool, at: usize) -> State
    ensures { result ≡ opened_in cells around name many at }
{
    let parent = around.innermost();
    State {
        cells,
        level: Level::Opened {
            tag: Tag {
                name,
                many,
                at,
                parent,
            },
            content: false,
        },
        around,
    }
}

/// What is read behind an opening tag in the cell of another.
fn enter(
    alloc: Global,
    cells: Many<CellForm>,
    around: Stack,
    outer: Tag,
    name: Text,
    many: bool,
    at: usize,
) -> Result<State, Memory>
    ensures { IfOk result (λ next. next ≡ opened_in (cells ++ form_in outer None ∷ []) (entered cells around outer) name many at) }
{
    let mut cells = cells;
    let mut around = around;
    around.push(Opening {
        number: cells.len(),
        name: copy_text(alloc, &outer.name)?,
    })?;
    cells.push(form_of(outer, None))?;
    Ok(opened(cells, around, name, many, at))
}

/// What is read behind an opening tag, if it can follow.
fn open_step(
    alloc: Global,
    state: State,
    name: Text,
    many: bool,
    at: usize,
) -> Result<Option<State>, Memory>
    ensures { IfOk result (λ next. next ≡ step_open state name many at) }
{
    let State {
        cells,
        level,
        around,
    } = state;
    match level {
        Level::Start => {
            if many {
                return Ok(None);
            }
            Ok(Some(opened(cells, around, name, false, at)))
        }
        Level::Opened { tag, content } => {
            if content {
                return Ok(None);
            }
            Ok(Some(enter(alloc, cells, around, tag, name, many, at)?))
        }
        Level::Among => Ok(Some(opened(cells, around, name, many, at))),
        Level::End => Ok(None),
    }
}

pub(crate) fn same_name(one: &Text, other: &Text) -> bool
    ensures { result ≡ bytes_eq one.now other.now }
{
    one.as_slice() == other.as_slice()
}

/// What is read behind a whole cell.
fn left(cells: Many<CellForm>, around: Stack) -> State
    ensures { result ≡ left_in cells around }
{
    let level = closed(&around);
    State {
        cells,
        level,
        around,
    }
}

/// What is read where the innermost open cell is closed, if it has this name.
fn leave(cells: Many<CellForm>, around: Stack, name: &Text) -> Option<State>
    ensures { result ≡ left_to cells around name.now }
{
    let mut around = around;
    let Some(cell) = around.pop() else {
        return None;
    };
    if !same_name(&cell.name, name) {
        return None;
    }
    Some(left(cells, around))
}

/// What is read behind the closing tag of a cell with a content, if it has this name.
fn close_content(
    cells: Many<CellForm>,
    around: Stack,
    tag: Tag,
    name: &Text,
    at: usize,
) -> Result<Option<State>, Memory>
    requires { tag.at < 2 ^ 64 - 1 }
    ensures { IfOk result (λ next. next ≡ closed_content cells around tag name.now at) }
{
    let mut cells = cells;
    if !same_name(&tag.name, name) {
        return Ok(None);
    }
    let first = tag.at + 1;
    cells.push(form_of(tag, Some((first, at))))?;
    Ok(Some(left(cells, around)))
}

/// What is read behind a closing tag, if it can follow.
fn close_step(state: State, name: &Text, at: usize) -> Result<Option<State>, Memory>
    requires { IsInRange state }
    ensures { IfOk result (λ next. next ≡ step_close state name.now at) }
{
    let State {
        cells,
        level,
        around,
    } = state;
    match level {
        Level::Start => Ok(None),
        Level::Opened { tag, content } => {
            if !content {
                return Ok(None);
            }
            close_content(cells, around, tag, name, at)
        }
        Level::Among => Ok(leave(cells, around, name)),
        Level::End => Ok(None),
    }
}

/// What is read behind any other token, if it can follow.
fn other_step(state: State) -> Option<State>
    ensures { result ≡ step_other state }
{
    let State {
        cells,
        level,
        around,
    } = state;
    match level {
        Level::Opened { tag, .. } => Some(State {
            cells,
            level: Level::Opened { tag, content: true },
            around,
        }),
        _ => None,
    }
}

/// What is read with a token more, which has this number, if it can follow.
pub(crate) fn step(
    alloc: Global,
    state: State,
    at: usize,
    sign: &Sign,
) -> Result<Option<State>, Memory>
    requires { IsInRange state }
    ensures { IfOk result (λ next. next ≡ stepped state at sign.now) }
{
    match sign {
        Sign::Open { name, many } => open_step(alloc, state, copy_text(alloc, name)?, *many, at),
        Sign::Close { name } => close_step(state, name, at),
        Sign::Other => Ok(other_step(state)),
    }
}
