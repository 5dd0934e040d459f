//! What was read of a body, token by token.
ghost use Rattle.std.specs.Prelude.{◌≡◌, ◌<◌, ◌^◌, ◌-◌, true, IfOk};
ghost use Rattle.std.specs.Option.{option_and_then};
ghost use Rattle.rule_cells.specs.declared.mark.Mark.TheVariants.{Rewrite};
ghost use Rattle.rule_terms.specs.Sound.{has_cells as kind_has_cells};
ghost use Rattle.rule_cells.specs.Written.{is_of_cells as cell_is_of_cells};
ghost use Rattle.rule_cells.specs.Steps.{going_on as goes_on, content_on as content_goes_on, dots_on as dots_go_on, is_content as opens_content, opening_of as cell_opening, side_of as side_by, bracket_item as item_of_bracket, cell_item as item_of_cell, tag_item as item_of_tag, nothing as nothing_read, add_item as item_added, enter as entered, leave_to as left_to, reopen as reopened, item_step as stepped_item, plain_step as stepped_plain, step as stepped, side_read as read_side};

use crate::dots::{Dots, begun, dotted, left_of, right_of};
use crate::form::{Cell, Inside, Item, Side};
use crate::level::{Level, Opening};
use crate::mark::Mark;
use crate::stack::Stack;
use k_terms::{Many, Memory};
use rule_terms::{CellShape, Kind};
use std::alloc::Global;

/// The innermost level, and those around it.
#[derive(Debug, Drop)]
pub(crate) struct State {
    pub(crate) level: Level,
    pub(crate) outer: Stack,
}

/// Nothing is read.
pub(crate) fn nothing(alloc: Global) -> State
    ensures { result ≡ nothing_read }
{
    State {
        level: Level {
            opening: Opening::Body,
            before: None,
            items: Many::new(alloc),
        },
        outer: Stack::new(alloc),
    }
}

fn has_cells(kind: Kind) -> bool
    ensures { result ≡ kind_has_cells kind }
{
    match kind {
        Kind::Cells => true,
        _ => false,
    }
}

/// Whether a cell is declared as one of cells.
fn is_of_cells(cells: &[CellShape], cell: u32) -> bool
    ensures { result ≡ cell_is_of_cells cells.now cell }
{
    match cells.get(cell as usize) {
        Some(shape) => has_cells(shape.kind),
        None => false,
    }
}

/// Where an item follows, if it can.
fn going_on(opening: Opening) -> Option<Opening>
    ensures { result ≡ goes_on opening }
{
    match opening {
        Opening::Body => Some(Opening::Body),
        Opening::Bracket { start } => Some(Opening::Bracket { start }),
        Opening::Cells { cell, start, dots } => match begun(dots) {
            Some(dots) => Some(Opening::Cells { cell, start, dots }),
            None => None,
        },
        Opening::Content { .. } => None,
    }
}

fn is_content(opening: Opening) -> bool
    ensures { result ≡ opens_content opening }
{
    match opening {
        Opening::Content { .. } => true,
        _ => false,
    }
}

/// Where a token of a content follows, if it can.
fn content_on(opening: Opening, at: usize) -> Option<Opening>
    requires { at < 2 ^ 64 - 1 }
    ensures { result ≡ content_goes_on opening at }
{
    let Opening::Content {
        cell,
        start,
        dots,
        first,
        ..
    } = opening
    else {
        return None;
    };
    let past = at + 1;
    match dots {
        Dots::Fresh => Some(Opening::Content {
            cell,
            start,
            dots: Dots::Inside { left: false },
            first: at,
            past,
        }),
        Dots::Alone => Some(Opening::Content {
            cell,
            start,
            dots: Dots::Inside { left: true },
            first: at,
            past,
        }),
        Dots::Inside { left } => Some(Opening::Content {
            cell,
            start,
            dots: Dots::Inside { left },
            first,
            past,
        }),
        Dots::After { .. } => None,
    }
}

/// Where `...` follows in a cell with a content, if it can.
fn content_dots(opening: Opening, at: usize) -> Option<Opening>
    requires { opens_content opening ≡ true }
    ensures { result ≡ dots_go_on opening at }
{
    let Opening::Content {
        cell,
        start,
        dots,
        first,
        past,
    } = opening
    else {
        return None;
    };
    match dots {
        Dots::Fresh => Some(Opening::Content {
            cell,
            start,
            dots: Dots::Alone,
            first,
            past,
        }),
        Dots::Alone => Some(Opening::Content {
            cell,
            start,
            dots: Dots::After { left: true },
            first: at,
            past: at,
        }),
        Dots::Inside { left } => Some(Opening::Content {
            cell,
            start,
            dots: Dots::After { left },
            first,
            past,
        }),
        Dots::After { .. } => None,
    }
}

/// Where `...` follows, if it can.
fn dots_on(opening: Opening, at: usize) -> Option<Opening>
    ensures { result ≡ dots_go_on opening at }
{
    match opening {
        Opening::Body => None,
        Opening::Bracket { .. } => None,
        Opening::Cells { cell, start, dots } => match dotted(dots) {
            Some(dots) => Some(Opening::Cells { cell, start, dots }),
            None => None,
        },
        Opening::Content {
            cell,
            start,
            dots,
            first,
            past,
        } => content_dots(
            Opening::Content {
                cell,
                start,
                dots,
                first,
                past,
            },
            at,
        ),
    }
}

/// What the opening tag of a cell opens.
fn opening_of(cells: &[CellShape], cell: u32, at: usize) -> Opening
    requires { at < 2 ^ 64 - 1 }
    ensures { result ≡ cell_opening cells.now cell at }
{
    if is_of_cells(cells, cell) {
        return Opening::Cells {
            cell,
            start: at,
            dots: Dots::Fresh,
        };
    }
    Opening::Content {
        cell,
        start: at,
        dots: Dots::Fresh,
        first: at + 1,
        past: at + 1,
    }
}

fn side_of(before: Option<Many<Item>>, items: Many<Item>) -> Side
    ensures { result ≡ side_by before items }
{
    match before {
        None => Side::Same(items),
        Some(left) => Side::Change(left, items),
    }
}

/// The item that a level is which a bracket closes.
fn bracket_item(level: Level) -> Option<Item>
    ensures { result ≡ item_of_bracket level }
{
    let Level {
        opening,
        before,
        items,
    } = level;
    let Opening::Bracket { start } = opening else {
        return None;
    };
    match before {
        Some(left) => Some(Item::Change {
            start,
            left,
            right: items,
        }),
        None => None,
    }
}

/// A cell as an item, if this is its closing tag.
fn cell_item(cell: u32, start: usize, dots: Dots, inside: Inside, tag: u32) -> Option<Item>
    ensures { result ≡ item_of_cell cell start dots inside tag }
{
    if cell != tag {
        return None;
    }
    Some(Item::Cell(Cell {
        cell,
        start,
        left_dots: left_of(dots),
        right_dots: right_of(dots),
        inside,
    }))
}

/// The item that a level is which the closing tag of a cell closes.
fn tag_item(level: Level, tag: u32) -> Option<Item>
    ensures { result ≡ item_of_tag level tag }
{
    let Level {
        opening,
        before,
        items,
    } = level;
    match opening {
        Opening::Body => None,
        Opening::Bracket { .. } => None,
        Opening::Cells { cell, start, dots } => {
            let inside = Inside::Cells(side_of(before, items));
            cell_item(cell, start, dots, inside, tag)
        }
        Opening::Content {
            cell,
            start,
            dots,
            first,
            past,
        } => cell_item(cell, start, dots, Inside::Content { first, past }, tag),
    }
}

/// What is read with an item more, if it can follow.
fn add_item(state: State, item: Item) -> Result<Option<State>, Memory>
    ensures { IfOk result (λ next. next ≡ item_added state item) }
{
    let State { level, outer } = state;
    let Level {
        opening,
        before,
        mut items,
    } = level;
    let Some(opening) = going_on(opening) else {
        return Ok(None);
    };
    items.push(item)?;
    Ok(Some(State {
        level: Level {
            opening,
            before,
            items,
        },
        outer,
    }))
}

/// What is read behind `=>`, if that can follow.
fn behind_arrow(alloc: Global, state: State) -> Option<State>
    ensures { result ≡ stepped_item state 0 Rewrite }
{
    let State { level, outer } = state;
    let Level {
        opening,
        before,
        items,
    } = level;
    let None = before else {
        return None;
    };
    let Some(opening) = going_on(opening) else {
        return None;
    };
    Some(State {
        level: Level {
            opening,
            before: Some(items),
            items: Many::new(alloc),
        },
        outer,
    })
}

/// What is read where a level is opened, if one can be.
fn enter(alloc: Global, state: State, opening: Opening) -> Result<Option<State>, Memory>
    ensures { IfOk result (λ next. next ≡ entered state opening) }
{
    let State { level, mut outer } = state;
    let Level {
        opening: around,
        before,
        items,
    } = level;
    let Some(around) = going_on(around) else {
        return Ok(None);
    };
    outer.push(Level {
        opening: around,
        before,
        items,
    })?;
    Ok(Some(State {
        level: Level {
            opening,
            before: None,
            items: Many::new(alloc),
        },
        outer,
    }))
}

/// What is read where the level around takes the innermost one as an item.
fn leave(outer: Stack, item: Option<Item>) -> Result<Option<State>, Memory>
    ensures { IfOk result (λ next. next ≡ option_and_then (left_to outer) item) }
{
    let mut outer = outer;
    let Some(item) = item else {
        return Ok(None);
    };
    let Some(around) = outer.pop() else {
        return Ok(None);
    };
    let Level {
        opening,
        before,
        mut items,
    } = around;
    items.push(item)?;
    Ok(Some(State {
        level: Level {
            opening,
            before,
            items,
        },
        outer,
    }))
}

/// What is read where the opening has become this one, if there is one.
fn reopen(state: State, opening: Option<Opening>) -> Option<State>
    ensures { result ≡ reopened state opening }
{
    let Some(opening) = opening else {
        return None;
    };
    let State { level, outer } = state;
    let Level { before, items, .. } = level;
    Some(State {
        level: Level {
            opening,
            before,
            items,
        },
        outer,
    })
}

/// What is read with a token more among items, if it can follow.
fn item_step(alloc: Global, state: State, at: usize, mark: Mark) -> Result<Option<State>, Memory>
    ensures { IfOk result (λ next. next ≡ stepped_item state at mark) }
{
    match mark {
        Mark::Rewrite => Ok(behind_arrow(alloc, state)),
        Mark::Bag => add_item(state, Item::Nothing { at }),
        Mark::Dot => add_item(state, Item::Nothing { at }),
        Mark::LeftBracket => enter(alloc, state, Opening::Bracket { start: at }),
        Mark::RightBracket => {
            let State { level, outer } = state;
            leave(outer, bracket_item(level))
        }
        _ => Ok(None),
    }
}

/// What is read with a token more that is no tag and no `...`, if it can follow.
fn plain_step(alloc: Global, state: State, at: usize, mark: Mark) -> Result<Option<State>, Memory>
    requires { at < 2 ^ 64 - 1 }
    ensures { IfOk result (λ next. next ≡ stepped_plain state at mark) }
{
    let opening = state.level.opening;
    if is_content(opening) {
        return Ok(reopen(state, content_on(opening, at)));
    }
    item_step(alloc, state, at, mark)
}

/// What is read with a token more, which has this number, if it can follow.
pub(crate) fn step(
    alloc: Global,
    cells: &[CellShape],
    state: State,
    at: usize,
    mark: Mark,
) -> Result<Option<State>, Memory>
    requires { at < 2 ^ 64 - 1 }
    ensures { IfOk result (λ next. next ≡ stepped cells.now state at mark) }
{
    match mark {
        Mark::Open(cell) => enter(alloc, state, opening_of(cells, cell, at)),
        Mark::Close(cell) => {
            let State { level, outer } = state;
            leave(outer, tag_item(level, cell))
        }
        Mark::Dots => {
            let opening = state.level.opening;
            Ok(reopen(state, dots_on(opening, at)))
        }
        _ => plain_step(alloc, state, at, mark),
    }
}

/// What the body is, where nothing is open.
pub(crate) fn side_read(state: State) -> Option<Side>
    ensures { result ≡ read_side state }
{
    let State { level, .. } = state;
    let Level {
        opening,
        before,
        items,
    } = level;
    match opening {
        Opening::Body => Some(side_of(before, items)),
        _ => None,
    }
}
