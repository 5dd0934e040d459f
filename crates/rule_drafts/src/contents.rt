//! The contents of cells.
ghost use Rattle.std.specs.Prelude.{◌≡◌, ◌++◌, drop, length, option_copied, IfOk};
ghost use Rattle.std.specs.List.{flat_map};
ghost use Rattle.rule_parts.specs.Parts.{seen_parts};
ghost use Rattle.rule_drafts.specs.Bodies.{dots_occurrence, dots_before, dots_behind, nested_faults};
ghost use Rattle.rule_drafts.specs.Cells.{kind_of as kind_in, reading_at as reading_in, parts_of as parts_by, first_token as token_first, operator_at as operator_in, content_occurrences, event_occurrences, content_body as body_in, side_faults_at, event_faults};

use crate::bodies::body_of;
use crate::events::Event;
use crate::faults::{add_nested, add_side};
use crate::reading::{Reading, Tag};
use grammar_terms::Shape;
use k_terms::{Memory, sort};
use rule_parts::{
    Leaf, Occurrence, Part, Productions, Side, add_form, add_variables, leaves_from, whole_sort,
};
use rule_terms::{Body, CellShape, Kind};
use std::alloc::Global;

/// What a declared cell contains.
pub(crate) fn kind_of(cells: &[CellShape], cell: u32) -> Kind
    ensures { result ≡ kind_in cells.now cell }
{
    match cells.get(cell as usize) {
        Some(shape) => shape.kind,
        None => Kind::Cells,
    }
}

/// The reading of the content at a token.
fn reading_at(readings: &[Reading], first: usize) -> Option<&Reading>
    ensures { option_copied result ≡ reading_in readings.now first }
{
    for reading in readings {
        if reading.first == first {
            return Some(reading);
        }
    }
    None
}

/// The content's first token, with a `...` before it.
fn first_token(tag: Tag, first: usize) -> usize
    ensures { result ≡ token_first tag first }
{
    if tag.left_dots {
        first.saturating_sub(1)
    } else {
        first
    }
}

/// The first token of the first term of an operator.
fn operator_at(readings: &[Reading], first: usize) -> Option<usize>
    ensures { result ≡ operator_in (reading_in readings.now first) }
{
    match reading_at(readings, first) {
        Some(reading) => reading.operator,
        None => None,
    }
}

/// Adds the parts of a content.
fn add_content<'a>(
    grammar: &Productions,
    cells: &[CellShape],
    readings: &'a [Reading],
    side: Side,
    tag: Tag,
    first: usize,
    parts: &mut Vec<Part<&'a Shape>>,
) -> Result<(), Memory>
    ensures { IfOk result (λ _. seen_parts parts.new.items
        ≡ seen_parts parts.old.items ++ parts_by (kind_in cells.now tag.cell) (length grammar.now.arguments) side (reading_in readings.now first)) }
{
    match reading_at(readings, first) {
        Some(reading) => add_form(
            kind_of(cells, tag.cell),
            grammar.arguments.len(),
            side,
            reading.form,
            &reading.shape,
            parts,
        ),
        None => Ok(()),
    }
}

/// Adds the rest of a `...`.
fn add_dots(tag: Tag, sort: u32, is_left: bool, found: &mut Vec<Occurrence>) -> Result<(), Memory>
    ensures { IfOk result (λ _. found.new.items ≡ found.old.items ++ dots_occurrence tag sort is_left) }
{
    found.push(Occurrence {
        at: tag.start,
        home: tag.start,
        sort,
        is_left,
        is_stray: false,
    })?;
    Ok(())
}

/// Adds the rest of a `...` that stands before what a cell contains.
fn add_dots_before(
    tag: Tag,
    sort: u32,
    is_left: bool,
    found: &mut Vec<Occurrence>,
) -> Result<(), Memory>
    ensures { IfOk result (λ _. found.new.items ≡ found.old.items ++ dots_before tag sort is_left) }
{
    if tag.left_dots {
        return add_dots(tag, sort, is_left, found);
    }
    Ok(())
}

/// Adds the rest of a `...` that stands behind it alone.
fn add_dots_behind(
    tag: Tag,
    sort: u32,
    is_left: bool,
    found: &mut Vec<Occurrence>,
) -> Result<(), Memory>
    ensures { IfOk result (λ _. found.new.items ≡ found.old.items ++ dots_behind tag sort is_left) }
{
    if tag.right_dots && !tag.left_dots {
        return add_dots(tag, sort, is_left, found);
    }
    Ok(())
}

/// Adds the variables of a content.
fn add_occurrences(
    alloc: Global,
    grammar: &Productions,
    leaves: &[Leaf],
    cells: &[CellShape],
    readings: &[Reading],
    side: Side,
    tag: Tag,
    first: usize,
    found: &mut Vec<Occurrence>,
) -> Result<(), Memory>
    ensures { IfOk result (λ _. found.new.items
        ≡ found.old.items ++ content_occurrences grammar.now leaves.now cells.now readings.now side tag first) }
{
    let kind = kind_of(cells, tag.cell);
    let mut parts = Vec::new(alloc);
    add_content(grammar, cells, readings, side, tag, first, &mut parts)?;
    add_dots_before(tag, whole_sort(kind), side.is_left(), found)?;
    add_variables(grammar, leaves_from(leaves, first), kind, &parts, found)?;
    add_dots_behind(tag, whole_sort(kind), side.is_left(), found)
}

/// Adds the variables that stand at a place.
fn add_event_occurrences(
    alloc: Global,
    grammar: &Productions,
    leaves: &[Leaf],
    cells: &[CellShape],
    readings: &[Reading],
    event: &Event,
    found: &mut Vec<Occurrence>,
) -> Result<(), Memory>
    ensures { IfOk result (λ _. found.new.items
        ≡ found.old.items ++ event_occurrences grammar.now leaves.now cells.now readings.now event.now) }
{
    match event {
        Event::Begin(side, tag) => add_dots_before(*tag, sort::BAG, side.is_left(), found),
        Event::End(side, tag) => add_dots_behind(*tag, sort::BAG, side.is_left(), found),
        Event::Content(side, tag, first) => {
            add_occurrences(
                alloc, grammar, leaves, cells, readings, *side, *tag, *first, found,
            )
        }
        Event::Inner(_) => Ok(()),
    }
}

/// Adds the variables of all places.
pub(crate) fn add_all_occurrences(
    alloc: Global,
    grammar: &Productions,
    leaves: &[Leaf],
    cells: &[CellShape],
    readings: &[Reading],
    events: &[Event],
    found: &mut Vec<Occurrence>,
) -> Result<(), Memory>
    ensures { IfOk result (λ _. found.new.items
        ≡ found.old.items ++ flat_map (event_occurrences grammar.now leaves.now cells.now readings.now) events.now) }
{
    for event in events {
        add_event_occurrences(alloc, grammar, leaves, cells, readings, event, found)?;
    }
    Ok(())
}

/// What a cell contains on a side.
pub(crate) fn content_body(
    alloc: Global,
    grammar: &Productions,
    leaves: &[Leaf],
    cells: &[CellShape],
    readings: &[Reading],
    vars: &[Occurrence],
    on_left: bool,
    side: Side,
    tag: Tag,
    first: usize,
) -> Result<Body, Memory>
    ensures { IfOk result (λ body. body
        ≡ body_in grammar.now leaves.now cells.now readings.now vars.now on_left side tag first) }
{
    let mut parts = Vec::new(alloc);
    add_content(grammar, cells, readings, side, tag, first, &mut parts)?;
    let kind = kind_of(cells, tag.cell);
    body_of(
        alloc,
        grammar,
        leaves_from(leaves, first),
        vars,
        tag,
        on_left,
        &parts,
        kind,
    )
}

/// Adds where the form of a content is none of a rule, on a side.
fn add_side_faults(
    alloc: Global,
    grammar: &Productions,
    leaves: &[Leaf],
    cells: &[CellShape],
    readings: &[Reading],
    vars: &[Occurrence],
    on_left: bool,
    side: Side,
    tag: Tag,
    first: usize,
    faults: &mut Vec<usize>,
) -> Result<(), Memory>
    ensures { IfOk result (λ _. faults.new.items
        ≡ faults.old.items ++ side_faults_at grammar.now leaves.now cells.now readings.now vars.now on_left side tag first) }
{
    if !side.stands(on_left) {
        return Ok(());
    }
    let mut parts = Vec::new(alloc);
    add_content(grammar, cells, readings, side, tag, first, &mut parts)?;
    let kind = kind_of(cells, tag.cell);
    let operator = operator_at(readings, first);
    let leaves = leaves_from(leaves, first);
    let first = first_token(tag, first);
    add_side(
        alloc, grammar, leaves, vars, tag, on_left, &parts, kind, first, operator, faults,
    )
}

/// Adds the changes of a content that stand within others.
fn add_changes(
    alloc: Global,
    grammar: &Productions,
    leaves: &[Leaf],
    cells: &[CellShape],
    readings: &[Reading],
    side: Side,
    tag: Tag,
    first: usize,
    faults: &mut Vec<usize>,
) -> Result<(), Memory>
    ensures { IfOk result (λ _. faults.new.items
        ≡ faults.old.items ++ nested_faults (drop first leaves.now) (token_first tag first)
        (parts_by (kind_in cells.now tag.cell) (length grammar.now.arguments) side (reading_in readings.now first))) }
{
    let mut parts = Vec::new(alloc);
    add_content(grammar, cells, readings, side, tag, first, &mut parts)?;
    add_nested(
        leaves_from(leaves, first),
        first_token(tag, first),
        &parts,
        faults,
    )
}

/// Adds where the form of what stands at a place is none of a rule.
fn add_event_faults(
    alloc: Global,
    grammar: &Productions,
    leaves: &[Leaf],
    cells: &[CellShape],
    readings: &[Reading],
    vars: &[Occurrence],
    event: &Event,
    faults: &mut Vec<usize>,
) -> Result<(), Memory>
    ensures { IfOk result (λ _. faults.new.items
        ≡ faults.old.items ++ event_faults grammar.now leaves.now cells.now readings.now vars.now event.now) }
{
    match event {
        Event::Begin(_, _) | Event::End(_, _) => Ok(()),
        Event::Content(side, tag, first) => {
            add_changes(
                alloc, grammar, leaves, cells, readings, *side, *tag, *first, faults,
            )?;
            add_side_faults(
                alloc, grammar, leaves, cells, readings, vars, true, *side, *tag, *first, faults,
            )?;
            add_side_faults(
                alloc, grammar, leaves, cells, readings, vars, false, *side, *tag, *first, faults,
            )
        }
        Event::Inner(at) => {
            faults.push(*at)?;
            Ok(())
        }
    }
}

/// Adds where the form of what stands at any place is none of a rule.
pub(crate) fn add_all_faults(
    alloc: Global,
    grammar: &Productions,
    leaves: &[Leaf],
    cells: &[CellShape],
    readings: &[Reading],
    vars: &[Occurrence],
    events: &[Event],
    faults: &mut Vec<usize>,
) -> Result<(), Memory>
    ensures { IfOk result (λ _. faults.new.items
        ≡ faults.old.items ++ flat_map (event_faults grammar.now leaves.now cells.now readings.now vars.now) events.now) }
{
    for event in events {
        add_event_faults(alloc, grammar, leaves, cells, readings, vars, event, faults)?;
    }
    Ok(())
}
