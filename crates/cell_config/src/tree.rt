//! The cells of a configuration as a tree.
ghost use Rattle.std.specs.Prelude.{◌≡◌, ◌≤◌, ◌<◌, length, map, IfOk, IfSome, MatchOption, None};
ghost use Rattle.std.specs.List.{AllByRecursion};
ghost use Rattle.cell_trees.specs.Trees.{literal_sort as sort_of_literal, kind_of_content as content_kind, kind_of as kind_of_held};
ghost use Rattle.cell_config.specs.Refusals.{first_some, program_of as sort_of_program};
ghost use Rattle.cell_config.specs.Cells.{shape_of as shape_in, IsTreeOf};
ghost use Rattle.cell_config.specs.Trees.{helds_of as helds_in, HasProgramAt, HasFewBefore, MakesTree, IsOne, IsOnlyTree};

use crate::division::{ConfigCell, Division};
use crate::refusals::program_of;
use cell_trees::{CellTree, Declared};
use k_terms::{Content, Many, Memory, Value, copy_text, sort};
use rule_terms::{CellShape, Kind};
use std::alloc::Global;

fn literal_sort(value: &Value) -> u32
    ensures { result ≡ sort_of_literal value.now }
{
    match value {
        Value::Int(_) => sort::INT,
        Value::Bool(_) => sort::BOOL,
        Value::Str(_) => sort::STRING,
        _ => sort::KITEM,
    }
}

fn content_kind(content: &Content) -> Kind
    ensures { result ≡ content_kind content.now }
{
    match content {
        Content::Cells => Kind::Cells,
        Content::Seq(_) => Kind::Seq,
        Content::Map(_) => Kind::Map,
        Content::List(_) => Kind::List,
        Content::One(value) => Kind::One(literal_sort(value)),
    }
}

/// What a cell contains, by what it declares.
fn kind_of(held: &Option<Declared>) -> Kind
    ensures { result ≡ kind_of_held held.now }
{
    let Some(declared) = held else {
        return Kind::Cells;
    };
    match declared {
        Declared::Program { .. } => Kind::Seq,
        Declared::Input => Kind::List,
        Declared::Fixed(content) => content_kind(content),
    }
}

fn parent_of(parent: Option<usize>) -> Option<u32>
    requires { IfSome parent (λ number. number < 64) }
    ensures { result ≡ parent }
{
    match parent {
        Some(number) => Some(number as u32),
        None => None,
    }
}

fn shape_of(alloc: Global, cell: &ConfigCell) -> Result<CellShape, Memory>
    requires { HasFewBefore cell.now }
    ensures { IfOk result (λ shape. shape ≡ shape_in cell.now) }
{
    Ok(CellShape {
        name: copy_text(alloc, &cell.name)?,
        parent: parent_of(cell.parent),
        many: cell.many,
        kind: kind_of(&cell.held),
    })
}

fn shapes_of(alloc: Global, cells: &[ConfigCell]) -> Result<Many<CellShape>, Memory>
    requires { AllByRecursion HasFewBefore cells.now }
    ensures { IfOk result (λ shapes. shapes ≡ map shape_in cells.now) }
{
    let mut shapes = Many::new(alloc);
    for cell in cells {
        shapes.push(shape_of(alloc, cell)?)?;
    }
    Ok(shapes)
}

/// What each cell declares.
fn helds_of(alloc: Global, cells: Many<ConfigCell>) -> Result<Many<Option<Declared>>, Memory>
    ensures { IfOk result (λ helds. helds ≡ helds_in cells) }
{
    let mut helds = Many::new(alloc);
    for cell in cells.into_vec() {
        let ConfigCell {
            name: _,
            parent: _,
            many: _,
            held,
        } = cell;
        helds.push(held)?;
    }
    Ok(helds)
}

/// The number of the first cell with the program, and the sort of programs.
fn first_program(cells: &[ConfigCell]) -> Option<(u32, u32)>
    requires { length cells.now ≤ 64 }
    ensures { MatchOption result (first_some sort_of_program cells.now ≡ None) (λ found. HasProgramAt cells.now found.0 found.1) }
{
    for (number, cell) in cells.iter().enumerate() {
        if let Some(sort) = program_of(cell) {
            return Some((number as u32, sort));
        }
    }
    None
}

/// The tree of cells that make one.
fn tree_of(alloc: Global, cells: Many<ConfigCell>) -> Result<CellTree, Memory>
    requires { MakesTree cells }
    ensures { IfOk result (IsTreeOf cells) }
{
    let shapes = shapes_of(alloc, cells.as_slice())?;
    let Some((k, sort)) = first_program(cells.as_slice()) else {
        unreachable!()
    };
    let helds = helds_of(alloc, cells)?;
    Ok(CellTree::new(shapes, helds, k, sort))
}

/// The tree of the one configuration.
pub(crate) fn only_tree(alloc: Global, divisions: Many<Division>) -> Result<CellTree, Memory>
    requires { IsOne divisions }
    ensures { IfOk result (IsOnlyTree divisions) }
{
    let mut divisions = divisions.into_vec();
    let Some(division) = divisions.pop() else {
        unreachable!()
    };
    let Division { cells, place: _ } = division;
    let tree = tree_of(alloc, cells)?;
    Ok(tree)
}
