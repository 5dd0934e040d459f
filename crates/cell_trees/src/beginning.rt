ghost use Rattle.std.specs.Prelude.{◌≡◌, ◌+◌, ◌<◌, length, drop, map, IfOk, OnOk, option_copied, slice_get, Some};
ghost use Rattle.k_terms.specs.declared.value.Value.{Int};
ghost use Rattle.live_config.specs.Live.{with_cell};
ghost use Rattle.cell_trees.specs.Initials.{items_of as items_in, begins_with as begins, first_cell as first_cell_of, initial_of};

use crate::declared::Declared;
use crate::tree::CellTree;
use k_terms::{Content, Many, Memory, Value, copy, copy_values};
use live_config::{Cell, CellNo, Live, copy_content};
use rule_terms::CellShape;
use std::alloc::Global;

/// The items of a program.
fn items_of(alloc: Global, program: &Value) -> Result<Many<Value>, Memory>
    ensures { IfOk result (λ items. items ≡ items_in program.now) }
{
    if let Value::Seq(values) = program {
        return Ok(copy_values(alloc, values.as_slice())?);
    }
    let mut items = Vec::new(alloc);
    items.push(copy(alloc, program)?)?;
    Ok(Many::from_vec(items))
}

/// The numbers of the input as a list.
fn list_of(alloc: Global, input: &[i128]) -> Result<Many<Value>, Memory>
    ensures { IfOk result (λ list. list ≡ map (λ number. Int number) input.now) }
{
    let mut list = Vec::with_capacity(alloc, input.len())?;
    for number in input {
        list.push(Value::Int(*number))?;
    }
    Ok(Many::from_vec(list))
}

/// What a cell begins with that declares this.
fn begins_with(
    alloc: Global,
    program: &Value,
    input: &[i128],
    held: Option<&Declared>,
) -> Result<Content, Memory>
    ensures { IfOk result (λ content. content ≡ begins program.now input.now (option_copied held.entry)) }
{
    Ok(match held {
        None => Content::Cells,
        Some(Declared::Program { .. }) => Content::Seq(items_of(alloc, program)?),
        Some(Declared::Input) => Content::List(list_of(alloc, input)?),
        Some(Declared::Fixed(content)) => copy_content(alloc, content)?,
    })
}

/// The number of the cell of a declared one.
fn number_of(cell: u32) -> CellNo
    requires { cell < 64 }
    ensures { result ≡ record { 0 = cell + 1 } }
{
    CellNo(cell + 1)
}

/// The first cell of a declared one.
fn first_cell(
    alloc: Global,
    tree: &CellTree,
    program: &Value,
    input: &[i128],
    number: u32,
    shape: &CellShape,
) -> Result<Cell, Memory>
    requires { slice_get tree.now.shapes number ≡ Some shape.now }
    ensures { IfOk result (λ cell. cell ≡ first_cell_of tree.now program.now input.now number shape.now) }
{
    tree.sound();
    let parent = match shape.parent {
        Some(parent) => Some(number_of(parent)),
        None => None,
    };
    Ok(Cell {
        kind: number,
        parent,
        content: begins_with(alloc, program, input, tree.held(number))?,
    })
}

/// Puts a cell at a number.
fn put_cell(live: &mut Live, id: CellNo, cell: Cell) -> Result<(), Memory>
    ensures { OnOk result (live.new.now ≡ with_cell live.old.now id.0 cell) }
{
    live.room(1)?;
    live.put(id, cell);
    Ok(())
}

/// The configuration with one cell of each declared cell, numbered from 1 in their order. The cell `k` has the program: its
/// items where it is a sequence, else itself. Each cell with `$IN` has the whole input.
pub fn initial(alloc: Global, tree: &CellTree, pgm: &Value, input: &[i128]) -> Result<Live, Memory>
    ensures { IfOk result (λ live. live.now ≡ initial_of tree.now pgm.now input.now) }
{
    tree.sound();
    let mut live = Live::new(alloc);
    let shapes = tree.shapes();
    for number in (0..shapes.len() as u32).rev() {
        let cell = first_cell(alloc, tree, pgm, input, number, &shapes[number as usize])?;
        put_cell(&mut live, number_of(number), cell)?;
    }
    Ok(live)
}
