ghost use Rattle.std.specs.Prelude.{◌≡◌, ◌<◌, IfOk};
ghost use Rattle.cell_completion.specs.Sample.{sample_shapes, written_two};

use cell_completion::{CompletionFault, Tree, Written, complete_cells};
use k_terms::{Many, Memory, Text};
use rule_terms::{CellShape, Kind};
use std::alloc::Global;
use std::test::Fail;

fn shape(
    alloc: Global,
    name: &[u8],
    parent: Option<u32>,
    many: bool,
    kind: Kind,
) -> Result<CellShape, Memory>
    ensures { IfOk result (λ shape. shape ≡ record { name = name.now; parent = parent; many = many; kind = kind }) }
{
    Ok(CellShape {
        name: Text::from_vec(Vec::from_slice(alloc, name)?),
        parent,
        many,
        kind,
    })
}

fn shapes(alloc: Global) -> Result<Many<CellShape>, Memory>
    ensures { IfOk result (λ shapes. shapes ≡ sample_shapes) }
{
    let mut shapes = Many::new(alloc);
    shapes.push(shape(alloc, b"T", None, false, Kind::Cells)?)?;
    shapes.push(shape(alloc, b"thread", Some(0), true, Kind::Cells)?)?;
    shapes.push(shape(alloc, b"k", Some(1), false, Kind::Seq)?)?;
    shapes.push(shape(alloc, b"env", Some(1), false, Kind::Map)?)?;
    shapes.push(shape(alloc, b"store", Some(0), false, Kind::Map)?)?;
    Ok(shapes)
}

fn written(alloc: Global, one: u32, other: u32, both: bool) -> Result<Many<Written>, Memory>
    ensures { IfOk result (λ written. written ≡ written_two one other both) }
{
    let mut written = Many::new(alloc);
    written.push(Written {
        mark: 0,
        cell: one,
        above: None,
        both: true,
    })?;
    written.push(Written {
        mark: 1,
        cell: other,
        above: None,
        both,
    })?;
    Ok(written)
}

/// A tree: its declared cell, `#` with its mark where it is written, and the trees in it.
fn show(alloc: Global, tree: &Tree, line: &mut String) -> Result<(), Memory> {
    let cell = tree.cell;
    line.push_str(&format!(in alloc; "{cell}")?)?;
    if let Some(mark) = tree.mark {
        line.push_str(&format!(in alloc; "#{mark}")?)?;
    }
    line.push_str("(")?;
    for inner in tree.inside.as_slice() {
        line.push_str(" ")?;
        show(alloc, inner, line)?;
    }
    Ok(line.push_str(")")?)
}

/// What two written cells are completed to, the second of which is on both sides or not.
fn shown(alloc: Global, one: u32, other: u32, both: bool) -> Result<String, Memory>
    requires one { one < 5 }
    requires other { other < 5 }
{
    let shapes = shapes(alloc)?;
    let cells = written(alloc, one, other, both)?;
    let mut line = String::new(alloc);
    match complete_cells(alloc, shapes.as_slice(), cells.as_slice()) {
        Ok(tree) => show(alloc, &tree, &mut line)?,
        Err(CompletionFault::Misplaced { cell }) => {
            line.push_str(&format!(in alloc; "misplaced {cell}")?)?;
        }
        Err(CompletionFault::Unclear) => line.push_str("unclear")?,
        Err(CompletionFault::Memory) => return Err(Memory),
    }
    Ok(line)
}

/// The cells are T (0), thread* (1) in it with k (2) and env (3), and store (4) in T.
#[test]
fn completes_cells(rt: HostRuntime) -> Result<(), Fail> {
    let alloc = rt.alloc();
    let mut line = String::new(alloc);
    // one thread around two cells that have room in it, and one around each where they have not
    line.push_str(shown(alloc, 2, 3, true)?.as_str())?;
    line.push_str("; ")?;
    line.push_str(shown(alloc, 2, 2, true)?.as_str())?;
    line.push_str("; ")?;
    // in the order of the declaration, and not in that of the text
    line.push_str(shown(alloc, 4, 3, true)?.as_str())?;
    line.push_str("; ")?;
    // a thread that comes, and a cell that may not come alone
    line.push_str(shown(alloc, 3, 1, false)?.as_str())?;
    line.push_str("; ")?;
    line.push_str(shown(alloc, 4, 3, false)?.as_str())?;
    line.push_str("; ")?;
    // a cell that isn't repeated, twice
    line.push_str(shown(alloc, 4, 4, true)?.as_str())?;
    assert_eq!(rt;
        line.as_str(),
        "0( 1( 2#0() 3#1())); 0( 1( 2#0()) 1( 2#1())); 0( 1( 3#1()) 4#0()); 0( 1( 3#0()) 1#1()); misplaced 3; unclear"
    );
    Ok(())
}
