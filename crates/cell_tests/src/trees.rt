ghost use Rattle.std.specs.Prelude.{◌≡◌, length, IfOk};
ghost use Rattle.cell_trees.specs.Sample.{sample_shapes, sample_held};

use cell_trees::{CellTree, Declared, defaults, initial};
use k_terms::{Content, Many, Memory, Text, Value};
use live_config::{CellNo, Live};
use rule_terms::{Body, CellPat, CellShape, Kind, Pattern};
use std::alloc::Global;
use std::test::Fail;

fn shape(
    alloc: Global,
    name: &[u8],
    parent: Option<u32>,
    many: bool,
    kind: Kind,
) -> Result<CellShape, Memory>
    ensures { IfOk result (λ shape. shape ≡ record { name = name.now; parent = parent; many = many; kind = kind }) }
{
    Ok(CellShape {
        name: Text::from_vec(Vec::from_slice(alloc, name)?),
        parent,
        many,
        kind,
    })
}

fn shapes(alloc: Global) -> Result<Many<CellShape>, Memory>
    ensures { IfOk result (λ shapes. shapes ≡ sample_shapes) }
{
    let mut shapes = Many::new(alloc);
    shapes.push(shape(alloc, b"T", None, false, Kind::Cells)?)?;
    shapes.push(shape(alloc, b"thread", Some(0), true, Kind::Cells)?)?;
    shapes.push(shape(alloc, b"k", Some(1), false, Kind::Seq)?)?;
    shapes.push(shape(alloc, b"env", Some(1), false, Kind::Map)?)?;
    shapes.push(shape(alloc, b"in", Some(0), false, Kind::List)?)?;
    shapes.push(shape(alloc, b"n", Some(0), false, Kind::One(3))?)?;
    Ok(shapes)
}

fn held(alloc: Global) -> Result<Many<Option<Declared>>, Memory>
    ensures { IfOk result (λ held. held ≡ sample_held) }
{
    let mut held = Many::new(alloc);
    held.push(None)?;
    held.push(None)?;
    held.push(Some(Declared::Program { sort: 10 }))?;
    held.push(Some(Declared::Fixed(Content::Map(Many::new(alloc)))))?;
    held.push(Some(Declared::Input))?;
    held.push(Some(Declared::Fixed(Content::One(Value::Int(5)))))?;
    Ok(held)
}

/// `<T> <thread multiplicity="*"> <k> $PGM:S </k> <env> .Map </env> </thread> <in> $IN:List </in> <n> 5 </n> </T>`
fn tree(alloc: Global) -> Result<CellTree, Memory>
    ensures { IfOk result (λ tree. length tree.shapes ≡ 6) }
{
    Ok(CellTree::new(shapes(alloc)?, held(alloc)?, 2, 10))
}

fn numbers(alloc: Global, line: &mut String, values: &[Value]) -> Result<(), Memory> {
    for value in values {
        match value {
            Value::Int(number) => line.push_str(&format!(in alloc; " {number}")?)?,
            _ => line.push_str(" ?")?,
        }
    }
    Ok(())
}

fn show_content(alloc: Global, line: &mut String, content: &Content) -> Result<(), Memory> {
    match content {
        Content::Cells => Ok(line.push_str(" cells")?),
        Content::Seq(values) => {
            line.push_str(" seq")?;
            numbers(alloc, line, values.as_slice())
        }
        Content::Map(entries) => {
            let count = entries.len();
            Ok(line.push_str(&format!(in alloc; " map of {count}")?)?)
        }
        Content::List(values) => {
            line.push_str(" list")?;
            numbers(alloc, line, values.as_slice())
        }
        Content::One(Value::Int(number)) => Ok(line.push_str(&format!(in alloc;
            " one {number}"
        )?)?),
        Content::One(_) => Ok(line.push_str(" one")?),
    }
}

/// Cells 1 to 7 of a configuration, each with its declared cell, its parent and its content.
fn shown(alloc: Global, live: &Live) -> Result<String, Memory> {
    let mut line = String::new(alloc);
    for number in 1..8 {
        if let Some(cell) = live.cell(CellNo(number)) {
            let kind = cell.kind;
            let parent = match cell.parent {
                Some(parent) => parent.0,
                None => 0,
            };
            line.push_str(&format!(in alloc; "{number}:{kind}^{parent}")?)?;
            show_content(alloc, &mut line, &cell.content)?;
            line.push_str(";")?;
        }
    }
    Ok(line)
}

/// A program that is a sequence gives its items, and any other is one.
#[test]
fn begins(rt: HostRuntime) -> Result<(), Fail> {
    let alloc = rt.alloc();
    let tree = tree(alloc)?;
    let live = initial(alloc, &tree, &Value::Int(7), &[3, -4])?;
    assert_eq!(rt;
        shown(alloc, &live)?.as_str(),
        "1:0^0 cells;2:1^1 cells;3:2^2 seq 7;4:3^2 map of 0;5:4^1 list 3 -4;6:5^1 one 5;"
    );
    let mut items = Many::new(alloc);
    items.push(Value::Int(1))?;
    items.push(Value::Int(2))?;
    let live = initial(alloc, &tree, &Value::Seq(items), &[])?;
    assert_eq!(rt;
        shown(alloc, &live)?.as_str(),
        "1:0^0 cells;2:1^1 cells;3:2^2 seq 1 2;4:3^2 map of 0;5:4^1 list;6:5^1 one 5;"
    );
    assert_eq!(rt; tree.pgm_sort(), 10);
    Ok(())
}

#[cycle(showing)]
fn show_cells(alloc: Global, line: &mut String, cells: &[CellPat]) -> Result<(), Memory> {
    for cell in cells {
        show_cell(alloc, line, cell)?;
    }
    Ok(())
}

/// A cell of a pattern: its declared cell, its mark and what is in it, `..` behind it where there is a rest.
#[cycle(showing)]
fn show_cell(alloc: Global, line: &mut String, cell: &CellPat) -> Result<(), Memory> {
    let number = cell.cell;
    let mark = cell.mark;
    line.push_str(&format!(in alloc; " {number}#{mark}(")?)?;
    match &cell.body {
        Body::Cells(cells, None) => show_cells(alloc, line, cells.as_slice())?,
        Body::Seq(parts, None) if parts.is_empty() => line.push_str(".K")?,
        Body::Map(entries, None) if entries.is_empty() => line.push_str(".Map")?,
        Body::List(before, None, after) if before.is_empty() && after.is_empty() => {
            line.push_str(".List")?;
        }
        Body::One(Pattern::Lit(Value::Int(number))) => {
            line.push_str(&format!(in alloc; "{number}")?)?;
        }
        _ => line.push_str("?")?,
    }
    Ok(line.push_str(")")?)
}

/// Declared cells as patterns.
#[test]
fn gives_defaults(rt: HostRuntime) -> Result<(), Fail> {
    let alloc = rt.alloc();
    let tree = tree(alloc)?;
    let mut line = String::new(alloc);
    show_cell(alloc, &mut line, &defaults(alloc, &tree, 1)?)?;
    show_cell(alloc, &mut line, &defaults(alloc, &tree, 0)?)?;
    assert_eq!(rt;
        line.as_str(),
        " 1#1( 2#2(.K) 3#3(.Map)) 0#0( 1#1( 2#2(.K) 3#3(.Map)) 4#4(.List) 5#5(5))"
    );
    Ok(())
}
