ghost use Rattle.std.specs.Prelude.{◌≡◌, [], None, IfOk};
ghost use Rattle.rule_terms.specs.declared.pattern.Body.{Seq};
ghost use Rattle.cell_trees.specs.Sample.{sample_shapes, sample_held};
ghost use Rattle.rule_completion.specs.Completed.{cell_with};
ghost use Rattle.rule_completion.specs.Sample.{sample_draft};

use cell_trees::{CellTree, Declared};
use k_terms::{Content, Many, Memory, Text, Value};
use rule_completion::complete_rule;
use rule_terms::{Body, CellPat, CellShape, Draft, Kind, Origin};
use std::alloc::Global;
use std::test::Fail;

fn shape(
    alloc: Global,
    name: &[u8],
    parent: Option<u32>,
    many: bool,
    kind: Kind,
) -> Result<CellShape, Memory>
    ensures { IfOk result (λ shape. shape ≡ record { name = name.now; parent = parent; many = many; kind = kind }) }
{
    Ok(CellShape {
        name: Text::from_vec(Vec::from_slice(alloc, name)?),
        parent,
        many,
        kind,
    })
}

fn shapes(alloc: Global) -> Result<Many<CellShape>, Memory>
    ensures { IfOk result (λ shapes. shapes ≡ sample_shapes) }
{
    let mut shapes = Many::new(alloc);
    shapes.push(shape(alloc, b"T", None, false, Kind::Cells)?)?;
    shapes.push(shape(alloc, b"thread", Some(0), true, Kind::Cells)?)?;
    shapes.push(shape(alloc, b"k", Some(1), false, Kind::Seq)?)?;
    shapes.push(shape(alloc, b"env", Some(1), false, Kind::Map)?)?;
    shapes.push(shape(alloc, b"in", Some(0), false, Kind::List)?)?;
    shapes.push(shape(alloc, b"n", Some(0), false, Kind::One(3))?)?;
    Ok(shapes)
}

fn held(alloc: Global) -> Result<Many<Option<Declared>>, Memory>
    ensures { IfOk result (λ held. held ≡ sample_held) }
{
    let mut held = Many::new(alloc);
    held.push(None)?;
    held.push(None)?;
    held.push(Some(Declared::Program { sort: 10 }))?;
    held.push(Some(Declared::Fixed(Content::Map(Many::new(alloc)))))?;
    held.push(Some(Declared::Input))?;
    held.push(Some(Declared::Fixed(Content::One(Value::Int(5)))))?;
    Ok(held)
}

fn empty_k(alloc: Global) -> CellPat
    ensures { result ≡ cell_with 2 0 (Seq [] None) }
{
    CellPat {
        cell: 2,
        mark: 0,
        body: Body::Seq(Many::new(alloc), None),
    }
}

/// `<k> . </k> (.Bag => <thread> </thread>)`
fn draft(alloc: Global) -> Result<Draft, Memory>
    ensures { IfOk result (λ draft. draft ≡ sample_draft) }
{
    let mut left = Many::new(alloc);
    left.push(empty_k(alloc))?;
    let mut right = Many::new(alloc);
    right.push(empty_k(alloc))?;
    right.push(CellPat {
        cell: 1,
        mark: 1,
        body: Body::Cells(Many::new(alloc), None),
    })?;
    Ok(Draft {
        origin: Origin::Written { at: 0 },
        vars: Many::new(alloc),
        left,
        right,
        when: Many::new(alloc),
    })
}

#[cycle(showing)]
fn show_cells(alloc: Global, line: &mut String, cells: &[CellPat]) -> Result<(), Memory> {
    for cell in cells {
        show_cell(alloc, line, cell)?;
    }
    Ok(())
}

/// A cell of a side: its declared cell, its mark and the cells in it, `..` before the variable of its rest.
#[cycle(showing)]
fn show_cell(alloc: Global, line: &mut String, cell: &CellPat) -> Result<(), Memory> {
    let number = cell.cell;
    let mark = cell.mark;
    line.push_str(&format!(in alloc; " {number}#{mark}(")?)?;
    if let Body::Cells(cells, rest) = &cell.body {
        show_cells(alloc, line, cells.as_slice())?;
        if let Some(rest) = rest {
            line.push_str(&format!(in alloc; " ..{rest}")?)?;
        }
    }
    Ok(line.push_str(")")?)
}

/// What the draft is completed to: both sides, and how many variables.
fn shown(alloc: Global) -> Result<String, Memory> {
    let tree = CellTree::new(shapes(alloc)?, held(alloc)?, 2, 10);
    let draft = draft(alloc)?;
    let mut line = String::new(alloc);
    let Ok(rule) = complete_rule(alloc, &tree, &draft) else {
        return Err(Memory);
    };
    show_cell(alloc, &mut line, &rule.left)?;
    line.push_str(" =>")?;
    show_cell(alloc, &mut line, &rule.right)?;
    let vars = rule.vars.len();
    line.push_str(&format!(in alloc; ", {vars}")?)?;
    Ok(line)
}

/// The root and one thread are added, each with a rest; the new thread has the declared cells.
#[test]
fn completes_rules(rt: HostRuntime) -> Result<(), Fail> {
    assert_eq!(rt;
        shown(rt.alloc())?.as_str(),
        " 0#1024( 1#1025( 2#0() ..1) ..0) => 0#1024( 1#1025( 2#0() ..1) 1#1( 2#1092() 3#1093()) ..0), 2"
    );
    Ok(())
}
