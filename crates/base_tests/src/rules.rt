ghost use Rattle.std.specs.Prelude.{◌≡◌, ◌∷◌, [], Some, IfOk};
ghost use Rattle.rule_terms.specs.declared.pattern.Pattern.{Var, Node};
ghost use Rattle.rule_terms.specs.declared.pattern.Body.{Seq as SeqBody};
ghost use Rattle.rule_terms.specs.declared.rule.Origin.TheVariants.{Written};

use k_terms::{Many, Memory, Op, Sorts, Symbol, Text, Value};
use rule_terms::{
    Body, CellPat, CellShape, Cond, Defs, Kind, Origin, Pattern, Rule, copy_rule, equal_defs,
    equal_rule, left_cells, new_cells,
};
use std::alloc::Global;
use std::sync::Arc;
use std::test::Fail;

fn text(alloc: Global, bytes: &[u8]) -> Result<Text, Memory> {
    Ok(Text::from_vec(Vec::from_slice(alloc, bytes)?))
}

fn cell(cell: u32, mark: u32, body: Body) -> CellPat {
    CellPat { cell, mark, body }
}

/// A cell with mark 1 that contains a term of each kind, under another with mark 0.
fn left(alloc: Global, production: u32) -> Result<CellPat, Memory> {
    let mut inner = Many::new(alloc);
    inner.push(Pattern::Var(0))?;
    inner.push(Pattern::Lit(Value::Id(Symbol(7))))?;
    let mut parts = Many::new(alloc);
    parts.push(Pattern::Node(production, inner))?;
    parts.push(Pattern::Items(3, Many::new(alloc), Some(1)))?;
    parts.push(Pattern::Freezer(4, 2, Many::new(alloc)))?;
    let mut entries = Many::new(alloc);
    entries.push((Pattern::Var(0), Pattern::Seq(Many::new(alloc), None)))?;
    let mut cells = Many::new(alloc);
    cells.push(cell(1, 1, Body::Seq(parts, Some(2))))?;
    cells.push(cell(2, 2, Body::Map(entries, Some(3))))?;
    Ok(cell(0, 0, Body::Cells(cells, Some(4))))
}

/// The cell with mark 1 stays; one with mark 5 and two in it are new.
fn right(alloc: Global) -> Result<CellPat, Memory> {
    let mut new = Many::new(alloc);
    new.push(cell(4, 6, Body::One(Pattern::Var(0))))?;
    new.push(cell(5, 7, Body::List(Many::new(alloc), None, Many::new(alloc))))?;
    let mut cells = Many::new(alloc);
    cells.push(cell(3, 5, Body::Cells(new, None)))?;
    cells.push(cell(1, 1, Body::Made(Pattern::Var(0))))?;
    Ok(cell(0, 0, Body::Cells(cells, Some(4))))
}

/// A rule with this production on its left side, and this sort in its last condition.
fn rule(alloc: Global, production: u32, sort: u32) -> Result<Rule, Memory> {
    let mut when = Many::new(alloc);
    when.push(Cond::Holds(Pattern::Apply(Op::Not, Many::new(alloc))))?;
    when.push(Cond::NotSort(0, 2))?;
    when.push(Cond::IsSort(1, sort))?;
    Ok(Rule {
        origin: Origin::Heat { prod: 3, place: 1 },
        vars: Many::from_vec(Vec::from_slice(alloc, &[10, 11, 0, 7, 9])?),
        left: left(alloc, production)?,
        right: right(alloc)?,
        when,
    })
}

/// The front of the one cell, with this part and a rest.
fn side(alloc: Global, part: Pattern) -> Result<CellPat, Memory>
    ensures { IfOk result (λ cell. cell ≡ record { cell = 0; mark = 0; body = SeqBody (part ∷ []) (Some 1) }) }
{
    let mut parts = Many::new(alloc);
    parts.push(part)?;
    Ok(CellPat {
        cell: 0,
        mark: 0,
        body: Body::Seq(parts, Some(1)),
    })
}

/// A rule at this byte that takes production 1 away from its argument.
fn sample_rule(alloc: Global, at: usize) -> Result<Rule, Memory>
    ensures { IfOk result (λ rule. rule ≡ record {
      origin = Written at;
      vars = 10 ∷ 0 ∷ [];
      left = record { cell = 0; mark = 0; body = SeqBody (Node 1 (Var 0 ∷ []) ∷ []) (Some 1) };
      right = record { cell = 0; mark = 0; body = SeqBody (Var 0 ∷ []) (Some 1) };
      when = [];
    }) }
{
    let mut arguments = Many::new(alloc);
    arguments.push(Pattern::Var(0))?;
    Ok(Rule {
        origin: Origin::Written { at },
        vars: Many::from_vec(Vec::from_slice(alloc, &[10, 0])?),
        left: side(alloc, Pattern::Node(1, arguments))?,
        right: side(alloc, Pattern::Var(0))?,
        when: Many::new(alloc),
    })
}

/// A definition of that rule, with a cell of this name, these steps of its sorts, and this label.
fn defs(
    alloc: Global,
    steps: &[(u32, u32)],
    name: &[u8],
    at: usize,
    label: &[u8],
) -> Result<Defs, Memory> {
    let mut cells = Many::new(alloc);
    cells.push(CellShape {
        name: text(alloc, name)?,
        parent: None,
        many: false,
        kind: Kind::Seq,
    })?;
    let mut rules = Many::new(alloc);
    rules.push(Arc::new(alloc, sample_rule(alloc, at)?)?)?;
    let mut labels = Many::new(alloc);
    labels.push(text(alloc, label)?)?;
    let sorts = Sorts::new(alloc, steps, &[10])?;
    Ok(Defs::new(sorts, cells, rules, labels))
}

#[test]
fn copies_and_compares_rules(rt: HostRuntime) -> Result<(), Fail> {
    let one = rule(rt.alloc(), 4, 2)?;
    let copy = copy_rule(rt.alloc(), &one)?;
    assert!(rt; equal_rule(&one, &copy));
    for (production, sort, want) in [(4, 2, true), (5, 2, false), (4, 3, false)] {
        let other = rule(rt.alloc(), production, sort)?;
        assert_eq!(rt; equal_rule(&copy, &other), want);
    }
    Ok(())
}

#[test]
fn counts_cells(rt: HostRuntime) -> Result<(), Fail> {
    let one = rule(rt.alloc(), 4, 2)?;
    assert_eq!(rt; left_cells(&one), 3);
    assert_eq!(rt; new_cells(&one), 3);
    Ok(())
}

#[test]
fn makes_a_definition(rt: HostRuntime) -> Result<(), Fail> {
    let made = defs(rt.alloc(), &[(3, 10)], b"k", 7, b"f")?;
    assert_eq!(rt; made.cells().len(), 1);
    assert_eq!(rt;
        made.rule(1).map(|rule| rule.vars.as_slice().len()),
        Some(2)
    );
    assert!(rt; made.rule(2).is_none());
    assert_eq!(rt;
        made.label(1).map(|label| label.as_slice()),
        Some(b"f".as_slice())
    );
    Ok(())
}

#[test]
fn compares_definitions(rt: HostRuntime) -> Result<(), Fail> {
    let one = defs(rt.alloc(), &[(3, 10)], b"k", 7, b"_+_")?;
    let cases: [(&[(u32, u32)], &[u8], usize, &[u8], bool); 5] = [
        (&[(3, 10)], b"k", 7, b"_+_", true),
        (&[(4, 10)], b"k", 7, b"_+_", false),
        (&[(3, 10)], b"m", 7, b"_+_", false),
        (&[(3, 10)], b"k", 8, b"_+_", false),
        (&[(3, 10)], b"k", 7, b"_-_", false),
    ];
    for (steps, name, at, label, want) in cases {
        let other = defs(rt.alloc(), steps, name, at, label)?;
        assert_eq!(rt; equal_defs(&one, &other), want);
    }
    Ok(())
}
