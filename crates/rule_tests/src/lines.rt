use grammar_terms::Grammar;
use k_terms::{Many, Memory, Text};
use rule_listing::rule_lines;
use rule_terms::{Body, CellPat, CellShape, Kind, Origin, Rule};
use std::alloc::Global;
use std::str;
use std::sync::Arc;
use std::test::Fail;

fn shape(alloc: Global, name: &str, parent: Option<u32>, kind: Kind) -> Result<CellShape, Memory> {
    Ok(CellShape {
        name: Text::from_vec(Vec::from_slice(alloc, name.as_bytes())?),
        parent,
        many: false,
        kind,
    })
}

fn leaf(alloc: Global, cell: u32) -> CellPat {
    CellPat {
        cell,
        mark: cell,
        body: Body::Seq(Many::new(alloc), None),
    }
}

/// The cell 0 with the cells 1 and 2 in it.
fn side(alloc: Global) -> Result<CellPat, Memory> {
    let mut inside = Many::new(alloc);
    inside.push(leaf(alloc, 1))?;
    inside.push(leaf(alloc, 2))?;
    Ok(CellPat {
        cell: 0,
        mark: 0,
        body: Body::Cells(inside, None),
    })
}

fn rule(alloc: Global, origin: Origin) -> Result<Arc<Rule>, Memory> {
    let rule = Rule {
        origin,
        vars: Many::new(alloc),
        left: side(alloc)?,
        right: side(alloc)?,
        when: Many::new(alloc),
    };
    Ok(Arc::new(alloc, rule)?)
}

#[test]
fn lists_rules(rt: HostRuntime) -> Result<(), Fail> {
    let alloc = rt.alloc();
    let grammar = Grammar::new(alloc, Many::new(alloc), Many::new(alloc))?;
    let mut cells = Many::new(alloc);
    cells.push(shape(alloc, "T", None, Kind::Cells)?)?;
    cells.push(shape(alloc, "k", Some(0), Kind::Seq)?)?;
    cells.push(shape(alloc, "env", Some(0), Kind::Seq)?)?;
    let mut rules = Many::new(alloc);
    rules.push(rule(alloc, Origin::Written { at: 7 })?)?;
    rules.push(rule(alloc, Origin::Heat { prod: 3, place: 2 })?)?;
    rules.push(rule(alloc, Origin::Cool { prod: 3, place: 2 })?)?;
    let lines = rule_lines(alloc, &grammar, cells.as_slice(), rules.as_slice())?;
    let lines = str::from_utf8(lines.as_slice()).unwrap_or("(no text)");
    assert_eq!(rt; lines, "1 rule T,k,env\n2 heat  2\n3 cool  2\n");
    Ok(())
}
