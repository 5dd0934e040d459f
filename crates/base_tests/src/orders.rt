ghost use Rattle.std.specs.Prelude.{ℕ, ◌<◌, IfOk};
ghost use Rattle.import_order.specs.Imports.{Has, AreWithin};

use import_order::{closure, first_on_cycle, order};
use k_terms::{Many, Memory};
use std::alloc::Global;
use std::test::Fail;

/// The numbers below a limit.
fn below(alloc: Global, numbers: &[usize], limit: usize) -> Result<Vec<usize>, Memory>
    ensures { IfOk result (λ kept. (x : ℕ) → Has kept.items x → x < limit) }
{
    let mut kept = Vec::new(alloc);
    for number in numbers {
        if *number >= limit {
            continue;
        }
        kept.push(*number)?;
    }
    Ok(kept)
}

/// The graph of these imports; imports of modules that are not there are left out.
fn graph_of(alloc: Global, lists: &[&[usize]]) -> Result<Vec<Many<usize>>, Memory>
    ensures { IfOk result (λ graph. AreWithin graph.items) }
{
    let mut graph = Vec::new(alloc);
    for list in lists {
        graph.push(Many::from_vec(below(alloc, list, lists.len())?))?;
    }
    Ok(graph)
}

/// Each module imports the next one, and the last imports none.
fn chain(alloc: Global, count: usize) -> Result<Vec<Many<usize>>, Memory>
    ensures { IfOk result (λ graph. AreWithin graph.items) }
{
    let mut graph = Vec::new(alloc);
    for number in 0..count {
        graph.push(Many::from_vec(below(alloc, &[number + 1], count)?))?;
    }
    Ok(graph)
}

fn shown(alloc: Global, numbers: &[usize]) -> Result<String, Memory> {
    let mut line = String::new(alloc);
    for number in numbers {
        line.push_str(&format!(in alloc; "{number} ")?)?;
    }
    Ok(line)
}

/// The order of the roots, or the word `cycle`.
fn shown_order(alloc: Global, lists: &[&[usize]], roots: &[usize]) -> Result<String, Memory> {
    let graph = graph_of(alloc, lists)?;
    let roots = below(alloc, roots, graph.len())?;
    let Some(found) = order(alloc, &graph, &roots)? else {
        return Ok(String::from_str(alloc, "cycle")?);
    };
    shown(alloc, &found)
}

/// The closure of a module, or the word `cycle`.
fn shown_closure(alloc: Global, lists: &[&[usize]], root: usize) -> Result<String, Memory> {
    let built = graph_of(alloc, lists)?;
    let graph = built.as_slice();
    if root >= graph.len() {
        return Ok(String::new(alloc));
    }
    let None = first_on_cycle(alloc, graph)? else {
        return Ok(String::from_str(alloc, "cycle")?);
    };
    shown(alloc, &closure(alloc, graph, root)?)
}

#[test]
fn orders_by_first_places(rt: HostRuntime) -> Result<(), Fail> {
    let cases: [(&[&[usize]], &[usize], &str); 9] = [
        (&[], &[], ""),
        (&[&[]], &[0], "0 "),
        (&[&[], &[0], &[1]], &[2], "0 1 2 "),
        (&[&[], &[0], &[0], &[1, 2]], &[3], "0 1 2 3 "),
        (&[&[], &[0], &[0], &[2, 1]], &[3], "0 2 1 3 "),
        (&[&[], &[0, 0]], &[1], "0 1 "),
        (&[&[], &[0], &[0]], &[2, 1], "0 2 1 "),
        (&[&[], &[0], &[0]], &[1, 0, 1], "0 1 "),
        (&[&[], &[1]], &[0], "0 "),
    ];
    for (lists, roots, want) in cases {
        assert_eq!(rt; shown_order(rt.alloc(), lists, roots)?.as_str(), want);
    }
    Ok(())
}

#[test]
fn has_no_order_over_a_cycle(rt: HostRuntime) -> Result<(), Fail> {
    let cases: [(&[&[usize]], &[usize]); 5] = [
        (&[&[0]], &[0]),
        (&[&[1], &[0]], &[1]),
        (&[&[1], &[2], &[0]], &[2]),
        (&[&[1], &[2], &[1]], &[0]),
        (&[&[], &[1]], &[0, 1]),
    ];
    for (lists, roots) in cases {
        assert_eq!(rt; shown_order(rt.alloc(), lists, roots)?.as_str(), "cycle");
    }
    Ok(())
}

#[test]
fn finds_the_first_on_a_cycle(rt: HostRuntime) -> Result<(), Fail> {
    let cases: [(&[&[usize]], Option<usize>); 7] = [
        (&[], None),
        (&[&[1, 2], &[2], &[]], None),
        (&[&[0]], Some(0)),
        (&[&[1], &[0]], Some(0)),
        (&[&[2], &[0], &[1]], Some(0)),
        (&[&[1], &[2], &[1]], Some(1)),
        (&[&[], &[0, 3], &[2], &[1]], Some(1)),
    ];
    for (lists, want) in cases {
        let graph = graph_of(rt.alloc(), lists)?;
        assert_eq!(rt; first_on_cycle(rt.alloc(), &graph)?, want);
    }
    Ok(())
}

#[test]
fn goes_down_a_long_chain(rt: HostRuntime) -> Result<(), Fail> {
    let graph = chain(rt.alloc(), 2000)?;
    assert_eq!(rt; graph.len(), 2000);
    assert!(rt; first_on_cycle(rt.alloc(), &graph)?.is_none());
    let roots = below(rt.alloc(), &[0], graph.len())?;
    let modules = order(rt.alloc(), &graph, &roots)?.unwrap_or(Vec::new(rt.alloc()));
    assert_eq!(rt; modules.len(), 2000);
    assert_eq!(rt; modules.first().copied(), Some(1999));
    assert_eq!(rt; modules.last().copied(), Some(0));
    Ok(())
}

#[test]
fn closes_one_module(rt: HostRuntime) -> Result<(), Fail> {
    let diamond: &[&[usize]] = &[&[], &[0], &[0], &[2, 1], &[3]];
    for (root, want) in [(0, "0 "), (2, "0 2 "), (3, "0 2 1 3 "), (4, "0 2 1 3 4 ")] {
        assert_eq!(rt; shown_closure(rt.alloc(), diamond, root)?.as_str(), want);
    }
    Ok(())
}
