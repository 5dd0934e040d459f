//! What each sort leads on to.
ghost use Rattle.std.specs.Prelude.{◌≡◌, ◌↔◌, ℕ, ◌<◌, length, true, IfOk};
ghost use Rattle.import_order.specs.Imports.{Has, AreWithin, Reaches};
ghost use Rattle.import_order.specs.Reaching.{IsAdded};
ghost use Rattle.sorted_grammar.specs.Marks.{marked, AreReached};

use k_terms::{Many, Memory};
use std::alloc::Global;

/// Marks what is led to and not seen yet, and adds it to the work.
fn add_unseen(targets: &[usize], seen: &mut [bool], work: &mut Vec<usize>) -> Result<(), Memory>
    requires { (m : ℕ) → Has targets.now m → m < length seen.old }
    ensures { IfOk result (λ _. IsAdded targets.now seen.old seen.new work.old.items work.new.items) }
{
    for target in targets {
        if seen[*target] {
            continue;
        }
        seen[*target] = true;
        work.push(*target)?;
    }
    Ok(())
}

/// The row that marks what one or more steps lead to from a sort.
fn reached(alloc: Global, graph: &[Many<usize>], start: usize) -> Result<Many<bool>, Memory>
    requires within { AreWithin graph.now }
    requires start { start < length graph.now }
    ensures { IfOk result (λ row. (to : ℕ) → (marked row to ≡ true) ↔ Reaches graph.now start to) }
{
    let mut seen = vec![in alloc; false; graph.len()]?;
    let mut work = Vec::new(alloc);
    work.push(start)?;
    while let Some(next) = work.pop() {
        add_unseen(graph[next].as_slice(), &mut seen, &mut work)?;
    }
    Ok(Many::from_vec(seen))
}

/// The row of each sort.
pub fn reached_rows(alloc: Global, graph: &[Many<usize>]) -> Result<Vec<Many<bool>>, Memory>
    requires { AreWithin graph.now }
    ensures { IfOk result (λ rows. AreReached graph.now rows.items) }
{
    let mut rows = Vec::with_capacity(alloc, graph.len())?;
    for start in 0..graph.len() {
        rows.push(reached(alloc, graph, start)?)?;
    }
    Ok(rows)
}
